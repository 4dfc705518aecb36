use crate::answers::{Refusals, Shown};
use std::test::Fail;
use test_tables::first_wrong;

// What stands before the items of most tables, in a line of its own.
const HEAD: &str =
    "protocol P; sort A; sort B; subsort B < A; op a : -> A; op b : -> B; op f : A -> Msg; op p : Msg Msg -> Msg; op n : A Fresh -> Msg; strand s fresh r vars X:A : + n(X,r), - X;\n";

// Faults of syntax, and items that come later.
const SYNTAX_ROWS: &str = "sort ; => syntax 2:6
sort C => syntax 2:7
sort op; => syntax 2:6
sort C D; => syntax 2:8
subsort A A; => syntax 2:11
subsort A < ; => syntax 2:13
op g -> A; => syntax 2:6
op g : A ; => syntax 2:10
op g : A , A -> A; => syntax 2:10
op g : A -> A A; => syntax 2:15
strand t + a; => syntax 2:10
strand t fresh : + a; => syntax 2:16
strand t vars : + a; => syntax 2:15
strand t vars X : + a; => syntax 2:19
strand t : a; => syntax 2:12
strand t : + a - a; => syntax 2:16
strand t : + f(); => syntax 2:16
strand t : + f(a; => syntax 2:17
strand t : + #0; => syntax 2:14
intruder : + a; => syntax 2:10
aim g known a; => syntax 2:7
aim g : a; => syntax 2:9
aim g : strand s(X=a) 1; => syntax 2:23
aim g : strand s(X=a) at 0a; => syntax 2:27
aim g : strand s(X=a) at 4294967296; => syntax 2:26
aim g : strand s(X=a) at 01; => syntax 2:26
aim g : strand s(X) at 0; => syntax 2:19
aim g : strand s(X=a,) at 0; => syntax 2:22
grammar g a; => syntax 2:11
op a : -> A; op a : -> A / => syntax 2:26
strand t vars X:A fresh r : + a; => syntax 2:19
op op; $ => syntax 2:4
op g : -> A; $ op; => syntax 2:14
sort A; op g : -> A; ; => syntax 2:22
grammar g : a; => later 2:1
op a : -> A; grammar g : a; => later 2:14
eq : q = b; grammar g : a; => later 2:13
grammar g : a; eq a => syntax 2:19
op g : -> A; grammar g : a; grammar h : a; => later 2:14";

#[test]
fn syntax_rows(rt: HostRuntime) -> Result<(), Fail> {
    let refusals = Refusals { head: HEAD };
    assert_eq!(rt; first_wrong(rt.alloc(), &refusals, SYNTAX_ROWS)?, None);
    Ok(())
}

// Sorts, subsorts, operators, and commutative operators.
const DECLARATION_ROWS: &str = "sort C; => ok
sort A; => name A 2:6
sort Msg; => name Msg 2:6
sort Fresh; => name Fresh 2:6
sort C; sort C; => name C 2:14
sort C; sort D; sort B; => name B 2:22
sort a; sort s; sort X; sort P; => ok
sort C; op g : C -> C; => ok
subsort A < Msg; => ok
subsort B < A; => ok
subsort A < B; => sort A 2:9
subsort A < A; => sort A 2:9
subsort Msg < A; => sort Msg 2:9
subsort Msg < Msg; => sort Msg 2:9
subsort C < A; => name C 2:9
subsort A < C; => name C 2:13
subsort C < D; => name C 2:9
subsort C < Fresh; => name C 2:9
subsort Fresh < A; => sort Fresh 2:9
subsort Fresh < C; => sort Fresh 2:9
subsort Fresh < Fresh; => sort Fresh 2:9
subsort A < Fresh; => sort Fresh 2:13
subsort Msg < Fresh; => sort Fresh 2:15
sort C; subsort C < B; subsort A < C; => sort A 2:32
sort C; subsort C < B; subsort C < A; => ok
sort C; sort D; subsort C < D; subsort D < B; subsort A < C; => sort A 2:55
sort C; subsort A < C; subsort C < B; => sort C 2:32
sort C; subsort A < C; subsort B < C; => ok
subsort C < A; sort C; => name C 2:9
op g : -> Msg; => ok
op a : -> Msg; => name a 2:4
op X : -> Msg; => name X 2:4
op r : -> Msg; => name r 2:4
op s : -> Msg; op A : -> Msg; op Msg : -> Msg; => ok
op g : -> A; op g : A -> B; => name g 2:17
strand t vars Y:A : + a; strand u : + a; op Y : -> A; => name Y 2:45
strand t fresh q : + a; op q : -> A; => name q 2:28
aim g vars Y:A : known Y; op Y : -> A; => ok
op g : C -> Msg; => name C 2:8
op g : A C D -> E; => name C 2:10
op g : A -> C; => name C 2:13
op g : -> Fresh; => sort Fresh 2:11
op g : Fresh -> A; => ok
op g : C -> Fresh; => name C 2:8
op g : A Fresh -> Fresh; => sort Fresh 2:19
op g : C -> A; sort C; => name C 2:8
op g : A A -> Msg comm; => ok
op g : Fresh Fresh -> Msg comm; => ok
op g : A B -> Msg comm; => sort g 2:4
op g : B A -> Msg comm; => sort g 2:4
op g : A -> Msg comm; => sort g 2:4
op g : -> Msg comm; => sort g 2:4
op g : A A A -> Msg comm; => sort g 2:4
op g : Q R -> Msg comm; => sort g 2:4
op g : Q Q -> Msg comm; => name Q 2:8
op g : Q -> R comm; => sort g 2:4
op a : Q R -> Msg comm; => name a 2:4
op g : A A -> Fresh comm; => sort Fresh 2:15";

#[test]
fn declaration_rows(rt: HostRuntime) -> Result<(), Fail> {
    let refusals = Refusals { head: HEAD };
    assert_eq!(rt; first_wrong(rt.alloc(), &refusals, DECLARATION_ROWS)?, None);
    Ok(())
}

// Strands, their variables and fresh values, and their messages.
const STRAND_ROWS: &str = "strand t : + a; => ok
strand s : + a; => name s 2:8
intruder s : - a; => name s 2:10
strand t : + a; strand t : - a; => name t 2:24
intruder t : + a; strand t : - b; => name t 2:26
strand a : + a; strand A : - a; strand X : + a; strand P : + a; => ok
strand s vars a:C : + q; => name s 2:8
aim t : known a; strand t : + a; => ok
strand t fresh q : + n(a,q); => ok
strand t vars X:A : + X; => ok
strand t fresh r vars X:A : + n(X,r); => ok
strand t fresh a : + b; => name a 2:16
strand t fresh q q : + a; => name q 2:18
strand t fresh q w q : + a; => name q 2:20
strand t vars a:A : + b; => name a 2:15
strand t vars Y:A Y:B : + a; => name Y 2:19
strand t fresh q vars q:A : + a; => name q 2:23
strand t fresh q vars Y:A q:A : + a; => name q 2:27
strand t vars Y:C : + Y; => name C 2:17
strand t vars Y:C Y:A : + a; => name C 2:17
strand t vars Y:A a:C : + a; => name a 2:19
strand t fresh a vars Y:C : + a; => name a 2:16
strand t vars Y:Fresh : + n(a,Y); => ok
strand t fresh A vars s:A Msg:Msg : + p(Msg,n(s,A)); => ok
strand t vars g:A : + g; strand u vars g:B : - g; => ok
op g : -> A; strand t vars g:A : + g; => name g 2:28
strand t : + f(b); => ok
strand t : + q; => name q 2:14
strand t : + f(q); => name q 2:16
strand t : + f(a,b); => sort f 2:14
strand t : + f; => sort f 2:14
strand t : + a(b); => sort a 2:14
strand t : + f(p(a,a)); => sort f 2:14
strand t vars Y:Fresh : + Y; => sort Y 2:27
strand t fresh q : - q; => sort q 2:22
strand t fresh q : + f(q); => sort f 2:22
strand t fresh q : + p(n(a,q),b); => ok
strand t : + n(a,b); => sort n 2:14
strand t : + p(q,f); => name q 2:16
strand t : + p(a,f); => sort f 2:18
strand t : + f(p(q,a)); => sort f 2:14
strand t : + a, - q, + f; => name q 2:19
strand t : + a, - b, + f; => sort f 2:24
strand t vars Y:A : + Y(a); => sort Y 2:23
strand t : + X; => name X 2:14
strand t : + r; => name r 2:14
strand t : + Msg; => name Msg 2:14
strand t : + s; => name s 2:14
strand t : + g; op g : -> A; => name g 2:14
strand t vars Y:Msg : + f(Y); => sort f 2:25
strand t vars Y:B : + f(Y); => ok
strand t vars Y:Fresh : + Y, + q; => sort Y 2:27";

#[test]
fn strand_rows(rt: HostRuntime) -> Result<(), Fail> {
    let refusals = Refusals { head: HEAD };
    assert_eq!(rt; first_wrong(rt.alloc(), &refusals, STRAND_ROWS)?, None);
    Ok(())
}

// Names, sorts and syntax of equations.
const EQUATION_ROWS: &str = "eq : a = b; => ok
eq : a = b; eq : a = b; => ok
eq vars X:A : f(X) = X; => ok
eq vars F:Fresh Y:A : n(Y,F) = Y; => ok
eq vars a:A : a = b; => name a 2:9
eq vars Y:A Y:A : Y = a; => name Y 2:13
eq vars Y:C : Y = a; => name C 2:11
eq vars Y:C Y:A : Y = q; => name C 2:11
eq : q = w; => name q 2:6
eq : a = w; => name w 2:10
eq : X = a; => name X 2:6
eq : s = Msg; => name s 2:6
eq : g = a; op g : -> A; => name g 2:6
eq vars Y:A : f(Y) = Y; op Y : -> A; => ok
eq vars Y:A : f(Y) = Y; eq : f(Y) = a; => name Y 2:32
op Y : -> A; eq vars Y:A : Y = a; => name Y 2:22
eq : f = q; => sort f 2:6
eq : a = f(a,b); => sort f 2:10
eq : f(p(a,a)) = a; => sort f 2:6
eq : p(a,f(q)) = f(a,a); => name q 2:12
eq : f(q) = f; => name q 2:8
eq vars Y:A : Y(a) = a; => sort Y 2:15
eq vars F:Fresh : F = q; => sort F 2:19
eq vars F:Fresh : a = F; => sort F 2:23
eq vars F:Fresh : f(F) = a; => sort f 2:19
eq vars Y:Msg : f(Y) = a; => sort f 2:17
eq vars Y:B : f(Y) = a; => ok
eq a = b; => syntax 2:4
eq f : a = b; => syntax 2:4
eq fresh q : a = b; => syntax 2:4
eq vars : a = b; => syntax 2:9
eq vars Y : Y = a; => syntax 2:15
eq : = b; => syntax 2:6
eq : a b; => syntax 2:8
eq : a < b; => syntax 2:8
eq : f( = b; => syntax 2:9
eq : a = ; => syntax 2:10
eq : a = f(b; => syntax 2:13
eq : a = b = a; => syntax 2:12
eq : a = b => syntax 2:11
eq : q = q; eq => syntax 2:15";

#[test]
fn equation_rows(rt: HostRuntime) -> Result<(), Fail> {
    let refusals = Refusals { head: HEAD };
    assert_eq!(rt; first_wrong(rt.alloc(), &refusals, EQUATION_ROWS)?, None);
    Ok(())
}

// Aims, instances of strands in them, and the parameters of instances.
const AIM_ROWS: &str = "aim g : known a; => ok
aim g : known a; aim g : known b; => name g 2:22
aim g : known a; aim h : known b; aim g : known q; => name g 2:39
aim s : known a; aim a : known a; aim Msg : known a; => ok
aim g vars Y:A : known f(Y); => ok
aim g vars a:A : known b; => name a 2:12
aim g vars Y:A Y:A : known a; => name Y 2:16
aim g vars Y:C : known a; => name C 2:14
aim g vars X:A r:Fresh : known n(X,r); => ok
aim g vars Y:Fresh : known Y; => sort Y 2:28
aim g : known q; => name q 2:15
aim g : known f; => sort f 2:15
aim g : known X; => name X 2:15
aim g : known a, known b, known q, known f; => name q 2:33
aim g : known a, known f, known q; => sort f 2:24
aim g : known h; op h : -> A; => name h 2:15
aim g vars Y:A : known Y; aim h : known Y; => name Y 2:41
aim g vars F:Fresh : strand s(X=a,r=F) at 0; => ok
aim g vars F:Fresh : strand s(X=a,r=F) at 2; => ok
aim g vars F:Fresh : strand s(X=a,r=F) at 3; => name s 2:29
aim g vars F:Fresh : strand s(X=a,r=F) at 65536; => name s 2:29
aim g vars F:Fresh : strand s(X=a,r=F) at 4294967295; => name s 2:29
aim g vars F:Fresh : strand q(X=a,r=F) at 0; => name q 2:29
aim g vars F:Fresh : strand q(Y=q) at 9; => name q 2:29
aim g vars F:Fresh : strand g(X=a,r=F) at 0; => name g 2:29
aim g vars F:Fresh : strand s() at 0; => name s 2:29
aim g vars F:Fresh : strand s(X=a) at 0; => name s 2:29
aim g vars F:Fresh : strand s(r=F) at 0; => name s 2:29
aim g vars F:Fresh : strand s(Y=q) at 9; => name s 2:29
aim g vars F:Fresh : strand s(Y=q,Z=q) at 9; => name s 2:29
aim g : strand t() at 0; strand t : + a; => name t 2:16
strand t : + a; aim g : strand t() at 1; => ok
strand t : + a; aim g : strand t() at 1, strand t() at 2; => name t 2:49
aim g : known a, strand q() at 0; => name q 2:25
aim g vars F:Fresh : strand s(X=b,r=F) at 0; => ok
aim g vars F:Fresh : strand s(r=F,X=a) at 0; => name r 2:31
aim g vars F:Fresh : strand s(X=a,q=F) at 0; => name q 2:35
aim g vars F:Fresh : strand s(X=a,X=a) at 0; => name X 2:35
aim g vars F:Fresh : strand s(X=a,r=F,r=F) at 0; => name r 2:39
aim g vars F:Fresh : strand s(X=a,r=F,Y=q) at 0; => name Y 2:39
aim g vars F:Fresh : strand s(X=p(a,a),r=F) at 0; => sort X 2:31
aim g vars F:Fresh : strand s(X=a,r=a) at 0; => sort r 2:35
aim g vars F:Fresh : strand s(X=F,r=F) at 0; => sort X 2:31
aim g vars F:Fresh : strand s(X=q,r=F) at 0; => name q 2:33
aim g vars F:Fresh : strand s(X=f(q),r=F) at 0; => sort X 2:31
aim g vars F:Fresh : strand s(X=a(q),r=F) at 0; => sort a 2:33
aim g vars F:Fresh : strand s(X=a,r=F(a)) at 0; => sort F 2:37
aim g vars F:Fresh : strand s(X=a,r=q(F)) at 0; => name q 2:37
aim g vars F:Fresh : strand s(Y=q,r=F) at 0; => name Y 2:31
aim g vars F:Fresh : strand s(X=q,Y=F) at 0; => name q 2:33
aim g vars F:Fresh : strand s(X=a,r=n(q,F)) at 0; => sort r 2:35
aim g vars F:Fresh : strand s(X=X,r=F) at 0; => name X 2:33
strand t : + a; aim g : strand t(X=a) at 1; => name X 2:34
strand t vars Y:Msg : + Y; aim g : strand t(Y=f(q)) at 1; => name q 2:49
strand t vars Y:Msg : + Y; aim g : strand t(Y=f(f(a))) at 1; => sort f 2:47";

#[test]
fn aim_rows(rt: HostRuntime) -> Result<(), Fail> {
    let refusals = Refusals { head: HEAD };
    assert_eq!(rt; first_wrong(rt.alloc(), &refusals, AIM_ROWS)?, None);
    Ok(())
}

// What stands before the items at the limits: a constant and a unary operator.
const FEW: &str = "protocol P; op a : -> Msg; op f : Msg -> Msg; ";

// The last number that a limit lets through, and one more.
const LIMIT_ROWS: &str = "{256:sort s%; } => ok
{257:sort s%; } => limit sorts 257
{4094:op o% : -> Msg; } => ok
{4095:op o% : -> Msg; } => limit ops 4097
op g :{16: Msg} -> Msg; => ok
op g :{17: Msg} -> Msg; => limit args 17
{256:eq : a = f(a); } => ok
{257:eq : a = f(a); } => limit equations 257
{1024:strand s% : + a; } => ok
{1025:strand s% : + a; } => limit strands 1025
strand s : + a{31:, - a}; => ok
strand s : + a{32:, - a}; => limit events 33
strand s vars{64: X%:Msg} : + a; => ok
strand s vars{65: X%:Msg} : + a; => limit params 65
strand s fresh{63: r%} vars X:Msg : + a; => ok
strand s fresh{64: r%} vars X:Msg : + a; => limit params 65
{256:aim g% : known a; } => ok
{257:aim g% : known a; } => limit aims 257
aim g : known a{63:, known a}; => ok
aim g : known a{64:, known a}; => limit parts 65
strand s : + a; aim g : strand s() at 0{31:, strand s() at 0}; => ok
strand s : + a; aim g : strand s() at 0{32:, strand s() at 0}; => limit parts 33
strand s : + {1023:f(}a{1023:)}; => ok
strand s : + {1024:f(}a{1024:)}; => limit symbols 1025
strand s : - f(a), + {1020:f(}a{1020:)}, - a; => ok
strand s : - f(a), + {1021:f(}a{1021:)}, - a; => limit symbols 1025
eq : {1023:f(}a{1023:)} = f(a); => ok
eq : {1024:f(}a{1024:)} = f(a); => limit symbols 1025
eq : f(a) = {1023:f(}a{1023:)}; => ok
eq : f(a) = {1024:f(}a{1024:)}; => limit symbols 1025
aim g : known a, known {1023:f(}a{1023:)}, known f(a); => ok
aim g : known a, known {1024:f(}a{1024:)}, known f(a); => limit symbols 1025
strand s vars X:Msg Y:Msg : + X; aim g : strand s(X=a,Y={1023:f(}a{1023:)}) at 1; => ok
strand s vars X:Msg Y:Msg : + X; aim g : strand s(X=a,Y={1024:f(}a{1024:)}) at 1; => limit symbols 1025";

#[test]
fn limits(rt: HostRuntime) -> Result<(), Fail> {
    let refusals = Refusals { head: FEW };
    assert_eq!(rt; first_wrong(rt.alloc(), &refusals, LIMIT_ROWS)?, None);
    Ok(())
}

// Several limits are passed: the first kind counts, and of one kind the first place.
const FIRST_ROWS: &str = "op g :{18: Msg} -> Msg; op h :{17: Msg} -> Msg; => limit args 18
strand s : + a{32:, - a}; op g :{17: Msg} -> Msg; => limit args 17
{1025:strand s : + a; }{258:eq : a = a; } => limit equations 258
aim g : known a{70:, known a}{40:, strand s() at 0}; => limit parts 71
aim g : known a{40:, strand s() at 0}{70:, known a}; => limit parts 40
aim f : known a{32:, strand s() at 0}{63:, known a}; aim g : known a{33:, strand s() at 0}; aim h : known a{64:, known a}; => limit parts 33
aim g : known {1025:f(}a{1025:)}; strand s : + {1024:f(}a{1024:)}; => limit symbols 1026
eq : a = {1026:f(}a{1026:)}; strand s : + {1024:f(}a{1024:)}; => limit symbols 1027
sort A; sort A; {257:sort s%; } => limit sorts 259";

#[test]
fn first_limits(rt: HostRuntime) -> Result<(), Fail> {
    let refusals = Refusals { head: FEW };
    assert_eq!(rt; first_wrong(rt.alloc(), &refusals, FIRST_ROWS)?, None);
    Ok(())
}

// Whole texts.
const WHOLE_ROWS: &str = " => syntax 1:1
 \t\r~ => syntax 2:1
// protocol P; => syntax 1:15
protocol P; => ok
protocol P => syntax 1:11
protocol P;~ => ok
protocol Msg; strand Msg vars Msg:Msg : + Msg; => ok
protocol op; => syntax 1:10
protocol P; protocol Q; => syntax 1:13
protocol P; op a : - > Msg; => syntax 1:20
protocol P;~op a : Q -> R;~op a : -> Msg;~ => name Q 2:8
protocol P;~op a : -> Msg;~op a : Q -> R;~ => name a 3:4
protocol P;~sort A;~sort A;~op;~ => syntax 4:3
protocol P;~sort A;~sort A;~grammar g : a;~ => later 4:1
protocol P;~sort A;~eq : a = a;~sort A;~ => name a 3:6
protocol P;~op f : Msg -> Msg;~strand s : + f(f(~  f(a,q)));~ => sort f 4:3
protocol P; strand s : + \u{e9}; => syntax 1:26
protocol P; // \u{e9}~sort Msg; => name Msg 2:6";

#[test]
fn whole_texts(rt: HostRuntime) -> Result<(), Fail> {
    let refusals = Refusals { head: "" };
    assert_eq!(rt; first_wrong(rt.alloc(), &refusals, WHOLE_ROWS)?, None);
    Ok(())
}

// What texts stand for.
const MEANING_ROWS: &str =
    "protocol P; op a : -> Msg; op b : -> Msg; eq : a = b; eq : b = a; => P;op a free Msg;op b free Msg;a = b;b = a;
protocol P; op p : Msg Msg -> Msg; eq vars X:Msg Y:Msg : p(Y,X) = X; => P;op p Msg Msg free Msg;p(?0:Msg,?1:Msg) = ?1:Msg;
protocol P; sort A; op p : Msg Msg -> Msg; eq vars X:Msg Y:Fresh Z:A : p(Z,Z) = p(X,Z); => P;op p Msg Msg free Msg;p(?0:A,?0:A) = p(?1:Msg,?0:A);
protocol P; op a : -> Msg; op p : Msg Msg -> Msg; eq vars X:Msg Y:Msg Z:Msg : a = p(Z,p(X,Z)); => P;op a free Msg;op p Msg Msg free Msg;a = p(?0:Msg,p(?1:Msg,?0:Msg));
protocol P; sort A; op a : -> A; op s : A Fresh -> Msg; strand leak fresh r vars X:A : + s(X,r); => P;op a free A;op s A Fresh free Msg;strand leak A 1 X r + s(?0:A,?1:Fresh);
protocol P; sort A; op p : Fresh Fresh A Msg -> Msg; intruder t fresh q r vars X:A Y:Msg : - p(q,r,X,Y), + Y; => P;op p Fresh Fresh A Msg free Msg;intruder t A Msg 2 X Y q r - p(?2:Fresh,?3:Fresh,?0:A,?1:Msg) + ?1:Msg;
protocol P; op a : -> Msg; strand u : + a; strand v : - a; => P;op a free Msg;strand u 0 + a;strand v 0 - a;
protocol P; op a : -> Msg; op s : Msg Fresh -> Msg; aim g vars X:Msg F:Fresh : known s(X,F), known a; => P;op a free Msg;op s Msg Fresh free Msg;aim g Msg Fresh known s(?0:Msg,?1:Fresh) known a;
protocol P; op a : -> Msg; strand s : + a; strand t fresh r vars X:Msg : + X; aim g vars F:Fresh : known a, strand t(X=a,r=F) at 1; => P;op a free Msg;strand s 0 + a;strand t Msg 1 X r + ?0:Msg;aim g Fresh known a strand 1 at 1 a ?0:Fresh;
protocol P; sort A; sort B; subsort B < A; op c : A A -> B comm; op d : -> Msg; => P;op c A A comm B;op d free Msg;
protocol Q; sort A; op c : Fresh Msg A -> A; => Q;op c Fresh Msg A free A;";

#[test]
fn meanings_of_texts(rt: HostRuntime) -> Result<(), Fail> {
    assert_eq!(rt; first_wrong(rt.alloc(), &Shown {}, MEANING_ROWS)?, None);
    Ok(())
}
