use crate::answers::{Modules, Runs};
use crate::modules::HELLO;
use std::test::Fail;
use test_tables::first_wrong;

// Runs of HELLO: how they end, faults of syntax, and words at fault.
const HELLO_ROWS: &str = "got: use one use two X=f(a) do 0 1 1 => 0 2 >reaches~
got: reached use one use two X=f(a) do 0 1 1 => 0 2 >reaches~
got: use two X=f(a) use one do 1 0 0 => 0 2 >reaches~
got: use one use two X=f(a) // ends~do 0 1 1 //\u{e9} => 0 2 >reaches~
got: use one use two X=f(a) do 1 0 1 => 9 2 >stops 1 unsent f(a)~
got: use one use two X=f(f(a)) do 0 1 => 9 2 >stops 2 unsent f(f(a))~
got: use one use two X=f(a) do 0 1 1 1 => 9 2 >stops 4 ended 1~
got: use one use two X=f(a) do 0 2 => 9 2 >stops 2 instance 2~
got: use one do 4294967295 => 9 2 >stops 1 instance 4294967295~
got: do 0 => 9 2 >stops 1 instance 0~
got: use two do => 9 2 >stops 0 params 0~
got: use one use two X=a X=a do 0 0 => 9 2 >stops 0 params 1~
got: use one X=a do 0 => 9 2 >stops 0 params 0~
got: use two Y=a do 0 => 9 2 >stops 0 params 0~
got: use two X=#0 do 0 => 9 2 >stops 0 sort 0 X~
got: use one use two X=f(a) do 0 1 => 9 2 >misses part 1~
got: use one do 0 => 9 2 >misses part 1~
got: do => 9 2 >misses part 1~
got:  => 9 2 >invalid syntax 1:1~
got: // none~ => 9 2 >invalid syntax 2:1~
got: use one => 9 2 >invalid syntax 1:8~
got: use one do 0 use one => 9 2 >invalid syntax 1:14~
got: use one do 0 \u{e9} => 9 2 >invalid syntax 1:14~
got: use one do 4294967296 => 9 2 >invalid syntax 1:12~
got: use one do 42949672950 => 9 2 >invalid syntax 1:12~
got: use one do 00 => 9 2 >invalid syntax 1:12~
got: use two X= do => 9 2 >invalid syntax 1:12~
got: use two X=#0(a) do => 9 2 >invalid syntax 1:13~
got: use three do $ => 9 2 >invalid syntax 1:14~
got: use two~\tX=f(f() do => 9 2 >invalid syntax 2:8~
got: use use do => 9 2 >invalid syntax 1:5~
got: use one do #0 => 9 2 >invalid syntax 1:12~
got: use three do => 9 2 >invalid name three 1:5~
got: use got do => 9 2 >invalid name got 1:5~
got: use two X=g(a) do => 9 2 >invalid name g 1:11~
got: use two X=X do => 9 2 >invalid name X 1:11~
got: use two X=f(q) do => 9 2 >invalid name q 1:13~
got: use two Y=q do => 9 2 >invalid name q 1:11~
got: use one~use two X=q do => 9 2 >invalid name q 2:11~
got: use three X=q do => 9 2 >invalid name three 1:5~
got: use two X=q use three do => 9 2 >invalid name q 1:11~
got: use two X=f do => 9 2 >invalid sort f 1:11~
got: use two X=a(a) do => 9 2 >invalid sort a 1:11~
got: use two X=f(#0) do => 9 2 >invalid sort f 1:11~
got: use two X=f(q,q) do => 9 2 >invalid sort f 1:11~
got: use two X=f(f) do => 9 2 >invalid sort f 1:13~
got: use two X=a X=f do => 9 2 >invalid sort f 1:15~
got: use one use two X={1200:f(}a{1200:)} do 0 => 9 2 >misses part 1~
got: use one use two X={1201:f(}a{1201:)} do 0 => 9 2 >invalid syntax 1:2420~
got: use one use two X={300000:f(}a{300000:)} do 0 => 9 2 >invalid syntax 1:2420~
got: {1:use one }use two X=f(a) do{1: %} 1 1 => 0 2 >reaches~
got: {1000:use one }use two X=f(a) do{1000: %} 1000 1000 => 0 2 >reaches~
got: {1048560: }use one use two X=f(a) do 0 1 1 => 7 2 >limit bytes 1048576~
got: {1048545: }use one use two X=f(a) do 0 1 1 => 0 2 >reaches~";

#[test]
fn runs_of_two_strands(rt: HostRuntime) -> Result<(), Fail> {
    let answers = Runs { module: HELLO };
    assert_eq!(rt; first_wrong(rt.alloc(), &answers, HELLO_ROWS)?, None);
    Ok(())
}

// A strand that sends a fresh name.
const SEALED: &str = "protocol SEALED;
sort Name;
op a : -> Name; op s : Name Fresh -> Msg;
strand leak fresh r vars A:Name : + s(A,r);
aim got vars R:Fresh : known s(a,R);
";

// Runs with fresh names.
const SEALED_ROWS: &str = "got: use leak A=a r=#0 do 0 => 0 2 >reaches~
got: use leak A=a r=#4294967295 do 0 => 0 2 >reaches~
got: use leak A=a r=#0 do => 9 2 >misses part 1~
got: use leak A=a r=#7 do 0 0 => 9 2 >stops 2 ended 0~
got: use leak A=a r=#7 use leak A=a r=#7 do => 9 2 >stops 0 twice #7~
got: use leak A=#1 r=#0 do => 9 2 >stops 0 sort 0 A~
got: use leak A=a r=a do => 9 2 >stops 0 sort 0 r~
got: use leak A=s(a,#0) r=#0 do => 9 2 >stops 0 sort 0 A~
got: use leak A=a r=#1 use leak A=a r=#1 use leak A=#0 r=#0 do => 9 2 >stops 0 sort 2 A~
got: use leak r=#0 A=a do => 9 2 >stops 0 params 0~
got: use leak A=s(a,a) r=#0 do => 9 2 >invalid sort s 1:12~
got: use leak A=s(#0,#0) r=#0 do => 9 2 >invalid sort s 1:12~
got: use leak A=a r=#4294967296 do => 9 2 >invalid syntax 1:16~";

#[test]
fn runs_with_fresh_names(rt: HostRuntime) -> Result<(), Fail> {
    let answers = Runs { module: SEALED };
    assert_eq!(rt; first_wrong(rt.alloc(), &answers, SEALED_ROWS)?, None);
    Ok(())
}

// A commutative pair, and aims that ask for some instances of one strand.
const PAIR: &str = "protocol PAIR;
op a : -> Msg; op b : -> Msg; op f : Msg -> Msg; op p : Msg Msg -> Msg comm;
strand one : + p(b,a);
strand two vars X:Msg : - p(a,X), + f(X);
aim got vars Y:Msg : known p(Y,a), strand two(X=Y) at 2;
aim crossed : known p(a,b), known p(b,a), strand two(X=p(b,a)) at 0;
aim both vars X:Msg Y:Msg : strand two(X=X) at 1, strand two(X=Y) at 1;
aim other vars X:Msg : strand two(X=X) at 0, known f(X);
aim later vars X:Msg : strand two(X=X) at 2, strand two(X=f(X)) at 0;
";

// Which instances meet the parts of an aim, and in which order of a pair's members.
const PAIR_ROWS: &str = "got: use one use two X=b do 0 1 1 => 0 2 >reaches~
got: use one use two X=a do 0 1 => 9 2 >stops 2 unsent p(a,a)~
got: use one use two X=b do 0 1 => 9 2 >misses part 2~
got: use one use two X=b use two X=b do 0 1 2 2 => 0 2 >reaches~
got: use one use two X=p(b,a) do 0 1 => 9 2 >stops 2 unsent p(a,p(a,b))~
crossed: use one use two X=p(a,b) do 0 => 0 2 >reaches~
crossed: use one use two X=p(b,a) do 0 => 0 2 >reaches~
crossed: use one use two X=p(a,a) do 0 => 9 2 >misses part 3~
crossed: use two X=p(a,b) do => 9 2 >misses part 1~
both: use one use two X=b do 0 1 => 9 2 >misses part 2~
both: use one use two X=b use two X=b do 0 1 2 => 0 2 >reaches~
both: use one use two X=b use two X=b do 0 1 2 2 => 9 2 >misses part 2~
both: use one use two X=b do 0 => 9 2 >misses part 1~
other: use one use two X=a use two X=b use two X=b do 0 2 2 => 0 2 >reaches~
other: use one use two X=a use two X=b do 0 2 2 => 9 2 >misses part 2~
later: use one use two X=b use two X=f(a) use two X=f(b) do 0 1 1 => 0 2 >reaches~
later: use one use two X=b use two X=f(a) do 0 1 1 => 9 2 >misses part 2~";

#[test]
fn parts_of_aims(rt: HostRuntime) -> Result<(), Fail> {
    let answers = Runs { module: PAIR };
    assert_eq!(rt; first_wrong(rt.alloc(), &answers, PAIR_ROWS)?, None);
    Ok(())
}

// Three strands, and aims with many parts over their instances.
const CHOICE: &str = "protocol CHOICE; {41:op c% : -> Msg; }op p : Msg Msg -> Msg comm;
strand one vars X:Msg Y:Msg : - X; strand two vars X:Msg Y:Msg : - X; strand three vars X:Msg Y:Msg : - X;
aim own vars A:Msg B:Msg C:Msg D:Msg : strand one(X=A,Y=B) at 0, strand one(X=C,Y=D) at 0;
aim linked vars A:Msg B:Msg C:Msg : strand one(X=A,Y=B) at 0, strand two(X=B,Y=C) at 0;
aim apart vars A:Msg B:Msg C:Msg{30: U%:Msg V%:Msg} : {30:strand one(X=U%,Y=V%) at 0, }strand two(X=A,Y=B) at 0, strand three(X=B,Y=C) at 0;
aim swapped vars A:Msg B:Msg : strand one(X=p(A,B),Y=A) at 0;
aim many vars{21: U%:Msg V%:Msg} : known c0{21:, strand one(X=U%,Y=V%) at 0};
aim narrow vars A:Msg B:Msg C:Msg D:Msg E:Msg F:Msg{20: U%:Msg V%:Msg} : {20:strand one(X=U%,Y=V%) at 0, }strand one(X=A,Y=B) at 0, strand two(X=B,Y=C) at 0, strand one(X=D,Y=E) at 0, strand three(X=E,Y=F) at 0;
strand start : + c0;
";

// Parts that share variables, parts that share none, and too few instances.
const CHOICE_ROWS: &str = "own: use one X=c0 Y=c1 do => 9 2 >misses part 2~
own: use one X=c0 Y=c1 use one X=c0 Y=c1 do => 0 2 >reaches~
linked: use one X=c0 Y=c1 use one X=c1 Y=c2 use two X=c2 Y=c2 do => 0 2 >reaches~
linked: use one X=c0 Y=c1 use one X=c1 Y=c2 use two X=c3 Y=c2 do => 9 2 >misses part 2~
apart: {40:use one X=c% Y=c% }use two X=c1 Y=c2 use three X=c3 Y=c4 do => 9 2 >misses part 32~
apart: {40:use one X=c% Y=c% }use two X=c1 Y=c3 use three X=c3 Y=c4 do => 0 2 >reaches~
swapped: use one X=p(c1,c2) Y=c2 do => 0 2 >reaches~
swapped: use one X=p(c1,c2) Y=c3 do => 9 2 >misses part 1~
many: {20:use one X=c% Y=c% }use start do 20 => 9 2 >misses part 22~
many: {21:use one X=c% Y=c% }use start do 21 => 0 2 >reaches~
narrow: {40:use one X=c% Y=c% }use two X=c7 Y=c7 use three X=c7 Y=c7 do => 9 2 >misses part 24~
narrow: {40:use one X=c% Y=c% }use two X=c7 Y=c7 use three X=c8 Y=c7 do => 0 2 >reaches~";

#[test]
fn choices_of_instances(rt: HostRuntime) -> Result<(), Fail> {
    let answers = Runs { module: CHOICE };
    assert_eq!(rt; first_wrong(rt.alloc(), &answers, CHOICE_ROWS)?, None);
    Ok(())
}

// The protocol of Needham and Schroeder, and the aim that its responder's nonce is known.
const NSPK: &str = "protocol NSPK;
sort Name; sort Nonce;
op a : -> Name; op b : -> Name; op i : -> Name;
op n : Name Fresh -> Nonce; op p : Msg Msg -> Msg;
op pk : Name Msg -> Msg; op sk : Name Msg -> Msg;
eq vars K:Name M:Msg : pk(K,sk(K,M)) = M;
eq vars K:Name M:Msg : sk(K,pk(K,M)) = M;
intruder join vars X:Msg Y:Msg : - X, - Y, + p(X,Y);
intruder left vars X:Msg Y:Msg : - p(X,Y), + X;
intruder right vars X:Msg Y:Msg : - p(X,Y), + Y;
intruder seal vars A:Name X:Msg : - X, + pk(A,X);
intruder unseal vars X:Msg : - X, + sk(i,X);
intruder name vars A:Name : + A;
strand init fresh r vars A:Name B:Name NB:Nonce :
  + pk(B,p(n(A,r),A)), - pk(A,p(n(A,r),NB)), + pk(B,NB);
strand resp fresh r vars A:Name B:Name NA:Nonce :
  - pk(B,p(NA,A)), + pk(A,p(NA,n(B,r))), - pk(B,n(B,r));
aim lowe vars NA:Nonce F:Fresh :
  strand resp(A=a,B=b,NA=NA,r=F) at 3, known n(b,F);
";

// Lowe's attack, the same with one fresh name twice, and without its last step.
const NSPK_ROWS: &str =
    "lowe: use init A=a B=i NB=n(b,#1) r=#0~use unseal X=pk(i,p(n(a,#0),a))~use seal A=b X=p(n(a,#0),a)~use resp A=a B=b NA=n(a,#0) r=#1~use unseal X=pk(i,n(b,#1))~use seal A=b X=n(b,#1)~do 0 1 1 2 2 3 3 0 0 4 4 5 5 3~ => 0 2 >reaches~
lowe: use init A=a B=i NB=n(b,#1) r=#0~use unseal X=pk(i,p(n(a,#0),a))~use seal A=b X=p(n(a,#0),a)~use resp A=a B=b NA=n(a,#0) r=#0~use unseal X=pk(i,n(b,#1))~use seal A=b X=n(b,#1)~do 0 1 1 2 2 3 3 0 0 4 4 5 5 3~ => 9 2 >stops 0 twice #0~
lowe: use init A=a B=i NB=n(b,#1) r=#0~use unseal X=pk(i,p(n(a,#0),a))~use seal A=b X=p(n(a,#0),a)~use resp A=a B=b NA=n(a,#0) r=#1~use unseal X=pk(i,n(b,#1))~use seal A=b X=n(b,#1)~do 0 1 1 2 2 3 3 0 0 4 4 5 5~ => 9 2 >misses part 1~";

#[test]
fn an_attack(rt: HostRuntime) -> Result<(), Fail> {
    let answers = Runs { module: NSPK };
    assert_eq!(rt; first_wrong(rt.alloc(), &answers, NSPK_ROWS)?, None);
    Ok(())
}

// Encryption and decryption by one key cancel. `open` receives what a decryption gives.
const CIPHER: &str = "protocol CIPHER;
sort Name; sort Key;
op a : -> Name; op k : -> Key; op s : Name Fresh -> Msg;
op e : Key Msg -> Msg; op d : Key Msg -> Msg;
eq vars K:Key M:Msg : d(K,e(K,M)) = M;
intruder dec vars K:Key X:Msg : - K, - X, + d(K,X);
intruder enc vars X:Msg K:Key : - X, - K, + e(K,X);
strand box fresh r vars A:Name : + e(k,s(A,r));
strand give : + k;
strand open vars X:Msg : - d(k,X), + X;
aim got vars R:Fresh : known s(a,R);
aim key : known k, strand open(X=e(k,k)) at 1;
";

// Values that aren't normal, and messages that are sent and received in other forms than the normal one.
const CIPHER_ROWS: &str =
    "got: use give use box A=a r=#0 use dec K=k X=e(k,s(a,#0)) do 0 1 2 2 2 => 0 2 >reaches~
got: use give use box A=a r=#0 use dec K=k X=e(k,s(a,#0)) do 0 1 2 2 => 9 2 >misses part 1~
got: use dec K=k X=d(k,e(k,a)) do 0 => 9 2 >stops 0 normal 0 X~
got: use give use dec K=k X=e(k,d(k,e(k,a))) do => 9 2 >stops 0 normal 1 X~
got: use enc X=d(k,e(k,a)) K=a do => 9 2 >stops 0 sort 0 K~
got: use enc X=d(k,e(k,a)) K=k use give K=k do => 9 2 >stops 0 normal 0 X~
got: use give K=k use enc X=d(k,e(k,a)) K=k do => 9 2 >stops 0 params 0~
got: use box A=a r=#0 use box A=a r=#0 use dec K=k X=d(k,e(k,a)) do => 9 2 >stops 0 normal 2 X~
key: use give use open X=e(k,k) do 0 1 => 0 2 >reaches~
key: use give use open X=e(k,k) do 1 0 => 9 2 >stops 1 unsent k~
got: use open X=e(k,d(k,a)) do 0 => 9 2 >stops 1 unsent d(k,a)~
got: use open X=s(a,#0) do 0 => 9 2 >stops 1 unsent d(k,s(a,#0))~
key: use give use enc X=k K=k do 0 1 1 1 => 9 2 >misses part 2~";

#[test]
fn values_and_messages_that_cancel(rt: HostRuntime) -> Result<(), Fail> {
    let answers = Runs { module: CIPHER };
    assert_eq!(rt; first_wrong(rt.alloc(), &answers, CIPHER_ROWS)?, None);
    Ok(())
}

#[test]
fn what_no_term_is(rt: HostRuntime) -> Result<(), Fail> {
    let answers = Modules {
        head: "protocol E; op a : -> Msg; sort S; op s : Fresh -> S; ",
        run: "do",
    };
    let rows = "aim got vars X:Msg : known X; => 9 2 >misses part 1~";
    assert_eq!(rt; first_wrong(rt.alloc(), &answers, rows)?, None);
    Ok(())
}
