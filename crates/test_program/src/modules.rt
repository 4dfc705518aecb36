use crate::answers::{Commands, Faults, Modules, RUN};
use std::test::Fail;
use test_tables::first_wrong;

/// A message, an operator on messages, and an intruder that applies it.
pub(crate) const HELLO: &str = "protocol HELLO;
op a : -> Msg; op f : Msg -> Msg;
strand one : + f(a);
intruder two vars X:Msg : - X, + f(X);
aim got : known f(f(a));
";

// Words that are a command, and words that are none.
const COMMAND_ROWS: &str =
    " => 2 0 >usage: npa check FILE | search FILE AIM [--budget N] [--workers N] | verify FILE AIM CERT | replay FILE AIM RUN | gen N [--workers N]~
replay m got => 2 0 >usage: npa check FILE | search FILE AIM [--budget N] [--workers N] | verify FILE AIM CERT | replay FILE AIM RUN | gen N [--workers N]~
replay m got r r => 2 0 >usage: npa check FILE | search FILE AIM [--budget N] [--workers N] | verify FILE AIM CERT | replay FILE AIM RUN | gen N [--workers N]~
Replay m got r => 2 0 >usage: npa check FILE | search FILE AIM [--budget N] [--workers N] | verify FILE AIM CERT | replay FILE AIM RUN | gen N [--workers N]~
replays m got r => 2 0 >usage: npa check FILE | search FILE AIM [--budget N] [--workers N] | verify FILE AIM CERT | replay FILE AIM RUN | gen N [--workers N]~
check m => 0 1 >ok HELLO strands 2 variants 2~
check x => 4 1 >
check r => 3 1 >refused syntax 1:1~
check m got => 2 0 >usage: npa check FILE | search FILE AIM [--budget N] [--workers N] | verify FILE AIM CERT | replay FILE AIM RUN | gen N [--workers N]~
search m got r => 2 0 >usage: npa check FILE | search FILE AIM [--budget N] [--workers N] | verify FILE AIM CERT | replay FILE AIM RUN | gen N [--workers N]~
replay m got r => 0 2 >reaches~
replay m nope r => 3 1 >refused no aim nope~
replay m nope x => 3 1 >refused no aim nope~
replay m  r => 3 1 >refused no aim ~
replay m go r => 3 1 >refused no aim go~
replay m HELLO r => 3 1 >refused no aim HELLO~
replay m --budget r => 3 1 >refused no aim --budget~
replay r got x => 3 1 >refused syntax 1:1~
replay m got m => 9 2 >invalid syntax 1:1~
replay x got r => 4 1 >
replay m got x => 4 2 >";

#[test]
fn words_of_the_command_line(rt: HostRuntime) -> Result<(), Fail> {
    let answers = Commands { module: HELLO };
    assert_eq!(rt; first_wrong(rt.alloc(), &answers, COMMAND_ROWS)?, None);
    Ok(())
}

// The numbers of the read and of the write that fail.
const FAULT_ROWS: &str = "1 0 => 4 1 >
2 0 => 4 2 >
3 2 => 0 2 >reaches~
0 1 => 5 2 >";

#[test]
fn reads_and_writes_that_fail(rt: HostRuntime) -> Result<(), Fail> {
    let answers = Faults { module: HELLO };
    assert_eq!(rt; first_wrong(rt.alloc(), &answers, FAULT_ROWS)?, None);
    Ok(())
}

// Items behind those of HELLO.
const ITEM_ROWS: &str = " => 0 2 >reaches~
// \u{e9}~ => 0 2 >reaches~
aim second : known a; => 0 2 >reaches~
aim second : known a; aim third : known f(a); => 0 2 >reaches~
sort S; op c : -> S; => 0 2 >reaches~
op p : Msg Msg -> Msg comm; => 0 2 >reaches~
eq vars X:Msg : f(f(f(X))) = X; => 0 2 >reaches~
eq vars X:Msg : f(X) = X; => 3 1 >refused aim got f(f(a)) 1~
\u{e9} => 3 1 >refused syntax 6:1~
op comm => 3 1 >refused syntax 6:4~
aim a => 3 1 >refused syntax 6:6~
eq : f(a) = a; op => 3 1 >refused syntax 6:18~
grammar g : f(a); => 3 1 >refused later 6:1~
aim got : known a; => 3 1 >refused name got 6:5~
op g : -> S; => 3 1 >refused name S 6:11~
op g : -> Fresh; => 3 1 >refused sort Fresh 6:11~
aim b : known f(f); => 3 1 >refused sort f 6:17~
sort S; => 3 1 >refused inhabited S~
eq : f(a) = a; => 3 1 >refused equation 1~
{1048441: } => 0 2 >reaches~
{1048442: } => 7 1 >limit bytes 1048576~";

#[test]
fn items_behind_a_module(rt: HostRuntime) -> Result<(), Fail> {
    let answers = Modules {
        head: HELLO,
        run: RUN,
    };
    assert_eq!(rt; first_wrong(rt.alloc(), &answers, ITEM_ROWS)?, None);
    Ok(())
}

// Whole modules.
const MODULE_ROWS: &str = " => 3 1 >refused syntax 1:1~
\u{0} => 3 1 >refused syntax 1:1~
protocol P; sort S; op a : -> Msg; => 3 1 >refused inhabited S~
protocol P; op a : -> Q; => 3 1 >refused name Q 1:23~
protocol P; op a : -> Fresh; => 3 1 >refused sort Fresh 1:23~
protocol P; op a : -> Msg; op f : Msg -> Msg; eq vars X:Msg : f(X) = a; => 3 1 >refused equation 1~
protocol P; => 3 1 >refused inhabited Msg~
protocol P; op a : -> Msg; => 3 1 >refused no aim got~
protocol P; op w : Q Q Q Q Q Q Q Q Q Q Q Q Q Q Q Q Q -> Q; => 7 1 >limit args 17~
protocol P; sort S; op a : -> Msg; eq : a = a; => 3 1 >refused inhabited S~
protocol P; op a : -> Msg; eq : a = a; => 3 1 >refused equation 1~
protocol P; op a : -> Msg; aim got : known a; eq : a = a; => 3 1 >refused equation 1~
protocol P; {256:sort S_%; op c_% : -> S_%;~}aim got : known c_0; => 9 2 >misses part 1~
protocol P; {257:sort S_%; op c_% : -> S_%;~}aim got : known c_0; => 7 1 >limit sorts 257~";

#[test]
fn whole_modules(rt: HostRuntime) -> Result<(), Fail> {
    let answers = Modules {
        head: "",
        run: "do",
    };
    assert_eq!(rt; first_wrong(rt.alloc(), &answers, MODULE_ROWS)?, None);
    Ok(())
}

// The sort C has a least ground term of 73 symbols.
const GREAT: &str = "protocol P; sort A; sort B; sort C;
op a : -> A;
op b : A A A A A A A A -> B;
op c : B B B B B B B B -> C;
";

// Items behind GREAT.
const GREAT_ROWS: &str = " => 7 1 >limit ground C 73~
sort D; => 3 1 >refused inhabited D~
sort D; op d : C -> D; => 7 1 >limit ground C 73~
eq : a = a; => 7 1 >limit ground C 73~
op d : -> C; => 3 1 >refused no aim got~";

#[test]
fn least_ground_terms(rt: HostRuntime) -> Result<(), Fail> {
    let answers = Modules {
        head: GREAT,
        run: RUN,
    };
    assert_eq!(rt; first_wrong(rt.alloc(), &answers, GREAT_ROWS)?, None);
    Ok(())
}

// Encryption and decryption by one key cancel.
const HEAD: &str = "protocol P;
sort Name; sort Key;
op a : -> Name; op k : -> Key;
op e : Key Msg -> Msg; op d : Key Msg -> Msg;
eq vars K:Key M:Msg : d(K,e(K,M)) = M;
";

// Equations behind one that cancels. No module has the aim, so that one whose equations all cancel is
// refused for it.
const SHAPE_ROWS: &str = " => 3 1 >refused no aim got~
eq vars X:Msg : e(k,X) = X; => 3 1 >refused confluence d(k,e(k,?1:Msg)) ?1:Msg d(k,?1:Msg)~
eq vars X:Msg : e(k,X) = X; eq : a = k; => 3 1 >refused equation 3~
eq vars X:Msg : e(k,X) = a; => 3 1 >refused equation 2~
eq vars X:Msg : X = X; => 3 1 >refused equation 2~
eq vars X:Msg Y:Msg : e(k,X) = Y; => 3 1 >refused equation 2~
eq vars N:Name X:Msg : e(k,X) = d(k,e(k,X)); => 3 1 >refused equation 2~
op h : Msg -> Name; eq vars X:Msg : h(X) = X; => 3 1 >refused equation 2~
op h : Msg Name -> Name; eq vars X:Msg N:Name : h(X,N) = N; => 3 1 >refused no aim got~
eq vars X:Msg : d(k,X) = X; eq : a = k; => 3 1 >refused equation 3~
eq : a = k; eq : k = a; => 3 1 >refused equation 2~
sort S; eq : a = k; => 3 1 >refused inhabited S~
eq : a = k; sort S; => 3 1 >refused inhabited S~
eq : a = k; aim go : known a; => 3 1 >refused equation 2~";

#[test]
fn equations_that_do_not_cancel(rt: HostRuntime) -> Result<(), Fail> {
    let answers = Modules {
        head: HEAD,
        run: RUN,
    };
    assert_eq!(rt; first_wrong(rt.alloc(), &answers, SHAPE_ROWS)?, None);
    Ok(())
}
