use crate::answers::{Modules, RUN, Runs};
use std::test::Fail;
use test_tables::first_wrong;

// Equations by which a term has two normal forms, behind operators; no aim is looked at.
const HEAD: &str =
    "protocol P; sort Key; op k : -> Key; op a : -> Msg; op b : -> Msg; op f : Msg -> Msg; op g : Msg -> Msg; op h : Msg -> Msg; op p : Msg Msg -> Msg; op x : Msg Msg -> Msg comm; op e : Key Msg -> Msg; op d : Key Msg -> Msg;
";

const PAIR_ROWS: &str =
    "eq vars X:Msg : f(g(X)) = X; eq vars X:Msg : g(h(X)) = X; => 3 1 >refused confluence f(g(h(?1:Msg))) h(?1:Msg) f(?1:Msg)~
eq vars X:Msg : g(h(X)) = X; eq vars X:Msg : f(g(X)) = X; => 3 1 >refused confluence f(g(h(?1:Msg))) h(?1:Msg) f(?1:Msg)~
eq vars X:Msg : f(g(X)) = X; eq vars X:Msg : g(f(X)) = X; => 3 1 >refused no aim got~
eq vars X:Msg Y:Msg : p(X,Y) = X; => 3 1 >refused no aim got~
eq vars X:Msg Y:Msg : p(X,Y) = Y; eq vars X:Msg Y:Msg : p(X,Y) = X; => 3 1 >refused confluence p(?1:Msg,?2:Msg) ?2:Msg ?1:Msg~
eq vars X:Msg Y:Msg : x(X,Y) = X; => 3 1 >refused confluence x(?1:Msg,?2:Msg) ?1:Msg ?2:Msg~
eq vars X:Msg : x(a,X) = X; => 3 1 >refused no aim got~
eq vars X:Msg : x(a,f(X)) = X; => 3 1 >refused no aim got~
eq vars K:Key M:Msg : d(K,e(K,M)) = M; eq vars X:Msg : e(k,f(X)) = X; => 3 1 >refused confluence d(k,e(k,f(?1:Msg))) f(?1:Msg) d(k,?1:Msg)~
eq vars X:Msg : f(g(X)) = X; eq vars X:Msg : g(h(X)) = X; eq : a = b; => 3 1 >refused equation 3~
eq vars X:Msg : f(g(X)) = X; eq vars X:Msg : g(h(X)) = X; sort S; => 3 1 >refused inhabited S~
eq vars X:Msg : f(g(X)) = X; eq vars X:Msg : g(h(X)) = X; aim got : known f(g(a)); => 3 1 >refused confluence f(g(h(?1:Msg))) h(?1:Msg) f(?1:Msg)~";

#[test]
fn terms_with_two_normal_forms(rt: HostRuntime) -> Result<(), Fail> {
    let answers = Modules {
        head: HEAD,
        run: RUN,
    };
    assert_eq!(rt; first_wrong(rt.alloc(), &answers, PAIR_ROWS)?, None);
    Ok(())
}

// Each of thirteen pairs can be crossed, so 8,192 branches succeed; eight make 256. Terms double along a
// chain: up to 2,047 symbols, or up to 1,023 in a term of 3,059.
const LIMIT_ROWS: &str =
    "eq vars X:Msg : {13:p(x(a,a),}X{13:)} = X; => 7 1 >limit check unifiers 4097~
eq vars X:Msg : {8:p(x(a,a),}X{8:)} = X; => 3 1 >refused no aim got~
op q : Msg Msg Msg Msg Msg Msg Msg Msg Msg Msg Msg -> Msg; eq vars{10: A%:Msg} Z:Msg : q({10:p(A%,p(A%,A%)),}Z) = Z; eq vars{11: B%:Msg} Z:Msg : q(p(B0,B1),p(B1,B2),p(B2,B3),p(B3,B4),p(B4,B5),p(B5,B6),p(B6,B7),p(B7,B8),p(B8,B9),p(B9,B10),Z) = Z; => 7 1 >limit check symbols 2047~
op q : Msg Msg Msg Msg Msg Msg Msg Msg Msg Msg -> Msg; eq vars{9: A%:Msg} Z:Msg : q({9:p(A%,p(A%,A%)),}Z) = Z; eq vars{10: B%:Msg} Z:Msg : q(p(B0,B1),p(B1,B2),p(B2,B3),p(B3,B4),p(B4,B5),p(B5,B6),p(B6,B7),p(B7,B8),p(B8,B9),Z) = Z; => 7 1 >limit check symbols 3059~";

#[test]
fn overlaps_past_a_limit(rt: HostRuntime) -> Result<(), Fail> {
    let answers = Modules {
        head: HEAD,
        run: RUN,
    };
    assert_eq!(rt; first_wrong(rt.alloc(), &answers, LIMIT_ROWS)?, None);
    Ok(())
}

// Encryption and decryption cancel, by a key of its own first; and so does one place of a pair.
const CIPHER: &str = "protocol CIPHER; sort Name; sort Key;
op a : -> Name; op b : -> Name; op j : -> Key; op k : -> Key; op f : Msg -> Msg;
op x : Msg Msg -> Msg comm; op e : Key Msg -> Msg; op d : Key Msg -> Msg;
eq vars M:Msg : d(k,e(k,M)) = M;
eq vars K:Key M:Msg : d(K,e(K,M)) = M;
eq vars M:Msg : x(a,M) = M;
strand two vars X:Msg : - X, + X;
";

const AIM_ROWS: &str = "aim got : known d(k,e(k,a)); => 3 1 >refused aim got d(k,e(k,a)) 1~
aim got : known d(j,e(j,a)); => 3 1 >refused aim got d(j,e(j,a)) 2~
aim got : known d(j,e(k,a)); => 9 2 >misses part 1~
aim got vars X:Msg : known d(k,X); => 3 1 >refused aim got d(k,?1:Msg) 1~
aim got vars X:Msg K:Key : known f(d(K,e(K,X))); => 3 1 >refused aim got d(?1:Key,e(?1:Key,?2:Msg)) 1~
aim got vars N:Name : known d(k,N); => 9 2 >misses part 1~
aim got vars X:Msg : known X; => 9 2 >misses part 1~
aim got : known a, known e(k,d(k,e(k,d(k,e(k,b))))); => 3 1 >refused aim got d(k,e(k,d(k,e(k,b)))) 1~
aim got : strand two(X=f(d(j,e(j,b)))) at 0, known d(k,e(k,a)); => 3 1 >refused aim got d(j,e(j,b)) 2~
aim got : known x(b,a); => 3 1 >refused aim got x(b,a) 3~
aim got : known x(b,k); => 9 2 >misses part 1~
aim got : known a; aim bad : known d(k,e(k,a)); => 3 1 >refused aim bad d(k,e(k,a)) 1~
aim bad : known d(k,e(k,a)); aim got : known x(b,a); => 3 1 >refused aim bad d(k,e(k,a)) 1~
aim bad : known d(k,e(k,a)); => 3 1 >refused aim bad d(k,e(k,a)) 1~
aim good : known a; => 3 1 >refused no aim got~";

#[test]
fn aims_that_are_not_accepted(rt: HostRuntime) -> Result<(), Fail> {
    let answers = Modules {
        head: CIPHER,
        run: "do",
    };
    assert_eq!(rt; first_wrong(rt.alloc(), &answers, AIM_ROWS)?, None);
    Ok(())
}

// A protocol without equations of its own, with decryption behind it.
const LEAK: &str = "protocol LEAK;
sort Name; sort Key;
op a : -> Name; op s : Name Fresh -> Msg;
op k : -> Key; op e : Key Msg -> Msg; op d : Key Msg -> Msg;
eq vars K:Key M:Msg : d(K,e(K,M)) = M;
strand leak fresh r vars A:Name : + s(A,r);
aim leaked vars R:Fresh : known s(a,R);
aim bad : known d(k,e(k,a));
";

// The file of the run isn't read, whichever aim is asked for.
const LEAK_ROWS: &str = "bad: use leak A=a r=#0 do 0 => 3 1 >refused aim bad d(k,e(k,a)) 1~
leaked: use leak A=a r=#0 do 0 => 3 1 >refused aim bad d(k,e(k,a)) 1~
nope: use leak A=a r=#0 do 0 => 3 1 >refused aim bad d(k,e(k,a)) 1~";

#[test]
fn an_aim_beside_one_that_is_not_accepted(rt: HostRuntime) -> Result<(), Fail> {
    let answers = Runs { module: LEAK };
    assert_eq!(rt; first_wrong(rt.alloc(), &answers, LEAK_ROWS)?, None);
    Ok(())
}
