use crate::verdicts::Verdicts;
use std::test::Fail;
use test_tables::first_wrong;

// Theories whose equations don't cancel, and others. What is printed has the variables' numbers in
// the check: those of the second equation stand behind those of the first.
const ROWS: &str = "op c : -> Msg; => ok
op c : -> Msg; op f : Msg -> Msg; eq vars X:Msg : f(X) = c; => shape 0
op c : -> Msg; op f : Msg -> Msg; eq vars X:Msg : X = X; => shape 0
op c : -> Msg; op f : Msg -> Msg; eq vars X:Msg Y:Msg : f(X) = Y; => shape 0
op c : -> Msg; op f : Msg -> Msg; eq vars X:Msg : f(X) = f(X); => shape 0
op c : -> Msg; op f : Msg -> Msg; eq vars X:Msg : f(X) = X; eq vars X:Msg : f(X) = c; => shape 1
sort A; op a : -> A; op f : Msg -> A; eq vars X:Msg : f(X) = X; => sort up 0
sort A; op a : -> A; op f : Msg -> A; eq vars X:Msg : f(X) = X; eq vars X:Msg : f(X) = a; => sort up 0
sort A; op a : -> A; op f : Msg -> A; eq vars X:Msg : f(X) = a; eq vars X:Msg : f(X) = X; => shape 0
sort A; op a : -> A; op f : A -> A; eq vars X:A : f(X) = X; => ok
op c : -> Msg; op f : Msg -> Msg; op g : Msg -> Msg; op h : Msg -> Msg; eq vars X:Msg : f(g(X)) = X; eq vars X:Msg : g(h(X)) = X; => pair f(g(h(?1:Msg))) h(?1:Msg) f(?1:Msg)
op c : -> Msg; op f : Msg -> Msg; op g : Msg -> Msg; op h : Msg -> Msg; eq vars X:Msg : g(h(X)) = X; eq vars X:Msg : f(g(X)) = X; => pair f(g(h(?1:Msg))) h(?1:Msg) f(?1:Msg)
op c : -> Msg; op f : Msg -> Msg; op g : Msg -> Msg; eq vars X:Msg : f(g(X)) = X; eq vars X:Msg : g(f(X)) = X; => ok
op c : -> Msg; op f : Msg -> Msg; op g : Msg -> Msg; eq vars X:Msg : f(g(f(X))) = X; => pair f(g(f(g(f(?1:Msg))))) g(f(?1:Msg)) f(g(?1:Msg))
op c : -> Msg; op f : Msg -> Msg; eq vars X:Msg : f(f(X)) = X; => ok
op c : -> Msg; op p : Msg Msg -> Msg; eq vars X:Msg Y:Msg : p(X,Y) = X; => ok
op c : -> Msg; op p : Msg Msg -> Msg comm; eq vars X:Msg Y:Msg : p(X,Y) = X; => pair p(?0:Msg,?1:Msg) ?0:Msg ?1:Msg
op c : -> Msg; op p : Msg Msg -> Msg comm; eq vars X:Msg : p(X,X) = X; => ok
op c : -> Msg; op p : Msg Msg -> Msg; eq vars X:Msg Y:Msg : p(X,Y) = X; eq vars X:Msg Y:Msg : p(X,Y) = Y; => pair p(?0:Msg,?1:Msg) ?0:Msg ?1:Msg
op c : -> Msg; op k : Msg -> Msg; op f : Msg -> Msg; op m : Msg Msg -> Msg comm; eq vars X:Msg : f(m(c,k(X))) = X; eq vars Z:Msg : m(Z,c) = Z; => pair f(m(c,k(?0:Msg))) ?0:Msg f(k(?0:Msg))
sort Name; sort Key; op a : -> Name; op k : -> Key; op e : Key Msg -> Msg; op d : Key Msg -> Msg; eq vars K:Key M:Msg : d(K,e(K,M)) = M; => ok
sort Name; op a : -> Name; op pk : Name Msg -> Msg; op sk : Name Msg -> Msg; eq vars K:Name M:Msg : pk(K,sk(K,M)) = M; eq vars K:Name M:Msg : sk(K,pk(K,M)) = M; => ok
sort A; sort B; op a : -> A; op b : -> B; op f : A -> Msg; op g : B -> B; op h : Msg -> Msg; eq vars X:B : h(g(X)) = X; eq vars X:Msg : h(h(X)) = X; => pair h(h(g(?1:B))) g(?1:B) h(?1:B)";

#[test]
fn verdicts(rt: HostRuntime) -> Result<(), Fail> {
    let verdicts = Verdicts {};
    assert_eq!(rt; first_wrong(rt.alloc(), &verdicts, ROWS)?, None);
    Ok(())
}

// Overlaps past a limit, and just within it.
const LIMIT_ROWS: &str =
    "op a : -> Msg; op p : Msg Msg -> Msg; op m : Msg Msg -> Msg comm; eq vars X:Msg : {12:p(m(a,a),}X{12:)} = X; => ok
op a : -> Msg; op p : Msg Msg -> Msg; op m : Msg Msg -> Msg comm; eq vars X:Msg : {13:p(m(a,a),}X{13:)} = X; => unifiers 0 0
op a : -> Msg; op f : Msg -> Msg; eq vars X:Msg : {40:f(}X{40:)} = X; => ok
op a : -> Msg; op f : Msg -> Msg; eq vars X:Msg : {1023:f(}X{1023:)} = X; => symbols 1025";

#[test]
fn limits(rt: HostRuntime) -> Result<(), Fail> {
    let verdicts = Verdicts {};
    assert_eq!(rt; first_wrong(rt.alloc(), &verdicts, LIMIT_ROWS)?, None);
    Ok(())
}
