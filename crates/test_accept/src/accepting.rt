use crate::answers::Accepting;
use npa_accept::accepted_laws;
use std::test::Fail;
use test_tables::first_wrong;

// Encryption and decryption cancel.
#[test]
fn finds_the_first_part(rt: HostRuntime) -> Result<(), Fail> {
    let wrong = first_wrong(
        rt.alloc(),
        &Accepting {},
        "protocol P; op a : -> Msg; aim x : known a; => accepted
protocol P; op a : -> Msg; op b : -> Msg; op d : Msg Msg -> Msg; op e : Msg Msg -> Msg; eq vars K:Msg M:Msg : d(K,e(K,M)) = M; aim x : known e(a,b); => accepted
protocol P; op a : -> Msg; op b : -> Msg; op d : Msg Msg -> Msg; op e : Msg Msg -> Msg; eq vars K:Msg M:Msg : d(K,e(K,M)) = M; aim x vars X:Msg : known X; => accepted
protocol P; op a : -> Msg; op b : -> Msg; op d : Msg Msg -> Msg; op e : Msg Msg -> Msg; eq vars K:Msg M:Msg : d(K,e(K,M)) = M; aim x vars Y:Msg : known d(a,Y); => d(a,?0:Msg) 0
protocol P; op a : -> Msg; op b : -> Msg; op d : Msg Msg -> Msg; op e : Msg Msg -> Msg; eq vars K:Msg M:Msg : d(K,e(K,M)) = M; aim x : known d(a,e(b,a)); => accepted
protocol P; op a : -> Msg; op b : -> Msg; op d : Msg Msg -> Msg; op e : Msg Msg -> Msg; eq vars K:Msg M:Msg : d(K,e(K,M)) = M; aim x : known e(a,e(b,d(a,e(a,b)))); => d(a,e(a,b)) 0
protocol P; op a : -> Msg; op b : -> Msg; op d : Msg Msg -> Msg; op e : Msg Msg -> Msg; eq vars K:Msg M:Msg : d(K,e(K,M)) = M; aim x vars X:Msg Y:Msg : known e(d(a,Y),d(b,X)); => d(a,?1:Msg) 0
protocol P; op a : -> Msg; op b : -> Msg; op d : Msg Msg -> Msg; op e : Msg Msg -> Msg; eq vars K:Msg M:Msg : d(K,e(K,M)) = M; aim x vars X:Msg Y:Msg : known d(X,e(X,d(a,Y))); => d(?0:Msg,e(?0:Msg,d(a,?1:Msg))) 0
protocol P; op a : -> Msg; op b : -> Msg; op d : Msg Msg -> Msg; op e : Msg Msg -> Msg; eq vars K:Msg M:Msg : d(K,e(K,M)) = M; aim x vars X:Msg Y:Msg : known d(X,d(a,Y)); => d(a,?1:Msg) 0",
    )?;
    assert!(&rt; wrong.is_none());
    Ok(())
}

// A variable of the term isn't one of the equation, whatever their numbers.
#[test]
fn keeps_variables_apart(rt: HostRuntime) -> Result<(), Fail> {
    let wrong = first_wrong(
        rt.alloc(),
        &Accepting {},
        "protocol P; op a : -> Msg; op d : Msg Msg -> Msg; op e : Msg Msg -> Msg; eq vars K:Msg M:Msg : d(K,e(K,M)) = M; aim x vars Y:Msg : known d(e(Y,a),e(e(Y,a),a)); => d(e(?0:Msg,a),e(e(?0:Msg,a),a)) 0
protocol P; op f : Msg Msg -> Msg; op g : Msg -> Msg; eq vars X:Msg : f(X,X) = X; aim x vars X:Msg : known f(X,g(X)); => accepted
protocol P; op f : Msg Msg -> Msg; op g : Msg -> Msg; eq vars X:Msg : f(X,X) = X; aim x vars X:Msg Y:Msg : known f(X,g(Y)); => f(?0:Msg,g(?1:Msg)) 0",
    )?;
    assert!(&rt; wrong.is_none());
    Ok(())
}

#[test]
fn finds_the_first_equation(rt: HostRuntime) -> Result<(), Fail> {
    let wrong = first_wrong(
        rt.alloc(),
        &Accepting {},
        "protocol P; op a : -> Msg; op b : -> Msg; op d : Msg Msg -> Msg; op e : Msg Msg -> Msg; eq vars K:Msg M:Msg : d(K,e(K,M)) = M; eq vars K:Msg M:Msg : e(K,d(K,M)) = M; aim x : known e(a,d(a,b)); => e(a,d(a,b)) 1
protocol P; op a : -> Msg; op b : -> Msg; op d : Msg Msg -> Msg; op e : Msg Msg -> Msg; eq vars K:Msg M:Msg : d(K,e(K,M)) = M; eq vars K:Msg M:Msg : d(K,e(K,M)) = M; aim x : known d(a,e(a,b)); => d(a,e(a,b)) 0",
    )?;
    assert!(&rt; wrong.is_none());
    Ok(())
}

// Commutative operators, and the part as it is written.
#[test]
fn turns_arguments(rt: HostRuntime) -> Result<(), Fail> {
    let wrong = first_wrong(
        rt.alloc(),
        &Accepting {},
        "protocol P; op a : -> Msg; op z : -> Msg; op s : Msg Msg -> Msg comm; eq vars X:Msg : s(X,z) = X; aim x : known s(z,a); => s(z,a) 0
protocol P; op a : -> Msg; op z : -> Msg; op s : Msg Msg -> Msg comm; eq vars X:Msg : s(X,z) = X; aim x : known s(a,z); => s(a,z) 0
protocol P; op a : -> Msg; op z : -> Msg; op s : Msg Msg -> Msg comm; eq vars X:Msg : s(X,z) = X; aim x : known s(a,a); => accepted",
    )?;
    assert!(&rt; wrong.is_none());
    Ok(())
}

// Sorts of which one is below the other, and sorts with none below both.
#[test]
fn respects_sorts(rt: HostRuntime) -> Result<(), Fail> {
    let wrong = first_wrong(
        rt.alloc(),
        &Accepting {},
        "protocol P; sort A; sort B; op m : -> Msg; op c : -> A; op g : Msg -> Msg; eq vars X:A : g(X) = X; aim x : known g(m); => accepted
protocol P; sort A; sort B; op m : -> Msg; op c : -> A; op g : Msg -> Msg; eq vars X:A : g(X) = X; aim x : known g(c); => g(c) 0
protocol P; sort A; sort B; op m : -> Msg; op c : -> A; op g : Msg -> Msg; eq vars X:A : g(X) = X; aim x vars Y:Msg : known g(Y); => g(?0:Msg) 0
protocol P; sort A; sort B; op m : -> Msg; op c : -> A; op g : Msg -> Msg; eq vars X:A : g(X) = X; aim x vars Y:B : known g(Y); => accepted
protocol P; sort A; sort B; sort C; subsort C < A; subsort C < B; op c : -> A; op g : Msg -> Msg; eq vars X:A : g(X) = X; aim x vars Y:B : known g(Y); => g(?0:B) 0",
    )?;
    assert!(&rt; wrong.is_none());
    Ok(())
}

#[test]
fn laws_do_nothing() {
    accepted_laws();
}
