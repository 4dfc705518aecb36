use std::alloc::Global;
use std::test::Fail;
use test_algebra::first_wrong_in;

// Decryption, encryption and a commutative pair.
const HEAD: &str = "protocol R; op k : -> Msg; op m : -> Msg;
op d : Msg Msg -> Msg; op e : Msg Msg -> Msg; op p : Msg Msg -> Msg comm;
strand s vars X:Msg : + X; ";

// The first row of a table that is wrong where these equations stand behind the declarations.
fn wrong<'a>(alloc: Global, equations: &str, table: &'a str) -> Result<Option<&'a str>, Fail> {
    let module = format!(in alloc; "{HEAD}{equations}")?;
    first_wrong_in(alloc, module.as_str(), table)
}

const DECRYPT: &str = "eq vars X:Msg Y:Msg : d(X,e(X,Y)) = Y;";

// Steps take the first innermost redex, and the arguments of a commutative operator change places
// behind them.
const DECRYPT_ROWS: &str = "normal d(k,e(k,d(k,e(k,m)))) => m
normal p(m,k) => p(k,m)
normal d(X,e(X,d(k,X))) => d(k,?0:Msg)
normal d(k,e(m,m)) => d(k,e(m,m))
reduce d(k,e(k,m)) => m
reduce m => none
reduce e(d(k,e(k,m)),d(k,e(k,k))) => e(m,d(k,e(k,k)))
reduce p(m,d(k,e(k,k))) => p(k,m)
reduce d(k,e(k,d(m,e(m,k)))) => d(k,e(k,k))
cancels _ => yes yes";

#[test]
fn decryption_cancels(rt: HostRuntime) -> Result<(), Fail> {
    assert_eq!(rt; wrong(rt.alloc(), DECRYPT, DECRYPT_ROWS)?, None);
    Ok(())
}

// The left side of the equation is commutative.
#[test]
fn left_sides_match_crosswise(rt: HostRuntime) -> Result<(), Fail> {
    let rows =
        "normal p(e(k,m),k) => m\nnormal p(k,e(k,m)) => m\nnormal p(k,e(m,k)) => p(k,e(m,k))";
    assert_eq!(rt;
        wrong(rt.alloc(), "eq vars X:Msg Y:Msg : p(X,e(X,Y)) = Y;", rows)?,
        None
    );
    Ok(())
}

#[test]
fn the_first_equation_is_taken(rt: HostRuntime) -> Result<(), Fail> {
    let both = "eq vars X:Msg Y:Msg : d(X,e(X,Y)) = Y; eq vars X:Msg Y:Msg : e(X,d(X,Y)) = Y;";
    assert_eq!(rt; wrong(rt.alloc(), both, "reduce e(k,d(k,m)) => m")?, None);
    let other = "eq vars X:Msg Y:Msg : e(X,Y) = X; eq vars X:Msg Y:Msg : e(X,Y) = Y;";
    assert_eq!(rt; wrong(rt.alloc(), other, "reduce e(k,m) => k")?, None);
    Ok(())
}

#[test]
fn equations_that_do_not_cancel(rt: HostRuntime) -> Result<(), Fail> {
    for equation in [
        "eq vars X:Msg Y:Msg : e(X,X) = Y;",
        "eq vars X:Msg : X = X;",
        "eq vars X:Msg : e(k,X) = k;",
    ] {
        assert_eq!(rt;
            wrong(rt.alloc(), equation, "cancels _ => no no")?,
            None,
            "at {equation}"
        );
    }
    Ok(())
}
