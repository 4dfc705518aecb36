use crate::terms::MODULE;
use std::test::Fail;
use test_algebra::{answer_in, first_wrong_in};

// All matchers of the first members of pairs onto the second, and the first matcher.
const ROWS: &str = "matches plus(X,Y) plus(a,b) => ?0:Msg=a;?1:Msg=b;|?0:Msg=b;?1:Msg=a;|
find plus(X,Y) plus(a,b) => ?0:Msg=a;?1:Msg=b;
matches plus(X,X) plus(a,b) => 
find plus(X,X) plus(a,b) => none
matches plus(X,X) plus(a,a) => ?0:Msg=a;|
matches plus(p(X,Y),plus(X,a)) plus(plus(b,a),p(b,a)) => ?0:Msg=b;?1:Msg=a;|
find X Y => ?0:Msg=?1:Msg;
find a Y => none
find N a => ?2:Name=a;
find X a => ?0:Msg=a;
find N f(a) => none
find X F => none
find F F => ?3:Fresh=?3:Fresh;
matches X a X b => 
matches X a Y b => ?0:Msg=a;?1:Msg=b;|
matches X plus(a,b) X plus(b,a) => ?0:Msg=plus(a,b);|
matches f(X) p(a,b) => 
matches p(X,Y) p(a,b) => ?0:Msg=a;?1:Msg=b;|";

#[test]
fn matchers(rt: HostRuntime) -> Result<(), Fail> {
    let wrong = first_wrong_in(rt.alloc(), MODULE, ROWS)?;
    assert!(&rt; wrong.is_none());
    Ok(())
}

// The matchers behind the first; whether pairs match, and whether once at most; bindings that go on.
const BORROWED_ROWS: &str = "left plus(X,Y) plus(a,b) => yes ?0:Msg=b;?1:Msg=a; none
left plus(X,X) plus(a,b) => no none
left p(X,Y) p(a,b) => yes none
test plus(X,b) plus(b,a) => yes no
test p(X,b) p(b,a) => no yes
test X Y => yes yes
test f(X) p(a,b) => no yes
test N X => no yes
extend X a by Y b => ?0:Msg=a;?1:Msg=b;
extend X a by X a => ?0:Msg=a;
extend X a by X b => none
extend X a by plus(X,Y) plus(b,a) => ?0:Msg=a;?1:Msg=b;
extend X f(a) by plus(X,Y) plus(b,a) => none";

#[test]
fn borrowed_pairs(rt: HostRuntime) -> Result<(), Fail> {
    let wrong = first_wrong_in(rt.alloc(), MODULE, BORROWED_ROWS)?;
    assert!(&rt; wrong.is_none());
    Ok(())
}

// Thirteen pairs of variables, and thirty-one.
const THIRTEEN: &str =
    "protocol W; op a : -> Msg; op b : -> Msg; op plus : Msg Msg -> Msg comm; strand s vars{13: U%:Msg V%:Msg} : + a;";

const THIRTY_ONE: &str =
    "protocol W; op a : -> Msg; op b : -> Msg; op plus : Msg Msg -> Msg comm; strand s vars{31: U%:Msg V%:Msg} : + a;";

// Thirteen pairs have 8,192 matchers.
#[test]
fn too_many_matchers(rt: HostRuntime) -> Result<(), Fail> {
    let many = answer_in(rt.alloc(), THIRTEEN, "matches{13: plus(U%,V%) plus(a,b)}")?;
    assert!(&rt; many.as_slice() == b"too many".as_slice());
    Ok(())
}

#[test]
fn the_first_of_many_matchers(rt: HostRuntime) -> Result<(), Fail> {
    let first = answer_in(rt.alloc(), THIRTEEN, "find{13: plus(U%,V%) plus(a,b)}")?;
    assert!(&rt; first.as_slice().ends_with(b";"));
    Ok(())
}

// Where both arguments are equal, no branch is crossed.
#[test]
fn equal_arguments(rt: HostRuntime) -> Result<(), Fail> {
    let found = answer_in(rt.alloc(), THIRTY_ONE, "matches{31: plus(U%,V%) plus(a,a)}")?;
    assert!(&rt; found.as_slice().ends_with(b";|"));
    Ok(())
}

#[test]
fn equal_arguments_without_a_matcher(rt: HostRuntime) -> Result<(), Fail> {
    let none = answer_in(
        rt.alloc(),
        THIRTY_ONE,
        "find{31: plus(U%,V%) plus(a,a)} a b",
    )?;
    assert!(&rt; none.as_slice() == b"none".as_slice());
    Ok(())
}
