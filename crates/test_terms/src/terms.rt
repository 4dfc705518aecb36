use npa_term::{Term, Var, rename};
use std::alloc::Global;
use std::test::Fail;
use test_algebra::{answer_in, first_wrong_in};

/// Names, nonces, a free and a commutative pair, and the variables X, Y, N and F.
pub(crate) const MODULE: &str = "protocol T; sort Name; sort Nonce;
op a : -> Name; op b : -> Name; op n : Name Fresh -> Nonce;
op f : Msg -> Msg; op p : Msg Msg -> Msg; op plus : Msg Msg -> Msg comm;
strand s fresh F vars X:Msg Y:Msg N:Name : + X;";

// Texts, and their terms or the first word at fault with its place.
const TEXTS: &str = "read a => a
read f(f(a)) => f(f(a))
read X => ?0:Msg
read F => ?3:Fresh
read p(N,n(N,F)) => p(?2:Name,n(?2:Name,?3:Fresh))
read f(q) => name q 1:3
read q(a,a) => name q 1:1
read f(a,a) => sort f 1:1
read f => sort f 1:1
read f(a(q)) => sort a 1:3
read f(~ q(f)) => name q 2:2
read a(q) => sort a 1:1
read f(f(a,a)) => sort f 1:3
read X(q) => sort X 1:1
read n(X,F) => sort n 1:1
read n(a,X) => sort n 1:1
read n(q,X) => sort n 1:1
read n(q,F) => name q 1:3
read n(n(F,F),q) => sort n 1:1
read f(F) => sort f 1:1
sort f(X) => yes Msg
sort N => yes Name
sort n(a,F) => yes Nonce
sort F => yes Fresh
sort_at f(q) => Msg
sort_at n(q) => Nonce
sort_at F => Fresh
sort_at q(a) => none";

#[test]
fn texts_of_terms(rt: HostRuntime) -> Result<(), Fail> {
    let wrong = first_wrong_in(rt.alloc(), MODULE, TEXTS)?;
    assert!(&rt; wrong.is_none());
    Ok(())
}

// Canonical forms behind their numbers of symbols, the order of terms, instances behind their
// numbers of symbols, and compositions.
const TERMS: &str = "canon a => 1 a
canon plus(b,a) => 3 plus(a,b)
canon p(b,a) => 3 p(b,a)
canon f(plus(b,plus(b,a))) => 6 f(plus(b,plus(a,b)))
canon plus(a,X) => 3 plus(?0:Msg,a)
cmp plus(b,a) plus(a,b) => greater no
cmp plus(a,b) plus(b,a) => less no
cmp p(a,b) p(a,b) => equal yes
cmp X X => equal yes
cmp a b => less no
cmp X a => less no
instance X b plus(X,a) => 3 yes plus(a,b)
instance X b p(Y,a) => 3 yes p(?1:Msg,a)
instance X p(a,b) p(X,X) => 7 yes p(p(a,b),p(a,b))
instance X Y Y a X => 1 yes ?1:Msg
compose X Y then Y a => ?0:Msg=a;?1:Msg=a;
compose X plus(b,Y) then Y a => ?0:Msg=plus(a,b);?1:Msg=a;
compose X a then X b => ?0:Msg=a;";

#[test]
fn forms_and_instances(rt: HostRuntime) -> Result<(), Fail> {
    let wrong = first_wrong_in(rt.alloc(), MODULE, TERMS)?;
    assert!(&rt; wrong.is_none());
    Ok(())
}

// The text of X doubled by pairs, so many times.
fn doubled(alloc: Global, times: u32) -> Result<String, Fail> {
    let mut text = String::from_str(alloc, "X")?;
    for _ in 0..times {
        text = format!(in alloc; "p({text},{text})")?;
    }
    Ok(text)
}

// An instance may have any size, and one that is applied has at most 1,024 symbols.
#[test]
fn large_instances(rt: HostRuntime) -> Result<(), Fail> {
    let text = doubled(rt.alloc(), 9)?;
    let given = format!(in rt.alloc(); "instance X p(a,b) {text}")?;
    let sizes = answer_in(rt.alloc(), MODULE, given.as_str())?;
    assert!(&rt; sizes.as_slice() == b"2047 2047".as_slice());
    Ok(())
}

#[test]
fn renamed_variables(rt: HostRuntime) -> Result<(), Fail> {
    let renamed = rename(rt.alloc(), &Term::Var(Var { num: 1, sort: 0 }), 4)?;
    assert!(&rt; matches!(renamed, Term::Var(Var { num: 5, sort: 0 })));
    Ok(())
}

// The least terms of sorts, behind a term of each, and whether they carry no fresh names.
const SORTS: &str = "least n(a,F) => n(a,#0)
least N => a
least F => #0
least X => a
nameless N => yes
nameless n(a,F) => no
nameless X => no
nameless F => no";

#[test]
fn least_terms(rt: HostRuntime) -> Result<(), Fail> {
    let wrong = first_wrong_in(rt.alloc(), MODULE, SORTS)?;
    assert!(&rt; wrong.is_none());
    Ok(())
}

// `Large` has a least term of 111 symbols, and `Empty` none.
const GROUNDLESS: &str = "protocol G; sort Name; sort Large; sort Empty;
op g : Fresh Fresh Fresh Fresh Fresh Fresh Fresh Fresh Fresh Fresh -> Name;
op h : Name Name Name Name Name Name Name Name Name Name -> Large;
strand s vars L:Large E:Empty : + L, + E;";

#[test]
fn sorts_without_small_terms(rt: HostRuntime) -> Result<(), Fail> {
    let rows = "least L => 111\nleast E => none\nground _ => inhabited Empty";
    let wrong = first_wrong_in(rt.alloc(), GROUNDLESS, rows)?;
    assert!(&rt; wrong.is_none());
    Ok(())
}
