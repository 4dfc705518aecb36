ghost use Rattle.std.specs.Prelude.{◌≡◌, IfOk};
ghost use Rattle.npa_term.specs.Parts.{least_sort};

use crate::error::NoMemory;
use npa_list::List;
use std::alloc::Global;

/// An operator as it stands in a term: its number in the signature, the number of its result
/// sort, and whether it is commutative.
#[derive(Clone, Copy, Debug, PartialEq, Eq, Hash)]
pub struct Op {
    pub num: u16,
    pub result: u16,
    pub com: bool,
}

/// A variable: its number and the number of its sort. Two variables with one number and
/// different sorts are different.
#[derive(Clone, Copy, Debug, PartialEq, Eq, Hash)]
pub struct Var {
    pub num: u32,
    pub sort: u16,
}

/// A term: a variable, the fresh name of a number, or an operator applied to its arguments.
#[derive(Debug, Drop)]
pub enum Term {
    Var(Var),
    Name(u32),
    App(Op, Terms),
}

/// A list of terms.
pub type Terms = List<Term>;

/// Two terms, as those that a unifier or a matcher is to make equal.
pub type TermPair = (Term, Term);

/// A list of pairs of terms.
pub type TermPairs = List<TermPair>;

// The number of the sort of fresh names.
const FRESH: u16 = 1;

/// The least sort of a term: a variable's own, `Fresh` for a fresh name, and the result sort of an
/// operator.
pub fn sort_of(t: &Term) -> u16
    ensures { result ≡ least_sort t.now }
{
    match t {
        Term::Var(v) => v.sort,
        Term::Name(_) => FRESH,
        Term::App(op, _) => op.result,
    }
}

/// A copy of a term.
pub fn copy(alloc: Global, t: &Term) -> Result<Term, NoMemory>
    ensures { IfOk result (λ u. u ≡ t.now) }
{
    match t {
        Term::Var(v) => Ok(Term::Var(*v)),
        Term::Name(n) => Ok(Term::Name(*n)),
        Term::App(op, args) => {
            let mut copies = Vec::with_capacity(alloc, args.len())?;
            for arg in args.as_slice() {
                copies.push(copy(alloc, arg)?)?;
            }
            Ok(Term::App(*op, List::from_vec(copies)))
        }
    }
}

/// A copy of a list of terms, in the same order.
pub fn copy_all(alloc: Global, ts: &[Term]) -> Result<Terms, NoMemory>
    ensures { IfOk result (λ us. us ≡ ts.now) }
{
    let mut copies = Vec::with_capacity(alloc, ts.len())?;
    for t in ts {
        copies.push(copy(alloc, t)?)?;
    }
    Ok(List::from_vec(copies))
}
