//! The problems, over free operators, two constants and a commutative operator.

use npa_list::List;
use npa_sorts::MSG;
use npa_term::{NoMemory, Op, Term, TermPairs, Var};
use std::alloc::Global;

// The operators by their numbers: two constants, one with an argument, and a commutative one.
const FIRST: u16 = 0;

const SECOND: u16 = 1;

const WRAP: u16 = 2;

const SUM: u16 = 3;

// The operator of a number.
fn operator(num: u16) -> Op {
    Op {
        num,
        result: MSG,
        com: num == SUM,
    }
}

// The pair of these terms.
fn pair(alloc: Global, left: Term, right: Term) -> Result<TermPairs, NoMemory> {
    let mut pairs = List::new(alloc);
    pairs.push((left, right))?;
    Ok(pairs)
}

// An operator without arguments.
fn constant(alloc: Global, num: u16) -> Term {
    Term::App(operator(num), List::new(alloc))
}

// A free operator round a term.
fn wrapped(alloc: Global, inner: Term) -> Result<Term, NoMemory> {
    let mut arguments = List::new(alloc);
    arguments.push(inner)?;
    Ok(Term::App(operator(WRAP), arguments))
}

// The commutative operator over two terms.
fn sum(alloc: Global, first: Term, second: Term) -> Result<Term, NoMemory> {
    let mut arguments = List::new(alloc);
    arguments.push(first)?;
    arguments.push(second)?;
    Ok(Term::App(operator(SUM), arguments))
}

// A variable of sort `Msg`.
fn variable(num: u32) -> Term {
    Term::Var(Var { num, sort: MSG })
}

/// Two terms with different operators.
pub(crate) fn heads(alloc: Global) -> Result<TermPairs, NoMemory> {
    pair(alloc, constant(alloc, FIRST), constant(alloc, SECOND))
}

/// Two terms whose arguments have different operators.
pub(crate) fn arguments(alloc: Global) -> Result<TermPairs, NoMemory> {
    let left = wrapped(alloc, constant(alloc, FIRST))?;
    let right = wrapped(alloc, constant(alloc, SECOND))?;
    pair(alloc, left, right)
}

/// Two terms with one commutative operator, which unify in two ways.
pub(crate) fn sums(alloc: Global) -> Result<TermPairs, NoMemory> {
    let left = sum(alloc, variable(0), variable(1))?;
    let right = sum(alloc, constant(alloc, FIRST), constant(alloc, SECOND))?;
    pair(alloc, left, right)
}

/// Two terms of so many symbols: a variable and a constant below equal operators.
pub(crate) fn symbols(alloc: Global, count: u32) -> Result<TermPairs, NoMemory> {
    let mut left = variable(0);
    let mut right = constant(alloc, FIRST);
    for _ in 1..count {
        left = wrapped(alloc, left)?;
        right = wrapped(alloc, right)?;
    }
    pair(alloc, left, right)
}
