ghost use Rattle.std.specs.Prelude.{◌≡◌, ◌<◌, ◌≤◌, ◌↔◌, ℕ, min, IfOk, IsErrOf};
ghost use Rattle.npa_term.specs.Bound.{applied};
ghost use Rattle.npa_term.specs.Canonical.{canonical};
ghost use Rattle.npa_term.specs.Symbols.{symbol_count};

use crate::canonical::{canon, sort_arguments};
use crate::error::{NoMemory, TermFail};
use crate::size::symbols;
use crate::subst::Subst;
use crate::term::{Term, copy};
use npa_list::List;
use std::alloc::Global;

/// The most symbols that a term may have where the size of terms is bounded.
pub const MAX_SYMBOLS: u64 = 1024;

/// The canonical form of the term with the term of each bound variable in its place. A variable
/// that isn't bound stays. The answer may have any size.
pub fn instance(alloc: Global, s: &Subst, t: &Term) -> Result<Term, NoMemory>
    ensures { IfOk result (λ u. u ≡ canonical (applied s.now t.now)) }
{
    match t {
        Term::Var(v) => match s.get(*v) {
            Some(value) => canon(alloc, value),
            None => Ok(Term::Var(*v)),
        },
        Term::Name(n) => Ok(Term::Name(*n)),
        Term::App(op, args) => {
            let mut made = Vec::with_capacity(alloc, args.len())?;
            for arg in args.as_slice() {
                made.push(instance(alloc, s, arg)?)?;
            }
            Ok(Term::App(*op, sort_arguments(*op, made)))
        }
    }
}

/// The term with the term of each bound variable in its place, and nothing else changed: `instance`
/// without the canonical form.
pub fn replace(alloc: Global, s: &Subst, t: &Term) -> Result<Term, NoMemory>
    ensures { IfOk result (λ u. u ≡ applied s.now t.now) }
{
    match t {
        Term::Var(v) => match s.get(*v) {
            Some(value) => copy(alloc, value),
            None => Ok(Term::Var(*v)),
        },
        Term::Name(n) => Ok(Term::Name(*n)),
        Term::App(op, args) => {
            let mut made = Vec::with_capacity(alloc, args.len())?;
            for arg in args.as_slice() {
                made.push(replace(alloc, s, arg)?)?;
            }
            Ok(Term::App(*op, List::from_vec(made)))
        }
    }
}

/// How many symbols the instance of a term has. No instance is made. The number stops at
/// `u64::MAX`.
#[tactic(auto, using(crate::proofs::Rows::applied_count_at))]
pub fn symbols_under(s: &Subst, t: &Term) -> u64
    ensures { result ≡ min (symbol_count (applied s.now t.now)) u64.MAX }
{
    match t {
        Term::Var(v) => s.get(*v).map_or(1, symbols),
        Term::Name(_) => 1,
        Term::App(_, args) => {
            let mut sum: u64 = 1;
            for arg in args.as_slice() {
                sum = sum.saturating_add(symbols_under(s, arg));
            }
            sum
        }
    }
}

/// The instance that `instance` makes, where it has at most `MAX_SYMBOLS` symbols. The size is
/// tested before anything is made.
pub fn apply(alloc: Global, s: &Subst, t: &Term) -> Result<Term, TermFail>
    ensures value { IfOk result (λ u. u ≡ canonical (applied s.now t.now)) }
    ensures small { IfOk result (λ u. symbol_count u ≤ MAX_SYMBOLS) }
    ensures large { (n : ℕ) → IsErrOf result (TermFail.TooLarge n)
        ↔ ((n ≡ min (symbol_count (applied s.now t.now)) u64.MAX) × (MAX_SYMBOLS < n)) }
{
    let count = symbols_under(s, t);
    if count > MAX_SYMBOLS {
        return Err(TermFail::TooLarge(count));
    }
    Ok(instance(alloc, s, t)?)
}
