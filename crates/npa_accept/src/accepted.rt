ghost use Rattle.std.specs.Prelude.{◌≡◌, ◌↔◌, ◌<◌, ◌≤◌, ◌^◌, ℕ, None, length, Some, IfOk, slice_get};
ghost use Rattle.npa_sig.specs.declared.protocol.Equation.{Equation};
ghost use Rattle.npa_sig.specs.WellFormed.{AreWellFormedEquations, IsPlainEquation};
ghost use Rattle.npa_rewrite.specs.Accepted.{IsAcceptedTerm};
ghost use Rattle.npa_accept.specs.Fit.{IsFitTerm};
ghost use Rattle.npa_accept.specs.Parts.{parts};
ghost use Rattle.npa_accept.specs.Unaccepted.{IsFirst, IsAtRoot};

use crate::trying::first_equation;
use npa_rewrite::Theory;
use npa_term::{NoMemory, Term, copy};
use std::alloc::Global;

/// A part of a term that unifies with the left side of an equation.
#[derive(Debug, Drop)]
pub struct Unaccepted {
    /// The part as it stands in the term.
    pub term: Term,
    /// The place of the equation, counted from 0.
    pub equation: u16,
}

/// The first part of a term, in the order of the text, that is no variable and unifies with the left
/// side of an equation, the variables of both kept apart, with the first such equation; `None` exactly
/// where the term is accepted. `next` is past the numbers of the term's variables. There is no limit.
pub fn first_unaccepted(
    alloc: Global,
    th: &Theory,
    t: &Term,
    next: u32,
) -> Result<Option<Unaccepted>, NoMemory>
    requires formed { AreWellFormedEquations th.now.sig th.now.equations }
    requires plain { (k : ℕ) (e : Equation) → slice_get th.now.equations k ≡ Some e
        → IsPlainEquation e }
    requires few { length th.now.equations < 65535 }
    requires term { IsFitTerm th.now.sig next t.now }
    requires room { next ≤ 2 ^ 30 }
    ensures first { IfOk result (λ found. IsFirst th.now (parts t.now) found) }
    ensures none { IfOk result (λ found. found ≡ None ↔ IsAcceptedTerm th.now t.now) }
{
    match t {
        Term::Name(_) => at_root(alloc, th, t, next),
        Term::App(_, args) => {
            if let Some(found) = at_root(alloc, th, t, next)? {
                return Ok(Some(found));
            }
            for arg in args.as_slice() {
                if let Some(found) = first_unaccepted(alloc, th, arg, next)? {
                    return Ok(Some(found));
                }
            }
            Ok(None)
        }
        Term::Var(_) => Ok(None),
    }
}

// The term itself, with the first equation whose left side unifies with it.
fn at_root(alloc: Global, th: &Theory, t: &Term, next: u32) -> Result<Option<Unaccepted>, NoMemory>
    requires formed { AreWellFormedEquations th.now.sig th.now.equations }
    requires plain { (k : ℕ) (e : Equation) → slice_get th.now.equations k ≡ Some e
        → IsPlainEquation e }
    requires few { length th.now.equations < 65535 }
    requires term { IsFitTerm th.now.sig next t.now }
    requires room { next ≤ 2 ^ 30 }
    ensures { IfOk result (λ found. IsAtRoot th.now t.now found) }
{
    match first_equation(alloc, th, t, next)? {
        Some(equation) => Ok(Some(Unaccepted {
            term: copy(alloc, t)?,
            equation,
        })),
        None => Ok(None),
    }
}
