ghost use Rattle.std.specs.Prelude.{◌≡◌, ◌↔◌, ◌<◌, ◌≤◌, ◌^◌, ℕ, Some, length, IfOk, IsTrue, slice_get};
ghost use Rattle.npa_sig.specs.declared.protocol.Equation.{Equation};
ghost use Rattle.npa_sig.specs.WellFormed.{AreWellFormedEquations, IsPlainEquation};
ghost use Rattle.npa_rewrite.specs.Accepted.{Unify};
ghost use Rattle.npa_accept.specs.Fit.{IsFitTerm, heads_meet as heads_can_meet};
ghost use Rattle.npa_accept.specs.Unaccepted.{IsEquationOf};

use npa_list::List;
use npa_rewrite::Theory;
use npa_sig::Sig;
use npa_term::{NoMemory, Term, copy, rename};
use npa_unify::unifiable;
use std::alloc::Global;

// The variables of equations have numbers below this.
const LEFT_ROOM: u32 = 1073741824;

/// The place of the first equation whose left side unifies with the term, the variables of both kept
/// apart.
pub(crate) fn first_equation(
    alloc: Global,
    th: &Theory,
    t: &Term,
    next: u32,
) -> Result<Option<u16>, NoMemory>
    requires formed { AreWellFormedEquations th.now.sig th.now.equations }
    requires plain { (k : ℕ) (e : Equation) → slice_get th.now.equations k ≡ Some e
        → IsPlainEquation e }
    requires few { length th.now.equations < 65535 }
    requires term { IsFitTerm th.now.sig next t.now }
    requires room { next ≤ 2 ^ 30 }
    ensures { IfOk result (λ found. IsEquationOf th.now t.now found) }
{
    let equations = th.equations.as_slice();
    for i in 0..equations.len() {
        if unifies(alloc, &th.sig, t, &equations[i].left, next)? {
            return Ok(Some(i as u16));
        }
    }
    Ok(None)
}

// Whether a left side, with its variables numbered behind those of the term, unifies with it. Most
// can't by their heads, and for these nothing is made.
fn unifies(alloc: Global, sig: &Sig, t: &Term, left: &Term, next: u32) -> Result<bool, NoMemory>
    requires term { IsFitTerm sig.now next t.now }
    requires left { IsFitTerm sig.now (2 ^ 30) left.now }
    requires room { next ≤ 2 ^ 30 }
    ensures { IfOk result (λ found. IsTrue found ↔ Unify sig.now t.now left.now) }
{
    if !heads_meet(t, left) {
        return Ok(false);
    }
    let mut pairs = List::new(alloc);
    pairs.push((copy(alloc, t)?, rename(alloc, left, next)?))?;
    sig.laws();
    let sorts = sig.sorts();
    sorts.laws();
    sorts.pairs();
    unifiable(alloc, sorts, &pairs, next + LEFT_ROOM)
}

// Whether two terms may have instances of one head.
fn heads_meet(t: &Term, u: &Term) -> bool
    ensures { result ≡ heads_can_meet t.now u.now }
{
    match (t, u) {
        (Term::Var(_), _) => true,
        (_, Term::Var(_)) => true,
        (Term::Name(m), Term::Name(n)) => *m == *n,
        (Term::App(f, _), Term::App(g, _)) => *f == *g,
        _ => false,
    }
}
