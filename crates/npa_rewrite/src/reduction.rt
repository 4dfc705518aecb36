ghost use Rattle.std.specs.Prelude.{◌≡◌, ◌↔◌, ℕ, None, false, All, IsTrue, IfOk, IfSome};
ghost use Rattle.npa_term.specs.declared.term.Op.{Op};
ghost use Rattle.npa_term.specs.Agreeing.{Agrees};
ghost use Rattle.npa_term.specs.Canonical.{canonical};
ghost use Rattle.npa_rewrite.specs.Innermost.{Reductions, normalized, reduced};
ghost use Rattle.npa_rewrite.specs.Rewriting.{AllCancel, IsNormal, Rewrites, Steps};

use crate::step::{Outcome, has_no_match, root_step, step};
use crate::theory::Theory;
use npa_term::{NoMemory, Term, canon, sort_arguments};
use std::alloc::Global;

/// One step on the canonical form of the term: at its first innermost redex in the order of the
/// text, by the first equation that matches there, with the matcher that `find` answers. The
/// answer is canonical. `None` comes exactly where the term is normal.
pub fn reduce(alloc: Global, th: &Theory, t: &Term) -> Result<Option<Term>, NoMemory>
    ensures value { IfOk result (λ found. found ≡ reduced th.now t.now) }
    ensures step { IfOk result (λ found. IfSome found (Rewrites th.now (canonical t.now))) }
    ensures canonical { IfOk result (λ found. IfSome found (λ u. canonical u ≡ u)) }
    ensures normal { IfOk result (λ found. (found ≡ None) ↔ IsNormal th.now t.now) }
{
    let start = canon(alloc, t)?;
    match step(alloc, th, &start)? {
        Outcome::Made(next) => Ok(Some(canon(alloc, &next)?)),
        Outcome::Normal(_) => Ok(None),
    }
}

/// Whether the term rewrites to nothing: no equation matches it or a part of it, modulo
/// commutativity. It copies nothing.
#[cycle(normal)]
pub fn is_normal(alloc: Global, th: &Theory, t: &Term) -> Result<bool, NoMemory>
    ensures { IfOk result (λ normal. IsTrue normal ↔ IsNormal th.now t.now) }
{
    match t {
        Term::App(_, args) => {
            if !are_normal(alloc, th, args.as_slice())? {
                return Ok(false);
            }
            has_no_match(alloc, th, t)
        }
        _ => has_no_match(alloc, th, t),
    }
}

// Whether all of these terms are normal.
#[cycle(normal)]
fn are_normal(alloc: Global, th: &Theory, ts: &[Term]) -> Result<bool, NoMemory>
    ensures all { IfOk result (λ b. IsTrue b → All (IsNormal th.now) ts.now) }
    ensures some { IfOk result (λ b. b ≡ false → All (IsNormal th.now) ts.now → ⊥) }
{
    for t in ts {
        if !is_normal(alloc, th, t)? {
            return Ok(false);
        }
    }
    Ok(true)
}

/// A normal form of the term: canonical, normal, and reached from the canonical form by steps. Where
/// no two operators of the term have one number, it is reached by steps of `reduce`.
/// It is made in one pass from the leaves up: a step at the root of a term with normal arguments
/// leaves a part of one of them, which is normal.
pub fn normal_form(alloc: Global, th: &Theory, t: &Term) -> Result<Term, NoMemory>
    requires cancelling { AllCancel th.now }
    ensures value { IfOk result (λ u. u ≡ normalized th.now t.now) }
    ensures canonical { IfOk result (λ u. canonical u ≡ u) }
    ensures normal { IfOk result (λ u. IsNormal th.now u) }
    ensures reached { IfOk result (λ u. Steps th.now (canonical t.now) u) }
    ensures by_reduce { (decl : ℕ → Op) → Agrees decl t.now
        → IfOk result (λ u. Reductions th.now (canonical t.now) u) }
{
    match t {
        Term::Var(v) => Ok(Term::Var(*v)),
        Term::Name(n) => Ok(Term::Name(*n)),
        Term::App(op, args) => {
            let mut made = Vec::with_capacity(alloc, args.len())?;
            for arg in args.as_slice() {
                made.push(normal_form(alloc, th, arg)?)?;
            }
            match root_step(alloc, th, Term::App(*op, sort_arguments(*op, made)))? {
                Outcome::Made(form) => Ok(form),
                Outcome::Normal(form) => Ok(form),
            }
        }
    }
}
