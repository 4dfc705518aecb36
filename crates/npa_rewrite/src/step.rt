ghost use Rattle.std.specs.Prelude.{◌≡◌, [], ◌∷◌, ◌++◌, None, false, IfOk, OnOk, IfSome, IsTrue};
ghost use Rattle.npa_match.specs.Matching.{HasMatcher, IsMatcher};
ghost use Rattle.npa_rewrite.specs.Innermost.{at_root, innermost, matcher};
ghost use Rattle.npa_rewrite.specs.Stepping.{AreUnmatched, HasNoMatch, IsOutcome, IsRootOutcome, IsRootStep, outcome_of};

use crate::theory::Theory;
use npa_list::List;
use npa_match::{find_match, has_match};
use npa_sorts::Sorts;
use npa_term::{NoMemory, Subst, Term, copy, instance};
use std::alloc::Global;

/// What a term becomes by a step, or the term itself where it can make none.
#[derive(Debug, Drop)]
pub(crate) enum Outcome {
    Made(Term),
    Normal(Term),
}

/// A step at the first innermost place, the arguments before the term and from the left, by the
/// first equation that matches there.
pub(crate) fn step(alloc: Global, th: &Theory, t: &Term) -> Result<Outcome, NoMemory>
    ensures value { IfOk result (λ step. step
        ≡ outcome_of t.now (innermost (at_root th.now.sig.sorts th.now.equations) t.now)) }
    ensures outcome { IfOk result (λ step. IsOutcome th.now t.now step) }
{
    match t {
        Term::Var(v) => root_step(alloc, th, Term::Var(*v)),
        Term::Name(n) => root_step(alloc, th, Term::Name(*n)),
        Term::App(op, args) => {
            let args = args.as_slice();
            let mut made = Vec::with_capacity(alloc, args.len())?;
            for i in 0..args.len() {
                match step(alloc, th, &args[i])? {
                    Outcome::Normal(arg) => made.push(arg)?,
                    Outcome::Made(arg) => {
                        made.push(arg)?;
                        push_copies(alloc, &mut made, &args[i + 1..])?;
                        return Ok(Outcome::Made(Term::App(*op, List::from_vec(made))));
                    }
                }
            }
            root_step(alloc, th, Term::App(*op, List::from_vec(made)))
        }
    }
}

/// A step at the root of the term, by the first equation whose left side matches it.
pub(crate) fn root_step(alloc: Global, th: &Theory, t: Term) -> Result<Outcome, NoMemory>
    ensures value { IfOk result (λ step. step
        ≡ outcome_of t (at_root th.now.sig.sorts th.now.equations t)) }
    ensures outcome { IfOk result (λ step. IsRootOutcome th.now t step) }
{
    match first_step(alloc, th, &t)? {
        Some(next) => Ok(Outcome::Made(next)),
        None => Ok(Outcome::Normal(t)),
    }
}

// What a term becomes by the first equation whose left side matches it, where there is one.
fn first_step(alloc: Global, th: &Theory, t: &Term) -> Result<Option<Term>, NoMemory>
    ensures value { IfOk result (λ next. next ≡ at_root th.now.sig.sorts th.now.equations t.now) }
    ensures step { IfOk result (λ next. IfSome next (IsRootStep th.now t.now)) }
    ensures none { IfOk result (λ next. next ≡ None → HasNoMatch th.now t.now) }
{
    for equation in th.equations.as_slice() {
        if let Some(s) = matched(alloc, th.sig.sorts(), &equation.left, t)? {
            return Ok(Some(instance(alloc, &s, &equation.right)?));
        }
    }
    Ok(None)
}

// Matches a left side onto a term, both where they lie.
fn matched(alloc: Global, sorts: &Sorts, left: &Term, t: &Term) -> Result<Option<Subst>, NoMemory>
    ensures matcher { IfOk result (λ found. IfSome found (IsMatcher sorts.now ((left.now, t.now) ∷ []))) }
    ensures none { IfOk result (λ found. found ≡ None → AreUnmatched sorts.now left.now t.now) }
    ensures order { IfOk result (λ found. found ≡ matcher sorts.now left.now t.now) }
{
    find_match(alloc, sorts, &[(left, t)])
}

/// Whether no equation's left side matches the term itself. It copies nothing.
pub(crate) fn has_no_match(alloc: Global, th: &Theory, t: &Term) -> Result<bool, NoMemory>
    ensures none { IfOk result (λ none. IsTrue none → HasNoMatch th.now t.now) }
    ensures some { IfOk result (λ none. none ≡ false → HasNoMatch th.now t.now → ⊥) }
{
    for equation in th.equations.as_slice() {
        if is_matched(alloc, th.sig.sorts(), &equation.left, t)? {
            return Ok(false);
        }
    }
    Ok(true)
}

// Whether a left side matches a term.
fn is_matched(alloc: Global, sorts: &Sorts, left: &Term, t: &Term) -> Result<bool, NoMemory>
    ensures matched { IfOk result (λ b. IsTrue b
        → HasMatcher sorts.now ((left.now, t.now) ∷ [])) }
    ensures none { IfOk result (λ b. b ≡ false → AreUnmatched sorts.now left.now t.now) }
{
    has_match(alloc, sorts, &[(left, t)])
}

// Adds copies of the terms.
fn push_copies(alloc: Global, made: &mut Vec<Term>, ts: &[Term]) -> Result<(), NoMemory>
    ensures { OnOk result (made.new.items ≡ made.old.items ++ ts.now) }
{
    for t in ts {
        made.push(copy(alloc, t)?)?;
    }
    Ok(())
}
