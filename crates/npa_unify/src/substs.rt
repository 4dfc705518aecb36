ghost use Rattle.std.specs.Prelude.{◌≡◌, IfOk, OnOk};
ghost use Rattle.std.specs.List.{list_all, list_any};
ghost use Rattle.npa_term.specs.Computed.{is_same};
ghost use Rattle.npa_term.specs.Parts.{image};
ghost use Rattle.npa_unify.specs.Answers.{finished, same_subst};
ghost use Rattle.npa_unify.specs.Seen.{IsSound, added, raw, solved};

use crate::heads::{Binding, made};
use npa_term::{Binding as Bound, NoMemory, Subst, Substs, Term, Var, equals};
use std::alloc::Global;

/// The substitution that bindings stand for: each value with all bindings put in, canonical.
pub(crate) fn finish(alloc: Global, bound: &[Binding<'_>]) -> Result<Subst, NoMemory>
    requires sound { IsSound (raw bound.now) }
    ensures { IfOk result (λ s. s ≡ finished (solved (raw bound.now))) }
{
    let mut s = Subst::new(alloc);
    for at in 0..bound.len() {
        let (v, value) = bound[at];
        s.bind(v, made(alloc, bound, value)?)?;
    }
    Ok(s)
}

/// Adds a substitution that isn't the same as one that is kept.
pub(crate) fn keep(kept: &mut Substs, s: Subst) -> Result<(), NoMemory>
    ensures { OnOk result (kept.new ≡ added kept.old s) }
{
    if is_kept(kept.as_slice(), &s) {
        return Ok(());
    }
    kept.push(s)?;
    Ok(())
}

// Whether a substitution is the same as one of these.
fn is_kept(kept: &[Subst], s: &Subst) -> bool
    ensures { result ≡ list_any (same_subst s.now) kept.now }
{
    for other in kept {
        if are_same(s, other) {
            return true;
        }
    }
    false
}

// Whether two substitutions have equal terms, modulo commutativity, for each variable that either
// binds.
fn are_same(s: &Subst, u: &Subst) -> bool
    ensures { result ≡ same_subst s.now u.now }
{
    agree(s, u, s.as_slice()) && agree(s, u, u.as_slice())
}

// Whether two substitutions have equal terms for the variables of these bindings.
fn agree(s: &Subst, u: &Subst, bindings: &[Bound]) -> bool
    ensures { result ≡ list_all (λ b. is_same (image s.now b.0) (image u.now b.0)) bindings.now }
{
    for (v, _) in bindings {
        if !agree_on(s, u, *v) {
            return false;
        }
    }
    true
}

// Whether two substitutions have equal terms for a variable.
fn agree_on(s: &Subst, u: &Subst, v: Var) -> bool
    ensures { result ≡ is_same (image s.now v) (image u.now v) }
{
    let own = Term::Var(v);
    let first = s.get(v).unwrap_or(&own);
    let second = u.get(v).unwrap_or(&own);
    equals(first, second)
}
