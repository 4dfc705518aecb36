ghost use Rattle.std.specs.Prelude.{◌≡◌, ◌<◌, ◌^◌, ℕ, Some, Contains, IfOk, slice_get, length};
ghost use Rattle.std.specs.List.{flat_map};
ghost use Rattle.npa_term.specs.declared.term.Term.{Term as Tree};
ghost use Rattle.npa_conv.specs.Theories.{IsPlainTheory};
ghost use Rattle.npa_accept.specs.Fit.{IsFitTerm};
ghost use Rattle.npa_accept.specs.Parts.{parts};
ghost use Rattle.npa_accept.specs.Unaccepted.{IsFirst};
ghost use Rattle.npa_model.specs.declared.aim.Aim.{Aim as Pattern};
ghost use Rattle.npa_model.specs.Accepted.{part_terms};
ghost use Rattle.npa_close.specs.Checks.{part_parts, aim_parts, HasAimFault, IsFitAim};

use npa_accept::{Unaccepted, first_unaccepted};
use npa_model::{Aim, Part};
use npa_rewrite::Theory;
use npa_term::{NoMemory, Term};
use std::alloc::Global;

// Past the numbers of a module's variables.
const NEXT: u32 = 1 << 30;

/// The first aim that isn't accepted, by its place, if there is one.
pub(crate) fn aim_fault(
    alloc: Global,
    th: &Theory,
    aims: &[Aim],
) -> Result<Option<(u16, Unaccepted)>, NoMemory>
    requires theory { IsPlainTheory th.now }
    requires fit { (k : ℕ) (aim : Pattern) → slice_get aims.now k ≡ Some aim → IsFitAim th.now.sig aim }
    requires few { length aims.now < 65535 }
    ensures { IfOk result (HasAimFault th.now aims.now) }
{
    for place in 0..aims.len() {
        if let Some(found) = unaccepted_in(alloc, th, &aims[place])? {
            return Ok(Some((place as u16, found)));
        }
    }
    Ok(None)
}

// The first part of an aim's terms that isn't accepted.
fn unaccepted_in(alloc: Global, th: &Theory, aim: &Aim) -> Result<Option<Unaccepted>, NoMemory>
    requires theory { IsPlainTheory th.now }
    requires fit { IsFitAim th.now.sig aim.now }
    ensures { IfOk result (IsFirst th.now (aim_parts aim.now)) }
{
    for part in aim.parts.as_slice() {
        if let Some(found) = unaccepted_of_part(alloc, th, part)? {
            return Ok(Some(found));
        }
    }
    Ok(None)
}

// The first part of the terms of a part of an aim that isn't accepted.
fn unaccepted_of_part(
    alloc: Global,
    th: &Theory,
    part: &Part,
) -> Result<Option<Unaccepted>, NoMemory>
    requires theory { IsPlainTheory th.now }
    requires fit { (t : Tree) → Contains (part_terms part.now) t → IsFitTerm th.now.sig (2 ^ 30) t }
    ensures { IfOk result (IsFirst th.now (part_parts part.now)) }
{
    match part {
        Part::Known(term) => first_unaccepted(alloc, th, term, NEXT),
        Part::Strand { args, .. } => unaccepted_among(alloc, th, args.as_slice()),
    }
}

// The first part of terms that isn't accepted.
fn unaccepted_among(
    alloc: Global,
    th: &Theory,
    terms: &[Term],
) -> Result<Option<Unaccepted>, NoMemory>
    requires theory { IsPlainTheory th.now }
    requires fit { (t : Tree) → Contains terms.now t → IsFitTerm th.now.sig (2 ^ 30) t }
    ensures { IfOk result (IsFirst th.now (flat_map parts terms.now)) }
{
    for term in terms {
        if let Some(found) = first_unaccepted(alloc, th, term, NEXT)? {
            return Ok(Some(found));
        }
    }
    Ok(None)
}
