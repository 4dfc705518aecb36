ghost use Rattle.std.specs.Prelude.{◌≡◌, ◌↔◌, None, IsTrue, IfOk, IfSome};
ghost use Rattle.npa_term.specs.Bound.{BindsOnce};
ghost use Rattle.npa_match.specs.Matching.{bound_pairs};
ghost use Rattle.npa_model.specs.Covering.{Covers, IsCover};
ghost use Rattle.npa_subsume.specs.Testing.{covers_test};

use crate::found::find_cover;
use npa_list::List;
use npa_model::{Pattern, Places};
use npa_sorts::Sorts;
use npa_term::{NoMemory, Subst, Term, Var, copy};
use std::alloc::Global;

/// How a pattern covers another: a substitution, and for each of the pattern's strands the place of
/// the other's to which it is sent.
#[derive(Debug, Drop)]
pub struct Cover {
    pub subst: Subst,
    pub strands: Places,
}

/// Whether pattern `t` covers pattern `s`: one substitution that respects sorts sends the strands of
/// `t` to different strands of `s` and its facts into those of `s`, modulo commutativity. No term is
/// copied. It takes no memory where `t` has more strands of one number and bar than `s`, or a fact
/// whose operator no such fact of `s` has.
pub fn covers(alloc: Global, sorts: &Sorts, t: &Pattern, s: &Pattern) -> Result<bool, NoMemory>
    ensures exact { IfOk result (λ yes. IsTrue yes ↔ Covers sorts.now t.now s.now) }
    ensures test { IfOk result (λ yes. yes ≡ covers_test sorts.now t.now s.now) }
{
    Ok(find_cover(alloc, sorts, t, s)?.is_some())
}

/// How pattern `t` covers pattern `s`. `None` comes exactly where it doesn't. The terms of the
/// substitution are copies of terms of `s`. Where a place of `s` is past `u32::MAX`, memory counts as
/// wanting.
pub fn covers_by(
    alloc: Global,
    sorts: &Sorts,
    t: &Pattern,
    s: &Pattern,
) -> Result<Option<Cover>, NoMemory>
    ensures cover { IfOk result (λ found. IfSome found (λ c.
        IsCover sorts.now t.now s.now c.subst c.strands)) }
    ensures none { IfOk result (λ found. found ≡ None → Covers sorts.now t.now s.now → ⊥) }
{
    let Some(found) = find_cover(alloc, sorts, t, s)? else {
        return Ok(None);
    };
    Ok(Some(Cover {
        subst: substitution(alloc, found.bound.as_slice())?,
        strands: numbered(alloc, found.places.as_slice())?,
    }))
}

// What is bound, as a substitution.
fn substitution(alloc: Global, bound: &[(Var, &Term)]) -> Result<Subst, NoMemory>
    requires { BindsOnce (bound_pairs bound.now) }
    ensures { IfOk result (λ s. s ≡ bound_pairs bound.now) }
{
    let mut s = Subst::new(alloc);
    for (v, t) in bound {
        s.bind(*v, copy(alloc, t)?)?;
    }
    Ok(s)
}

// The same places in the numbers by which patterns name them.
fn numbered(alloc: Global, places: &[usize]) -> Result<Places, NoMemory>
    ensures { IfOk result (λ numbers. numbers ≡ places.now) }
{
    let mut numbers = List::new(alloc);
    for place in places {
        numbers.push(number_of(*place)?)?;
    }
    Ok(numbers)
}

fn number_of(place: usize) -> Result<u32, NoMemory>
    ensures { IfOk result (λ number. number ≡ place) }
{
    if place > u32::MAX as usize {
        return Err(NoMemory);
    }
    Ok(place as u32)
}
