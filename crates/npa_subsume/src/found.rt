ghost use Rattle.std.specs.Prelude.{◌≡◌, ℕ, Some, None, IfOk, IfSome};
ghost use Rattle.npa_term.specs.Bound.{BindsOnce};
ghost use Rattle.npa_match.specs.Matching.{bound_pairs};
ghost use Rattle.npa_choice.specs.Choices.{IsChosen};
ghost use Rattle.npa_choice.specs.declared.offer.Offer.{Offer as OfferOf};
ghost use Rattle.npa_model.specs.Covering.{Covers, IsCover};
ghost use Rattle.npa_subsume.specs.Offering.{ArePlaces};

use crate::askers::askers_of;
use crate::early::may_cover;
use npa_choice::{Choice, Offers, choose};
use npa_list::List;
use npa_match::Bindings;
use npa_model::Pattern;
use npa_sorts::Sorts;
use npa_term::NoMemory;
use std::alloc::Global;

/// How a pattern covers another: the places of the strands to which its own are sent, and what its
/// variables are bound to.
#[derive(Drop)]
pub(crate) struct Found<'a> {
    pub places: List<usize>,
    pub bound: Bindings<'a>,
}

/// How pattern `t` covers pattern `s`. No term is copied.
pub(crate) fn find_cover<'a>(
    alloc: Global,
    sorts: &Sorts,
    t: &'a Pattern,
    s: &'a Pattern,
) -> Result<Option<Found<'a>>, NoMemory>
    ensures cover { IfOk result (λ found. IfSome found (λ c.
        IsCover sorts.now t.now s.now (bound_pairs c.bound) c.places)) }
    ensures once { IfOk result (λ found. IfSome found (λ c. BindsOnce (bound_pairs c.bound))) }
    ensures none { IfOk result (λ found. found ≡ None → Covers sorts.now t.now s.now → ⊥) }
{
    if !may_cover(t, s) {
        return Ok(None);
    }
    let askers = askers_of(alloc, sorts, t, s)?;
    let Some(choice) = choose(alloc, sorts, askers.as_slice())? else {
        return Ok(None);
    };
    let Choice { offers, bound } = choice;
    let count = t.strands.len();
    let places = places_of(alloc, askers.as_slice(), offers.as_slice(), count)?;
    Ok(Some(Found { places, bound }))
}

// The places that the offers take that are chosen for the first so many askers.
fn places_of(
    alloc: Global,
    askers: &[Offers<'_>],
    numbers: &[usize],
    count: usize,
) -> Result<List<usize>, NoMemory>
    ensures { IfOk result (ArePlaces askers.now numbers.now count) }
{
    let mut places = List::new(alloc);
    for k in 0..count {
        places.push(place_at(askers, numbers, k))?;
    }
    Ok(places)
}

// The place that the offer takes that is chosen for an asker, or 0 where it takes none.
fn place_at(askers: &[Offers<'_>], numbers: &[usize], k: usize) -> usize
    ensures { (f : OfferOf) (n : ℕ) → IsChosen askers.now numbers.now k f → f.place ≡ Some n
        → result ≡ n }
{
    let Some(number) = numbers.get(k) else {
        return 0;
    };
    let Some(offers) = askers.get(k) else {
        return 0;
    };
    match offers.get(*number) {
        Some(offer) => offer.place.unwrap_or(0),
        None => 0,
    }
}
