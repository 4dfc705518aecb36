ghost use Rattle.std.specs.Prelude.{◌≡◌, ◌↔◌, ◌<◌, ◌≤◌, None, Some, false, length, map, unwrap_or, slice_get, IsTrue, IsSome, IfOk, IfSome};
ghost use Rattle.npa_term.specs.Bound.{BindsOnce};
ghost use Rattle.npa_match.specs.Matching.{bound_pairs};
ghost use Rattle.npa_choice.specs.Choices.{HasChoice, IsChoice};
ghost use Rattle.npa_choice.specs.Partial.{as_turn, HasCompletion, IsHeld, IsTurn, IsWitnessed, NoneOpen};

use crate::offer::{Offer, Offers};
use crate::partial::{Partial, add_offer, is_open, numbers_of};
use crate::room::has_room;
use npa_list::List;
use npa_match::Bindings;
use npa_sorts::Sorts;
use npa_term::NoMemory;
use std::alloc::Global;

// So many offers that can be chosen are told apart from more.
const MANY: usize = 4;

/// An offer for each asker, by its number among the asker's offers, and what a matcher of all their
/// pairs binds.
#[derive(Drop)]
pub struct Choice<'a> {
    pub offers: List<usize>,
    pub bound: Bindings<'a>,
}

// What is to be done with a choice for some of the askers.
#[derive(Clone, Copy)]
enum Turn {
    // It is one for all of them.
    Done,
    // An asker that waits has no offer left.
    Closed,
    // The asker at this place goes next.
    Next(usize),
}

/// An offer for each asker, so that no place is taken twice and all pairs together have a matcher.
/// `None` comes exactly where there is no such choice. No term is copied. The search takes the asker
/// next that has the fewest offers left, and gives up where one has none. Where more askers than there
/// are of some places can take no others, `None` comes at once and without memory.
pub fn choose<'a>(
    alloc: Global,
    sorts: &Sorts,
    askers: &[Offers<'a>],
) -> Result<Option<Choice<'a>>, NoMemory>
    ensures choice { IfOk result (λ found. IfSome found (λ c.
        IsChoice sorts.now askers.now c.offers (bound_pairs c.bound))) }
    ensures once { IfOk result (λ found. IfSome found (λ c. BindsOnce (bound_pairs c.bound))) }
    ensures none { IfOk result (λ found. found ≡ None → HasChoice sorts.now askers.now → ⊥) }
{
    if !has_room(askers) {
        return Ok(None);
    }
    let start = Partial::new(alloc, askers.len())?;
    complete(alloc, sorts, askers, &start)
}

// A choice for all askers that goes on from one for some of them.
fn complete<'a>(
    alloc: Global,
    sorts: &Sorts,
    askers: &[Offers<'a>],
    choice: &Partial<'a>,
) -> Result<Option<Choice<'a>>, NoMemory>
    requires { IsHeld sorts.now askers.now choice.now }
    ensures choice { IfOk result (λ found. IfSome found (λ c.
        IsChoice sorts.now askers.now c.offers (bound_pairs c.bound))) }
    ensures once { IfOk result (λ found. IfSome found (λ c. BindsOnce (bound_pairs c.bound))) }
    ensures none { IfOk result (λ found. found ≡ None
        → HasCompletion sorts.now askers.now choice.now.chosen → ⊥) }
{
    let k = match next_turn(alloc, sorts, askers, choice)? {
        Turn::Done => return Ok(Some(completed(alloc, choice)?)),
        Turn::Closed => return Ok(None),
        Turn::Next(k) => k,
    };
    let offers = askers[k].as_slice();
    for n in 0..offers.len() {
        if let Some(more) = add_offer(alloc, sorts, choice, k, n, &offers[n])? {
            if let Some(found) = complete(alloc, sorts, askers, &more)? {
                return Ok(Some(found));
            }
        }
    }
    Ok(None)
}

// The choice for all askers that this one is.
fn completed<'a>(alloc: Global, choice: &Partial<'a>) -> Result<Choice<'a>, NoMemory>
    ensures offers { IfOk result (λ c. c.offers ≡ map (λ x. unwrap_or x 0) choice.now.chosen) }
    ensures bound { IfOk result (λ c. c.bound ≡ choice.now.bound) }
{
    Ok(Choice {
        offers: numbers_of(alloc, choice.chosen.as_slice())?,
        bound: List::from_slice(alloc, choice.bound.as_slice())?,
    })
}

// Whose turn it is: that of an asker with the fewest offers that can be chosen, as far as they are
// counted.
fn next_turn<'a>(
    alloc: Global,
    sorts: &Sorts,
    askers: &[Offers<'a>],
    choice: &Partial<'a>,
) -> Result<Turn, NoMemory>
    requires { IsHeld sorts.now askers.now choice.now }
    ensures { IfOk result (IsTurn sorts.now askers.now choice.now) }
{
    let mut first = None;
    let mut least = MANY;
    for k in 0..askers.len() {
        if is_waiting(choice, k) {
            let count = count_open(alloc, sorts, askers[k].as_slice(), least, choice)?;
            if count == 0 {
                return Ok(Turn::Closed);
            }
            if goes_first(first, count, least) {
                first = Some(k);
                least = count;
            }
        }
    }
    Ok(turn_of(first))
}

fn turn_of(first: Option<usize>) -> Turn
    ensures { result ≡ as_turn first }
{
    match first {
        Some(k) => Turn::Next(k),
        None => Turn::Done,
    }
}

// Whether no offer is chosen yet for the asker at a place.
fn is_waiting(choice: &Partial<'_>, k: usize) -> bool
    ensures { IsTrue result ↔ (slice_get choice.now.chosen k ≡ Some None) }
{
    match choice.chosen.get(k) {
        Some(number) => number.is_none(),
        None => false,
    }
}

// Whether an asker with so many offers goes before the first one so far.
fn goes_first(first: Option<usize>, count: usize, least: usize) -> bool
    ensures { result ≡ false → IsSome first }
{
    first.is_none() || count < least
}

// How many of the offers can be chosen, counted up to `most`.
fn count_open<'a>(
    alloc: Global,
    sorts: &Sorts,
    offers: &[Offer<'a>],
    most: usize,
    choice: &Partial<'a>,
) -> Result<usize, NoMemory>
    requires some { 0 < most }
    requires witnessed { IsWitnessed sorts.now choice.now }
    ensures none { IfOk result (λ count. count ≡ 0 → NoneOpen sorts.now choice.now offers.now) }
    ensures some { IfOk result (λ count. count ≤ most) }
{
    let mut count = 0;
    for offer in offers {
        if count == most {
            return Ok(count);
        }
        if is_open(alloc, sorts, choice, offer)? {
            count += 1;
        }
    }
    Ok(count)
}
