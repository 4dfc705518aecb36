ghost use Rattle.std.specs.Prelude.{◌≡◌, ◌<◌, ◌≤◌, ◌++◌, [], None, Some, false, true, length, map, replicate, unwrap_or, Contains, List as ListOf, IsTrue, IfOk, IfSome};
ghost use Rattle.npa_sorts.specs.Subsorts.{Subsorts};
ghost use Rattle.npa_term.specs.declared.term.Term.{Term as TermOf};
ghost use Rattle.npa_term.specs.declared.term.Var.{Var as Variable};
ghost use Rattle.npa_match.specs.Branches.{after_pairs, branches};
ghost use Rattle.npa_match.specs.Matching.{HasMatch, bound_pairs, read_pairs};
ghost use Rattle.npa_choice.specs.Partial.{Adds, IsFree, IsOpen, IsStart, IsWitnessed, placed};

use crate::offer::Offer;
use npa_list::List;
use npa_match::{Bindings, extend, match_once};
use npa_sorts::Sorts;
use npa_term::{NoMemory, Term};
use std::alloc::Global;

/// A choice for some of the askers, with a matcher of all pairs that it has.
#[derive(Drop)]
pub(crate) struct Partial<'a> {
    /// For each asker the number of the offer that is chosen, where one is.
    pub chosen: List<Option<usize>>,
    pub used: List<usize>,
    pub pairs: List<(&'a Term, &'a Term)>,
    pub bound: Bindings<'a>,
    /// No commutative operator stands in the first members: there is no other matcher.
    pub once: bool,
}

impl<'a> Partial<'a> {
    /// Nothing is chosen for any of so many askers.
    pub(crate) fn new(alloc: Global, askers: usize) -> Result<Partial<'a>, NoMemory>
        ensures { IfOk result (IsStart askers) }
    {
        Ok(Partial {
            chosen: none_chosen(alloc, askers)?,
            used: List::new(alloc),
            pairs: List::new(alloc),
            bound: List::new(alloc),
            once: true,
        })
    }
}

fn none_chosen(alloc: Global, askers: usize) -> Result<List<Option<usize>>, NoMemory>
    ensures { IfOk result (λ chosen. chosen ≡ replicate askers None) }
{
    let mut chosen = List::new(alloc);
    for _ in 0..askers {
        chosen.push(None)?;
    }
    Ok(chosen)
}

/// What comes of a choice by the offer with number `n` for the asker at place `k`, where its place is
/// free and its pairs are matched beside those that are there.
pub(crate) fn add_offer<'a>(
    alloc: Global,
    sorts: &Sorts,
    choice: &Partial<'a>,
    k: usize,
    n: usize,
    offer: &Offer<'a>,
) -> Result<Option<Partial<'a>>, NoMemory>
    requires within { k < length choice.now.chosen }
    requires witnessed { IsWitnessed sorts.now choice.now }
    ensures added { IfOk result (λ found. IfSome found (Adds sorts.now choice.now k n offer.now)) }
    ensures closed { IfOk result (λ found. found ≡ None
        → IsOpen sorts.now choice.now offer.now → ⊥) }
{
    if !is_free(choice.used.as_slice(), offer.place) {
        return Ok(None);
    }
    let more = offer.pairs.as_slice();
    let Some(bound) = witness(alloc, sorts, choice, more)? else {
        return Ok(None);
    };
    let used = with_place(alloc, choice.used.as_slice(), offer.place)?;
    let mut chosen = List::from_slice(alloc, choice.chosen.as_slice())?;
    chosen.set(k, Some(n));
    let mut pairs = List::from_slice(alloc, choice.pairs.as_slice())?;
    pairs.extend_from_slice(more)?;
    let once = stays_once(choice.once, more);
    Ok(Some(Partial {
        chosen,
        used,
        pairs,
        bound,
        once,
    }))
}

/// Whether an offer's place is free and its pairs are matched beside those of a choice.
pub(crate) fn is_open<'a>(
    alloc: Global,
    sorts: &Sorts,
    choice: &Partial<'a>,
    offer: &Offer<'a>,
) -> Result<bool, NoMemory>
    requires { IsWitnessed sorts.now choice.now }
    ensures { IfOk result (λ b. b ≡ false → IsOpen sorts.now choice.now offer.now → ⊥) }
{
    if !is_free(choice.used.as_slice(), offer.place) {
        return Ok(false);
    }
    Ok(witness(alloc, sorts, choice, offer.pairs.as_slice())?.is_some())
}

// A matcher of the pairs of a choice and of more. The choice's own is extended where it can be; all
// pairs are matched anew only where that fails and there may be others.
fn witness<'a>(
    alloc: Global,
    sorts: &Sorts,
    choice: &Partial<'a>,
    more: &[(&'a Term, &'a Term)],
) -> Result<Option<Bindings<'a>>, NoMemory>
    requires { IsWitnessed sorts.now choice.now }
    ensures found { IfOk result (λ found. IfSome found (λ s. Contains
        (branches sorts.now (read_pairs choice.now.pairs ++ read_pairs more.now)) (bound_pairs s))) }
    ensures none { IfOk result (λ found. found ≡ None
        → HasMatch sorts.now (read_pairs choice.now.pairs ++ read_pairs more.now) → ⊥) }
{
    if let Some(bound) = extend(alloc, sorts, choice.bound.as_slice(), more)? {
        return Ok(Some(bound));
    }
    if choice.once {
        return Ok(None);
    }
    let mut pairs = List::from_slice(alloc, choice.pairs.as_slice())?;
    pairs.extend_from_slice(more)?;
    extend(alloc, sorts, &[], pairs.as_slice())
}

// Whether no commutative operator stood in the first members, nor stands in more of them.
fn stays_once(once: bool, more: &[(&Term, &Term)]) -> bool
    ensures { IsTrue result → (once ≡ true) × ((o : Subsorts) (s : ListOf (Variable × TermOf))
        → length (after_pairs o (read_pairs more.now) s) ≤ 1) }
{
    once && match_once(more)
}

// Whether a place, where there is one, isn't used.
fn is_free(used: &[usize], place: Option<usize>) -> bool
    ensures free { IsTrue result → IsFree used.now place }
    ensures used { result ≡ false → IsFree used.now place → ⊥ }
{
    match place {
        Some(place) => !used.contains(&place),
        None => true,
    }
}

fn with_place(alloc: Global, used: &[usize], place: Option<usize>) -> Result<List<usize>, NoMemory>
    ensures { IfOk result (λ more. more ≡ used.now ++ placed place) }
{
    let mut more = List::from_slice(alloc, used)?;
    if let Some(place) = place {
        more.push(place)?;
    }
    Ok(more)
}

/// The numbers of the offers that are chosen, where one is chosen for each asker.
pub(crate) fn numbers_of(alloc: Global, chosen: &[Option<usize>]) -> Result<List<usize>, NoMemory>
    ensures { IfOk result (λ numbers. numbers ≡ map (λ x. unwrap_or x 0) chosen.now) }
{
    let mut numbers = List::new(alloc);
    for number in chosen {
        numbers.push(number.unwrap_or(0))?;
    }
    Ok(numbers)
}
