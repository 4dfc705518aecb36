ghost use Rattle.std.specs.Prelude.{◌≡◌, ◌<◌, ◌≤◌, ◌+◌, ◌∷◌, ◌++◌, [], Contains, IfOk, OnOk, List as ListOf, Some, drop, length, slice_get};
ghost use Rattle.npa_term.specs.declared.term.Term.{Term as Tree};
ghost use Rattle.npa_variants.specs.Told.{seen};
ghost use Rattle.npa_moves.specs.Picks.{picks_from};
ghost use Rattle.npa_sets.specs.Sets.{IsLow, picks_with, sets_from, sets_of, with_kept};
ghost use Rattle.npa_sets.specs.Told.{Gives, GivesSets, as_kept};

use crate::solving::{Problem, unifiers_with};
use npa_list::List;
use npa_model::Places;
use npa_sorts::Sorts;
use npa_term::{NoMemory, Substs, Term, Terms, copy};
use npa_unify::{MAX_UNIFIERS, UnifyFail};
use std::alloc::Global;

/// Some of a list of facts, at least one, with the unifiers that make all of them equal to a message, of
/// which there is at least one.
#[derive(Debug, Drop)]
pub struct FactSet {
    /// The places of the facts that are taken, ascending from 0.
    pub places: Places,
    /// The others, in their order.
    pub left: Terms,
    pub unifiers: Substs,
}

/// Sets of facts, in the lexicographic order of their places.
pub type FactSets = List<FactSet>;

// The sets that are found, and how many unifiers they have together.
#[derive(Drop)]
pub(crate) struct Found {
    pub(crate) sets: FactSets,
    pub(crate) count: usize,
}

/// Each set of the facts that the message unifies with at once, with the unifiers, which are numbered
/// from `next` on: a number past those of all variables. A set whose beginning has no unifier isn't tried.
///
/// `TooLarge` and `TooMany` are answered for the first set in order whose unification answers so, and
/// `TooMany` too where all sets up to one have more than `MAX_UNIFIERS` unifiers together. Want of
/// memory is also answered where the pairs aren't fit for `unify`: a variable is of no sort, a number
/// has two sorts, or `next` is past 2^31, which leaves no room for the numbers of new variables.
pub fn fact_sets(
    alloc: Global,
    sorts: &Sorts,
    facts: &[Term],
    message: &Term,
    next: u32,
) -> Result<FactSets, UnifyFail>
    requires facts { (t : Tree) → Contains facts.now t → IsLow next t }
    requires message { IsLow next message.now }
    ensures { GivesSets result (sets_of sorts.now next message.now facts.now) }
{
    let problem = Problem {
        sorts,
        facts,
        message,
        next,
    };
    let none = Found {
        sets: List::new(alloc),
        count: 0,
    };
    let found = extend(alloc, &problem, &[], &[], &[], 0, none)?;
    Ok(found.sets)
}

// Adds the sets that take more of the facts, from a place on, than are taken.
#[cycle(sets)]
fn extend<'a>(
    alloc: Global,
    problem: &Problem<'a>,
    taken: &[&'a Term],
    left: &[&'a Term],
    places: &[u32],
    from: usize,
    found: Found,
) -> Result<Found, UnifyFail>
    requires facts { (t : Tree) → Contains problem.now.facts.now t → IsLow problem.now.next t }
    requires message { IsLow problem.now.next problem.now.message.now }
    requires taken { (t : Tree) → Contains (seen taken.now) t → IsLow problem.now.next t }
    ensures { Gives result (sets_from problem.now.sorts.now problem.now.next problem.now.message.now
        (picks_from (seen taken.now) (seen left.now) places.now from (drop from problem.now.facts.now)) (as_kept found)) }
{
    let mut left = all_of(alloc, left)?;
    let mut found = found;
    for at in from..problem.facts.len() {
        found = with_fact(alloc, problem, taken, left.as_slice(), places, at, found)?;
        add(&mut left, &problem.facts[at])?;
    }
    Ok(found)
}

// Adds the set that takes the fact at a place too, and those that take more, where it has a unifier.
#[cycle(sets)]
fn with_fact<'a>(
    alloc: Global,
    problem: &Problem<'a>,
    taken: &[&'a Term],
    left: &[&'a Term],
    places: &[u32],
    at: usize,
    found: Found,
) -> Result<Found, UnifyFail>
    requires facts { (t : Tree) → Contains problem.now.facts.now t → IsLow problem.now.next t }
    requires message { IsLow problem.now.next problem.now.message.now }
    requires taken { (t : Tree) → Contains (seen taken.now) t → IsLow problem.now.next t }
    requires within { at < length problem.now.facts.now }
    ensures { (f : Tree) → slice_get problem.now.facts.now at ≡ Some f
        → Gives result (sets_from problem.now.sorts.now problem.now.next problem.now.message.now
        (picks_with (seen taken.now) (seen left.now) places.now at f (drop (at + 1) problem.now.facts.now)) (as_kept found)) }
{
    let fact = &problem.facts[at];
    let unifiers = unifiers_with(alloc, problem, taken, fact)?;
    if unifiers.is_empty() {
        return Ok(found);
    }
    let places = with_place(alloc, places, at)?;
    let rest = &problem.facts[at + 1..];
    let found = with_set(alloc, places.as_slice(), left, rest, unifiers, found)?;
    let mut taken = all_of(alloc, taken)?;
    add(&mut taken, fact)?;
    extend(
        alloc,
        problem,
        taken.as_slice(),
        left,
        places.as_slice(),
        at + 1,
        found,
    )
}

// The places, and one more.
fn with_place(alloc: Global, places: &[u32], at: usize) -> Result<Vec<u32>, NoMemory>
    ensures { IfOk result (λ more. more.items ≡ places.now ++ at ∷ []) }
{
    let Ok(place) = u32::try_from(at) else {
        return Err(NoMemory);
    };
    let mut more = Vec::from_slice(alloc, places)?;
    more.push(place)?;
    Ok(more)
}

// Adds a set that has unifiers.
fn with_set(
    alloc: Global,
    places: &[u32],
    left: &[&Term],
    rest: &[Term],
    unifiers: Substs,
    found: Found,
) -> Result<Found, UnifyFail>
    ensures { Gives result (with_kept (record { places = places.now; left = seen left.now ++ rest.now; unifiers = unifiers }) unifiers (as_kept found)) }
{
    let count = found.count.saturating_add(unifiers.len());
    if count > MAX_UNIFIERS as usize {
        return Err(UnifyFail::TooMany);
    }
    let left = copies(alloc, left, rest)?;
    let sets = add_set(alloc, found.sets, places, left, unifiers)?;
    Ok(Found { sets, count })
}

fn add_set(
    alloc: Global,
    sets: FactSets,
    places: &[u32],
    left: Terms,
    unifiers: Substs,
) -> Result<FactSets, NoMemory>
    ensures { IfOk result (λ more. more ≡ sets ++ record { places = places.now; left = left; unifiers = unifiers } ∷ []) }
{
    let mut sets = sets;
    sets.push(FactSet {
        places: List::from_slice(alloc, places)?,
        left,
        unifiers,
    })?;
    Ok(sets)
}

// The same terms.
fn all_of<'a>(alloc: Global, terms: &[&'a Term]) -> Result<Vec<&'a Term>, NoMemory>
    ensures { IfOk result (λ same. same.items ≡ terms.now) }
{
    Ok(Vec::from_slice(alloc, terms)?)
}

fn add<'a>(terms: &mut Vec<&'a Term>, t: &'a Term) -> Result<(), NoMemory>
    ensures { OnOk result (seen terms.new.items ≡ seen terms.old.items ++ t.now ∷ []) }
{
    terms.push(t)?;
    Ok(())
}

// Copies of these terms, and then of those.
fn copies(alloc: Global, left: &[&Term], rest: &[Term]) -> Result<Terms, NoMemory>
    ensures { IfOk result (λ ts. ts ≡ seen left.now ++ rest.now) }
{
    let mut terms = List::new(alloc);
    for t in left {
        terms.push(copy(alloc, t)?)?;
    }
    for t in rest {
        terms.push(copy(alloc, t)?)?;
    }
    Ok(terms)
}
