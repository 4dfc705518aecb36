ghost use Rattle.std.specs.Prelude.{◌≡◌, ◌<◌, ◌≤◌, ◌^◌, ◌+◌, ◌++◌, ℕ, [], None, false, length, map, take, drop, Contains, IsTrue, IfOk, IfSome, OnOk};
ghost use Rattle.npa_match.specs.Matching.{HasMatch, read_pairs};
ghost use Rattle.npa_replay.specs.Choices.{AreAllCandidates, Can, IsMost, IsOpen, picked};
ghost use Rattle.npa_replay.specs.Groups.{AreLinks, HasChoice, strand_keys, variable_keys};
ghost use Rattle.npa_list.specs.Different.{AreDifferent};
ghost use Rattle.npa_replay.specs.Held.{IsHeld, IsKept, IsServed};

use crate::candidates::all_candidates;
use crate::choice::{Choice, is_open, take_target};
use crate::group::group;
use crate::links::{links_by_strand, links_by_variable};
use crate::room::has_room;
use crate::scene::{Scene, place_at};
use npa_list::List;
use npa_model::Part;
use npa_term::NoMemory;
use std::alloc::Global;

// So many candidates that can be taken are told apart from more.
const MANY: usize = 4;

/// How many of the parts can be met one after another. The parts before one are known to be met
/// together when its turn comes, so only its group is searched: the parts up to it that are linked
/// to it, directly or through others. Parts that aren't linked don't hinder each other.
pub(crate) fn most_met(alloc: Global, scene: &Scene<'_>) -> Result<usize, NoMemory>
    requires few { length scene.now.instances.now < 2 ^ 32 }
    requires counted { length scene.now.state.now.executed ≡ length scene.now.instances.now }
    ensures { IfOk result (λ most. IsMost scene.now.instances.now scene.now.state.now scene.now.sorts.now scene.now.parts.now [] [] most) }
{
    let candidates = all_candidates(alloc, scene)?;
    let by_variable = links_by_variable(alloc, scene.parts)?;
    let by_strand = links_by_strand(alloc, scene.parts)?;
    let links = (by_variable.as_slice(), by_strand.as_slice());
    let mut kept = Some(Choice::new(alloc));
    for k in 0..scene.parts.len() {
        if !is_next_met(alloc, scene, candidates.as_slice(), links, k, &mut kept)? {
            return Ok(k);
        }
    }
    Ok(scene.parts.len())
}

// Whether a part can be met beside those before it, which can be met together. What was taken for
// them is kept as long as a target of the next part can be added to it; else the part's group is
// searched.
fn is_next_met<'a>(
    alloc: Global,
    scene: &Scene<'a>,
    candidates: &[List<usize>],
    links: (&[List<usize>], &[List<usize>]),
    k: usize,
    kept: &mut Option<Choice<'a>>,
) -> Result<bool, NoMemory>
    requires within { k < length scene.now.parts.now }
    requires candidates { AreAllCandidates scene.now.instances.now scene.now.state.now scene.now.sorts.now scene.now.parts.now candidates.now }
    requires variables { AreLinks (map variable_keys scene.now.parts.now) links.0.now }
    requires strands { AreLinks (map strand_keys scene.now.parts.now) links.1.now }
    requires before { HasChoice scene.now.instances.now scene.now.state.now scene.now.sorts.now scene.now.parts.now (λ i. i < k) }
    requires kept { IfSome kept.old (IsKept scene.now.instances.now scene.now.state.now scene.now.sorts.now (take k scene.now.parts.now)) }
    ensures met { IfOk result (λ b. IsTrue b → HasChoice scene.now.instances.now scene.now.state.now scene.now.sorts.now scene.now.parts.now (λ i. i < k + 1)) }
    ensures missed { IfOk result (λ b. b ≡ false → IsMost scene.now.instances.now scene.now.state.now scene.now.sorts.now scene.now.parts.now [] [] k) }
    ensures kept { IfOk result (λ b. IfSome kept.new (IsKept scene.now.instances.now scene.now.state.now scene.now.sorts.now (take (k + 1) scene.now.parts.now))) }
{
    if let Some(choice) = kept {
        let part = &scene.parts[k];
        if let Some(more) = serve(alloc, scene, part, candidates[k].as_slice(), choice)? {
            *kept = Some(more);
            return Ok(true);
        }
    }
    *kept = None;
    let places = group(alloc, links.0, links.1, k)?;
    is_group_met(alloc, scene, candidates, places.as_slice())
}

// A choice by a further target for a part, the first of its candidates that can be added.
fn serve<'a>(
    alloc: Global,
    scene: &Scene<'a>,
    part: &'a Part,
    candidates: &[usize],
    choice: &Choice<'a>,
) -> Result<Option<Choice<'a>>, NoMemory>
    requires { IsHeld scene.now.sorts.now choice.now }
    ensures held { IfOk result (λ found. IfSome found (λ more. IsHeld scene.now.sorts.now more)) }
    ensures served { IfOk result (λ found. IfSome found (IsServed scene.now.instances.now scene.now.state.now part.now candidates.now choice.now)) }
{
    for place in candidates {
        if let Some(more) = take_target(alloc, scene, part, *place, choice)? {
            return Ok(Some(more));
        }
    }
    Ok(None)
}

// Whether the parts at these places can be met.
fn is_group_met(
    alloc: Global,
    scene: &Scene<'_>,
    candidates: &[List<usize>],
    places: &[usize],
) -> Result<bool, NoMemory>
    requires places { (i : ℕ) → Contains places.now i → i < length scene.now.parts.now }
    requires different { AreDifferent places.now }
    requires candidates { AreAllCandidates scene.now.instances.now scene.now.state.now scene.now.sorts.now scene.now.parts.now candidates.now }
    ensures met { IfOk result (λ b. IsTrue b → Can scene.now.instances.now scene.now.state.now (HasMatch scene.now.sorts.now) (picked scene.now.parts.now places.now) [] []) }
    ensures missed { IfOk result (λ b. b ≡ false → Can scene.now.instances.now scene.now.state.now (HasMatch scene.now.sorts.now) (picked scene.now.parts.now places.now) [] [] → ⊥) }
{
    if !has_room(scene, candidates, places) {
        return Ok(false);
    }
    let choice = Choice::new(alloc);
    are_met(alloc, scene, candidates, places, &choice)
}

// Whether the parts at these places can be met beside the targets that are taken. It goes over the
// candidates of a part that has few of them left, and for each over those of the others.
fn are_met<'a>(
    alloc: Global,
    scene: &Scene<'a>,
    candidates: &[List<usize>],
    places: &[usize],
    choice: &Choice<'a>,
) -> Result<bool, NoMemory>
    requires places { (i : ℕ) → Contains places.now i → i < length scene.now.parts.now }
    requires different { AreDifferent places.now }
    requires candidates { AreAllCandidates scene.now.instances.now scene.now.state.now scene.now.sorts.now scene.now.parts.now candidates.now }
    requires held { IsHeld scene.now.sorts.now choice.now }
    ensures met { IfOk result (λ b. IsTrue b → Can scene.now.instances.now scene.now.state.now (HasMatch scene.now.sorts.now) (picked scene.now.parts.now places.now) choice.now.used (read_pairs choice.now.pairs)) }
    ensures missed { IfOk result (λ b. b ≡ false → Can scene.now.instances.now scene.now.state.now (HasMatch scene.now.sorts.now) (picked scene.now.parts.now places.now) choice.now.used (read_pairs choice.now.pairs) → ⊥) }
{
    if places.is_empty() {
        return Ok(true);
    }
    let Some(first) = narrowest(alloc, scene, candidates, places, choice)? else {
        return Ok(false);
    };
    let k = place_at(scene, candidates, places, first);
    let others = others(alloc, places, first)?;
    let rest = others.as_slice();
    for target in candidates[k].as_slice() {
        if let Some(more) = take_target(alloc, scene, &scene.parts[k], *target, choice)? {
            if are_met(alloc, scene, candidates, rest, &more)? {
                return Ok(true);
            }
        }
    }
    Ok(false)
}

// The places without the one that stands at `at`.
fn others(alloc: Global, places: &[usize], at: usize) -> Result<List<usize>, NoMemory>
    requires within { at < length places.now }
    requires different { AreDifferent places.now }
    ensures value { IfOk result (λ others. others ≡ take at places.now ++ drop (at + 1) places.now) }
    ensures shorter { IfOk result (λ others. length others < length places.now) }
    ensures different { IfOk result (λ others. AreDifferent others) }
    ensures among { IfOk result (λ others. (i : ℕ) → Contains others i → Contains places.now i) }
{
    let others = without(alloc, places, at)?;
    Ok(others)
}

// The numbers without the one that stands at `at`.
#[tactic(auto, using(crate::proofs::Removing::rest_of))]
fn without(alloc: Global, numbers: &[usize], at: usize) -> Result<List<usize>, NoMemory>
    requires { at < length numbers.now }
    ensures { IfOk result (λ others. others ≡ take at numbers.now ++ drop (at + 1) numbers.now) }
{
    let mut others = List::from_slice(alloc, &numbers[..at])?;
    others.extend_from_slice(&numbers[at + 1..])?;
    Ok(others)
}

// Where among the places a part stands that has the fewest candidates that can be taken, as far as
// they are counted. `None` comes where a part has none.
fn narrowest<'a>(
    alloc: Global,
    scene: &Scene<'a>,
    candidates: &[List<usize>],
    places: &[usize],
    choice: &Choice<'a>,
) -> Result<Option<usize>, NoMemory>
    requires some { 0 < length places.now }
    requires held { IsHeld scene.now.sorts.now choice.now }
    requires places { (i : ℕ) → Contains places.now i → i < length scene.now.parts.now }
    requires different { AreDifferent places.now }
    requires candidates { AreAllCandidates scene.now.instances.now scene.now.state.now scene.now.sorts.now scene.now.parts.now candidates.now }
    ensures closed { IfOk result (λ first. first ≡ None → Can scene.now.instances.now scene.now.state.now (HasMatch scene.now.sorts.now) (picked scene.now.parts.now places.now) choice.now.used (read_pairs choice.now.pairs) → ⊥) }
    ensures within { IfOk result (λ first. IfSome first (λ at. at < length places.now)) }
{
    let mut first = 0;
    let mut least = MANY;
    for at in 0..places.len() {
        let k = place_at(scene, candidates, places, at);
        let count = count_open(
            alloc,
            scene,
            &scene.parts[k],
            candidates[k].as_slice(),
            least,
            choice,
        )?;
        if count == 0 {
            return Ok(None);
        }
        if count < least {
            first = at;
            least = count;
        }
    }
    Ok(Some(first))
}

// How many of the candidates of a part can be taken, counted up to `most`.
fn count_open<'a>(
    alloc: Global,
    scene: &Scene<'a>,
    part: &'a Part,
    candidates: &[usize],
    most: usize,
    choice: &Choice<'a>,
) -> Result<usize, NoMemory>
    requires some { 0 < most }
    requires held { IsHeld scene.now.sorts.now choice.now }
    ensures none { IfOk result (λ count. count ≡ 0 → (n : ℕ) → Contains candidates.now n → IsOpen scene.now.instances.now scene.now.state.now scene.now.sorts.now choice.now.used (read_pairs choice.now.pairs) part.now n → ⊥) }
    ensures some { IfOk result (λ count. count ≤ most) }
{
    let mut count = 0;
    for place in candidates {
        if count == most {
            return Ok(count);
        }
        if is_open(alloc, scene, part, *place, choice)? {
            count += 1;
        }
    }
    Ok(count)
}
