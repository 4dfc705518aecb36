ghost use Rattle.std.specs.Prelude.{◌≡◌, ◌<◌, ◌^◌, ◌↔◌, ℕ, [], ◌∷◌, length, slice_index, zip, Contains, IfOk, IsTrue};
ghost use Rattle.npa_match.specs.Matching.{read_pairs};
ghost use Rattle.npa_replay.specs.Choices.{AreAllCandidates, IsAt, IsTarget, target_pairs};
ghost use Rattle.npa_model.specs.State.{done_of};

use npa_list::List;
use npa_model::{Instances, Part, RunState};
use npa_sorts::Sorts;
use npa_term::{NoMemory, Term};
use std::alloc::Global;

/// What the parts of an aim are met by: the instances of a run, and the state in which it ends.
#[derive(Clone, Copy)]
pub(crate) struct Scene<'a> {
    pub sorts: &'a Sorts,
    pub instances: &'a Instances,
    pub state: &'a RunState,
    pub parts: &'a [Part],
}

/// Whether a number is that of a target of the part: of an instance of its strand that has
/// executed as many events as its bar says, or the place of a sent term.
pub(crate) fn is_target(scene: &Scene<'_>, part: &Part, place: usize) -> bool
    requires few { length scene.now.instances.now < 2 ^ 32 }
    requires counted { length scene.now.state.now.executed ≡ length scene.now.instances.now }
    ensures { IsTrue result ↔ IsTarget scene.now.instances.now scene.now.state.now part.now place }
{
    match part {
        Part::Known(_) => place < scene.state.sent().len(),
        Part::Strand { strand, bar, .. } => stands_at(scene, *strand, *bar, place),
    }
}

// Whether the instance is one of the strand that has executed so many events.
fn stands_at(scene: &Scene<'_>, strand: u16, bar: u16, place: usize) -> bool
    requires few { length scene.now.instances.now < 2 ^ 32 }
    requires counted { length scene.now.state.now.executed ≡ length scene.now.instances.now }
    ensures { IsTrue result ↔ IsAt scene.now.instances.now scene.now.state.now strand bar place }
{
    match scene.instances.get(place) {
        Some(instance) => instance.strand == strand && has_executed(scene.state, place, bar),
        None => false,
    }
}

// Whether the instance has executed so many events.
fn has_executed(state: &RunState, place: usize, bar: u16) -> bool
    requires few { place < 2 ^ 32 }
    requires within { place < length state.now.executed }
    ensures { IsTrue result ↔ (done_of state.now place ≡ bar) }
{
    state.executed(place as u32) == Some(bar)
}

/// One of the places, which is that of a part and of its candidates.
#[tactic(auto, using(crate::proofs::Searching::inside_at))]
pub(crate) fn place_at(
    scene: &Scene<'_>,
    candidates: &[List<usize>],
    places: &[usize],
    at: usize,
) -> usize
    requires within { at < length places.now }
    requires places { (i : ℕ) → Contains places.now i → i < length scene.now.parts.now }
    requires candidates { AreAllCandidates scene.now.instances.now scene.now.state.now scene.now.sorts.now scene.now.parts.now candidates.now }
    ensures value { result ≡ slice_index places.now at }
    ensures part { result < length scene.now.parts.now }
    ensures candidates { result < length candidates.now }
{
    places[at]
}

/// The pairs of terms that are to be equal where the part is met by the target.
pub(crate) fn pairs_at<'a>(
    alloc: Global,
    scene: &Scene<'a>,
    part: &'a Part,
    place: usize,
) -> Result<List<(&'a Term, &'a Term)>, NoMemory>
    ensures { IfOk result (λ pairs. read_pairs pairs ≡ target_pairs scene.now.instances.now scene.now.state.now part.now place) }
{
    match part {
        Part::Known(t) => match scene.state.sent().get(place) {
            Some(u) => one_pair(alloc, t, u),
            None => Ok(List::new(alloc)),
        },
        Part::Strand { args, .. } => match scene.instances.get(place) {
            Some(instance) => pairs_of(alloc, args.as_slice(), instance.args.as_slice()),
            None => Ok(List::new(alloc)),
        },
    }
}

// One pair.
fn one_pair<'a>(
    alloc: Global,
    t: &'a Term,
    u: &'a Term,
) -> Result<List<(&'a Term, &'a Term)>, NoMemory>
    ensures { IfOk result (λ pairs. read_pairs pairs ≡ (t.now, u.now) ∷ []) }
{
    let mut pairs = List::new(alloc);
    pairs.push((t, u))?;
    Ok(pairs)
}

// A pair for each place that both lists have.
#[tactic(auto, using(crate::proofs::Members::all_added))]
fn pairs_of<'a>(
    alloc: Global,
    ts: &'a [Term],
    us: &'a [Term],
) -> Result<List<(&'a Term, &'a Term)>, NoMemory>
    ensures { IfOk result (λ pairs. read_pairs pairs ≡ zip ts.now us.now) }
{
    let mut pairs = List::new(alloc);
    for i in 0..ts.len().min(us.len()) {
        pairs.push((&ts[i], &us[i]))?;
    }
    Ok(pairs)
}
