ghost use Rattle.std.specs.Prelude.{◌≡◌, ◌<◌, ◌≤◌, ℕ, [], ◌∷◌, false, length, slice_index, Contains, IsTrue};
ghost use Rattle.npa_match.specs.Matching.{HasMatch};
ghost use Rattle.npa_replay.specs.Choices.{AreAllCandidates, Can, picked, taken};
ghost use Rattle.npa_list.specs.Different.{AreDifferent};

use crate::choice::holds;
use crate::scene::{Scene, place_at};
use npa_list::List;
use npa_model::Part;

/// An early answer, since different strand parts take different instances: for each part, whether
/// it has at least as many candidates as there are strand parts at these places that have no
/// others. Without it a search would try all orders of too few instances.
pub(crate) fn has_room(scene: &Scene<'_>, candidates: &[List<usize>], places: &[usize]) -> bool
    requires places { (i : ℕ) → Contains places.now i → i < length scene.now.parts.now }
    requires different { AreDifferent places.now }
    requires candidates { AreAllCandidates scene.now.instances.now scene.now.state.now scene.now.sorts.now scene.now.parts.now candidates.now }
    ensures { result ≡ false → Can scene.now.instances.now scene.now.state.now (HasMatch scene.now.sorts.now) (picked scene.now.parts.now places.now) [] [] → ⊥ }
{
    for i in 0..places.len() {
        let k = place_at(scene, candidates, places, i);
        let room = candidates[k].as_slice();
        // Fewer places than candidates are never too many.
        if room.len() < places.len() && room.len() < count_bound(scene, candidates, places, room) {
            return false;
        }
    }
    true
}

// How many strand parts at these places have all their candidates among these.
fn count_bound(
    scene: &Scene<'_>,
    candidates: &[List<usize>],
    places: &[usize],
    room: &[usize],
) -> usize
    requires places { (i : ℕ) → Contains places.now i → i < length scene.now.parts.now }
    requires different { AreDifferent places.now }
    requires candidates { AreAllCandidates scene.now.instances.now scene.now.state.now scene.now.sorts.now scene.now.parts.now candidates.now }
    ensures { length room.now < result → Can scene.now.instances.now scene.now.state.now (HasMatch scene.now.sorts.now) (picked scene.now.parts.now places.now) [] [] → ⊥ }
{
    let mut count = 0;
    for i in 0..places.len() {
        let k = place_at(scene, candidates, places, i);
        if is_bound(&scene.parts[k], candidates[k].as_slice(), room) {
            count += 1;
        }
    }
    count
}

// Whether it is a strand part that has all its candidates among these, which can only be where it
// has no more of them.
fn is_bound(part: &Part, candidates: &[usize], room: &[usize]) -> bool
    ensures takes { IsTrue result → (n : ℕ) → taken part.now n ≡ n ∷ [] }
    ensures among { IsTrue result → (n : ℕ) → Contains candidates.now n → Contains room.now n }
{
    match part {
        Part::Known(_) => false,
        Part::Strand { .. } => candidates.len() <= room.len() && are_among(candidates, room),
    }
}

// Whether all of the numbers are among others.
fn are_among(numbers: &[usize], others: &[usize]) -> bool
    ensures { IsTrue result → (n : ℕ) → Contains numbers.now n → Contains others.now n }
{
    for number in numbers {
        if !holds(others, *number) {
            return false;
        }
    }
    true
}
