ghost use Rattle.std.specs.Prelude.{◌≡◌, ◌<◌, ◌≤◌, ℕ, [], ◌∷◌, length, slice_index, Contains, IfOk, OnOk};
ghost use Rattle.npa_replay.specs.Groups.{HasLinked, IsClosed, IsGrown};
ghost use Rattle.npa_list.specs.Different.{AreDifferent};

use crate::choice::holds;
use npa_list::List;
use npa_term::NoMemory;
use std::alloc::Global;

/// The place `k` and the places before it that are linked to it, directly or through others of
/// them. It stands first, then come those that are linked by variables, then what the links by
/// strands add.
pub(crate) fn group(
    alloc: Global,
    by_variable: &[List<usize>],
    by_strand: &[List<usize>],
    k: usize,
) -> Result<List<usize>, NoMemory>
    requires variables { k < length by_variable.now }
    requires strands { k < length by_strand.now }
    ensures first { IfOk result (λ places. Contains places k) }
    ensures within { IfOk result (λ places. (i : ℕ) → Contains places i → i ≤ k) }
    ensures different { IfOk result (λ places. AreDifferent places) }
    ensures shared { IfOk result (λ places. IsClosed by_variable.now k places) }
    ensures alike { IfOk result (λ places. IsClosed by_strand.now k places) }
{
    let mut places = List::new(alloc);
    places.push(k)?;
    // The members before these were gone through for their links of each kind.
    let mut shared = 0;
    let mut alike = 0;
    while alike < places.len() {
        if shared < places.len() {
            add_linked(&mut places, shared, by_variable, k)?;
            shared += 1;
        } else {
            add_linked(&mut places, alike, by_strand, k)?;
            alike += 1;
        }
    }
    Ok(places)
}

// Adds the places up to `k` to which one of the places is linked.
fn add_linked(
    places: &mut List<usize>,
    at: usize,
    links: &[List<usize>],
    k: usize,
) -> Result<(), NoMemory>
    requires there { at < length places.old }
    requires within { slice_index places.old at < length links.now }
    ensures grown { OnOk result (IsGrown k places.old places.new) }
    ensures linked { OnOk result (HasLinked links.now k places.new (slice_index places.old at)) }
{
    let place = places.as_slice()[at];
    add_all(places, links[place].as_slice(), k)
}

// Adds those of these places that are up to `k`.
fn add_all(places: &mut List<usize>, more: &[usize], k: usize) -> Result<(), NoMemory>
    ensures grown { OnOk result (IsGrown k places.old places.new) }
    ensures there { OnOk result ((i : ℕ) → Contains more.now i → i ≤ k → Contains places.new i) }
{
    for place in more {
        if *place <= k {
            add(places, *place)?;
        }
    }
    Ok(())
}

// Adds a place where it isn't there.
fn add(places: &mut List<usize>, place: usize) -> Result<(), NoMemory>
    ensures grown { OnOk result ((k : ℕ) → place ≤ k → IsGrown k places.old places.new) }
    ensures there { OnOk result (Contains places.new place) }
{
    if holds(places.as_slice(), place) {
        return Ok(());
    }
    places.push(place)?;
    Ok(())
}
