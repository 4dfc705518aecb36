ghost use Rattle.std.specs.Prelude.{◌≡◌, ◌<◌, false, length, IsTrue};
ghost use Rattle.npa_sorts.specs.Subsorts.{Subsorts};
ghost use Rattle.npa_choice.specs.Choices.{HasChoice};
ghost use Rattle.npa_choice.specs.Room.{AreBound, HasPlace};

use crate::offer::{Offer, Offers};

/// An early answer without memory, since different askers take different places: for each asker,
/// whether it has at least as many offers as there are askers who take no place but those that it may
/// take. Without it a search would try all orders of too few places.
pub(crate) fn has_room(askers: &[Offers<'_>]) -> bool
    ensures { result ≡ false → (o : Subsorts) → HasChoice o askers.now → ⊥ }
{
    for own in askers {
        let room = own.as_slice();
        // Fewer askers than offers are never too many.
        if room.len() < askers.len() && room.len() < count_bound(askers, room) {
            return false;
        }
    }
    true
}

// How many of the askers can take places of these offers alone.
fn count_bound(askers: &[Offers<'_>], room: &[Offer<'_>]) -> usize
    ensures { length room.now < result → (o : Subsorts) → HasChoice o askers.now → ⊥ }
{
    let mut count = 0;
    for offers in askers {
        if are_bound(offers.as_slice(), room) {
            count += 1;
        }
    }
    count
}

// Whether each of the offers takes a place that one of the others takes too, which is only tried
// where there are no more of them.
fn are_bound(offers: &[Offer<'_>], room: &[Offer<'_>]) -> bool
    ensures { IsTrue result → AreBound offers.now room.now }
{
    if room.len() < offers.len() {
        return false;
    }
    for offer in offers {
        if !has_place(room, offer.place) {
            return false;
        }
    }
    true
}

// Whether there is a place, and one of the offers takes it.
fn has_place(offers: &[Offer<'_>], place: Option<usize>) -> bool
    ensures { IsTrue result → HasPlace offers.now place }
{
    let Some(place) = place else {
        return false;
    };
    for offer in offers {
        if offer.place == Some(place) {
            return true;
        }
    }
    false
}
