ghost use Rattle.std.specs.Prelude.{◌≡◌, ◌↔◌, ℕ, false, Contains, IsTrue, IfOk};
ghost use Rattle.npa_sig.specs.Operators.{HaveSorts};
ghost use Rattle.npa_sig.specs.WellFormed.{AreSorts};
ghost use Rattle.npa_replay.specs.Choices.{HasGroundTerm, HaveGroundTerms};

use npa_sig::{LeastFail, Sig};
use npa_term::NoMemory;
use std::alloc::Global;

/// Whether there is a well-sorted ground term of each of these sorts.
pub(crate) fn have_ground_terms(alloc: Global, sig: &Sig, sorts: &[u16]) -> Result<bool, NoMemory>
    requires signature { HaveSorts sig.now.sorts sig.now.ops }
    requires sorts { AreSorts sig.now sorts.now }
    ensures all { IfOk result (λ have. IsTrue have → HaveGroundTerms sig.now sorts.now) }
    ensures none { IfOk result (λ have. have ≡ false → HaveGroundTerms sig.now sorts.now → ⊥) }
{
    for sort in 0..sig.sorts().declared() + 2 {
        if is_wanting(alloc, sig, sorts, sort)? {
            return Ok(false);
        }
    }
    Ok(true)
}

// Whether the sort is one of these and has no ground term.
fn is_wanting(alloc: Global, sig: &Sig, sorts: &[u16], sort: u16) -> Result<bool, NoMemory>
    requires signature { HaveSorts sig.now.sorts sig.now.ops }
    ensures wanting { IfOk result (λ wanting. IsTrue wanting → HaveGroundTerms sig.now sorts.now → ⊥) }
    ensures other { IfOk result (λ wanting. wanting ≡ false → Contains sorts.now sort → HasGroundTerm sig.now sort) }
{
    if !stands_among(sorts, sort) {
        return Ok(false);
    }
    match sig.least(alloc, sort) {
        Ok(None) => Ok(true),
        Ok(Some(_)) => Ok(false),
        Err(LeastFail::Past(_)) => Ok(false),
        Err(LeastFail::NoMemory) => Err(NoMemory),
    }
}

// Whether the sort is one of these.
fn stands_among(sorts: &[u16], sort: u16) -> bool
    ensures { IsTrue result ↔ Contains sorts.now sort }
{
    sorts.contains(&sort)
}
