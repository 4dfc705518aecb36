ghost use Rattle.std.specs.Prelude.{◌≡◌, ◌&&◌, IfOk};
ghost use Rattle.npa_model.specs.Fitting.{is_fit};
ghost use Rattle.npa_folding.specs.Folding.{covers_item};

use npa_model::{Pattern, is_fit};
use npa_sig::Protocol;
use npa_subsume::covers;
use npa_term::NoMemory;
use npa_variants::Ready;
use std::alloc::Global;

/// Whether pattern `t` covers pattern `s` in a search over the protocol: where both fit the protocol
/// the same as `covers`, and otherwise whether they are equal.
pub fn covers_item(alloc: Global, ready: &Ready, t: &Pattern, s: &Pattern) -> Result<bool, NoMemory>
    ensures { IfOk result (λ yes. yes ≡ covers_item ready.now t.now s.now) }
{
    let protocol = ready.protocol();
    // A pattern covers itself, so where this says no they aren't equal either.
    if !covers(alloc, protocol.sig.sorts(), t, s)? {
        return Ok(false);
    }
    if are_fit(alloc, protocol, t, s)? {
        return Ok(true);
    }
    Ok(t.same(s))
}

// Whether both patterns fit the protocol.
fn are_fit(alloc: Global, protocol: &Protocol, t: &Pattern, s: &Pattern) -> Result<bool, NoMemory>
    ensures { IfOk result (λ both. both ≡ (is_fit protocol.now t.now && is_fit protocol.now s.now)) }
{
    if !is_fit(alloc, protocol, t)? {
        return Ok(false);
    }
    is_fit(alloc, protocol, s)
}
