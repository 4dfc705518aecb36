ghost use Rattle.std.specs.Prelude.{◌≡◌};
ghost use Rattle.std.specs.Option.{option_copied};
ghost use Rattle.npa_moves.specs.Moves.{is_receive, is_send, last_event};

use npa_model::PStrand;
use npa_sig::{Event, Strand};
use npa_variants::Ready;

/// Whether the event directly before a strand's bar receives.
pub(crate) fn received_last(ready: &Ready, p: &PStrand) -> bool
    ensures { result ≡ is_receive (last_event ready.now.strands p.now) }
{
    match last_event(ready.protocol().strands.as_slice(), p) {
        Some(event) => !event.sent,
        None => false,
    }
}

/// Whether it sends.
pub(crate) fn sent_last(ready: &Ready, p: &PStrand) -> bool
    ensures { result ≡ is_send (last_event ready.now.strands p.now) }
{
    match last_event(ready.protocol().strands.as_slice(), p) {
        Some(event) => event.sent,
        None => false,
    }
}

fn last_event<'a>(strands: &'a [Strand], p: &PStrand) -> Option<&'a Event>
    ensures { option_copied result ≡ last_event strands.now p.now }
{
    let before = p.bar.checked_sub(1)?;
    strands.get(p.strand as usize)?.events.get(before as usize)
}
