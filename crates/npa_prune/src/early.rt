ghost use Rattle.std.specs.Prelude.{◌≡◌, ◌↔◌, IsTrue, Contains, take};
ghost use Rattle.npa_term.specs.declared.term.Term.{Term as Tree};
ghost use Rattle.npa_term.specs.Parts.{IsPart};
ghost use Rattle.npa_model.specs.declared.pattern.PStrand.{PStrand as Role};
ghost use Rattle.npa_model.specs.Patterns.{events_at};
ghost use Rattle.npa_prune.specs.Pruned.{IsEarly, IsHeard, IsPartOfOne, IsSilent};

use crate::fresh::fresh_args;
use npa_model::{PStrand, Pattern};
use npa_sig::{Event, Protocol};
use npa_term::{Term, same};

/// Whether the value of a fresh parameter stands in a known fact or in an executed message, though its
/// strand has sent nothing.
pub(crate) fn is_early(protocol: &Protocol, g: &Pattern) -> bool
    ensures { IsTrue result ↔ IsEarly protocol.now.strands g.now }
{
    for p in g.strands.as_slice() {
        if is_silent(protocol, p) && is_one_heard(g, fresh_args(protocol, p)) {
            return true;
        }
    }
    false
}

// Whether a strand of a pattern has sent nothing.
fn is_silent(protocol: &Protocol, p: &PStrand) -> bool
    ensures { IsTrue result ↔ IsSilent protocol.now.strands p.now }
{
    for event in executed(protocol, p) {
        if event.sent {
            return false;
        }
    }
    true
}

// The events before the bar.
fn executed<'a>(protocol: &'a Protocol, p: &PStrand) -> &'a [Event]
    ensures { result.now ≡ take p.now.bar (events_at protocol.now.strands p.now.strand) }
{
    match protocol.strands.get(p.strand as usize) {
        Some(strand) => {
            let events = strand.events.as_slice();
            &events[..events.len().min(p.bar as usize)]
        }
        None => &[],
    }
}

// Whether one of the values is heard.
fn is_one_heard(g: &Pattern, values: &[Term]) -> bool
    ensures { IsTrue result ↔ ((t : Tree) × Contains values.now t × IsHeard g.now t) }
{
    for value in values {
        if is_heard(g, value) {
            return true;
        }
    }
    false
}

// Whether a term stands in a known fact or in an executed message.
fn is_heard(g: &Pattern, t: &Term) -> bool
    ensures { IsTrue result ↔ IsHeard g.now t.now }
{
    have_part(g.known.as_slice(), t) || is_in_message(g.strands.as_slice(), t)
}

// Whether a term stands in a message of one of the strands.
fn is_in_message(strands: &[PStrand], t: &Term) -> bool
    ensures { IsTrue result ↔ ((p : Role) × Contains strands.now p × IsPartOfOne p.msgs t.now) }
{
    for p in strands {
        if have_part(p.msgs.as_slice(), t) {
            return true;
        }
    }
    false
}

// Whether a term is a part of one of these.
#[cycle(parts)]
fn have_part(terms: &[Term], t: &Term) -> bool
    ensures { IsTrue result ↔ IsPartOfOne terms.now t.now }
{
    for u in terms {
        if has_part(u, t) {
            return true;
        }
    }
    false
}

// Whether a term is a part of another.
#[cycle(parts)]
fn has_part(u: &Term, t: &Term) -> bool
    ensures { IsTrue result ↔ IsPart t.now u.now }
{
    if same(t, u) {
        return true;
    }
    match u {
        Term::App(_, args) => have_part(args.as_slice(), t),
        _ => false,
    }
}
