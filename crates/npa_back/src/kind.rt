ghost use Rattle.std.specs.Prelude.{◌≡◌, IfOk};
ghost use Rattle.npa_back.specs.Told.{rule_of};

use npa_list::List;
use npa_moves::Rule;
use npa_term::NoMemory;
use std::alloc::Global;

/// The kind of a step, without the places of the facts that get known by it.
#[derive(Debug, Clone, Copy)]
pub(crate) enum Kind {
    Receive(u16),
    Send(u16),
    Learn(u16),
    /// A strand's number, its variant and its event.
    Introduce(u16, u16, u16),
}

/// The rule of a step of a kind, by which the facts at these places get known.
pub(crate) fn rule_of(alloc: Global, kind: Kind, places: &[u32]) -> Result<Rule, NoMemory>
    ensures { IfOk result (λ rule. rule ≡ rule_of kind places.now) }
{
    match kind {
        Kind::Receive(strand) => Ok(Rule::Receive { strand }),
        Kind::Send(strand) => Ok(Rule::Send { strand }),
        Kind::Learn(strand) => Ok(Rule::Learn {
            strand,
            facts: List::from_slice(alloc, places)?,
        }),
        Kind::Introduce(strand, variant, event) => Ok(Rule::Introduce {
            strand,
            variant,
            event,
            facts: List::from_slice(alloc, places)?,
        }),
    }
}
