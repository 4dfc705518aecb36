ghost use Rattle.std.specs.Prelude.{◌≡◌, IfOk};

use npa_list::List;
use npa_model::{Aim, Aims, Part, Parts};
use npa_sig::{Event, Events, Protocol, Sig, Strand, Strands, copy_equations};
use npa_term::{NoMemory, copy, copy_all};
use npa_text::{Name, Names};
use std::alloc::Global;

/// The same protocol. It takes memory for each of its parts.
pub(crate) fn copy_protocol(alloc: Global, protocol: &Protocol) -> Result<Protocol, NoMemory>
    ensures { IfOk result (λ copy. copy ≡ protocol.now) }
{
    Ok(Protocol {
        sig: copy_sig(alloc, &protocol.sig)?,
        equations: copy_equations(alloc, protocol.equations.as_slice())?,
        strands: copy_strands(alloc, protocol.strands.as_slice())?,
    })
}

fn copy_sig(alloc: Global, sig: &Sig) -> Result<Sig, NoMemory>
    ensures { IfOk result (λ copy. copy ≡ sig.now) }
{
    sig.copy(alloc).map_err(|_| NoMemory)
}

fn copy_strands(alloc: Global, strands: &[Strand]) -> Result<Strands, NoMemory>
    ensures { IfOk result (λ copies. copies ≡ strands.now) }
{
    let mut copies = Vec::with_capacity(alloc, strands.len())?;
    for strand in strands {
        copies.push(copy_strand(alloc, strand)?)?;
    }
    Ok(List::from_vec(copies))
}

fn copy_strand(alloc: Global, strand: &Strand) -> Result<Strand, NoMemory>
    ensures { IfOk result (λ copy. copy ≡ strand.now) }
{
    Ok(Strand {
        name: List::from_slice(alloc, strand.name.as_slice())?,
        intruder: strand.intruder,
        vars: List::from_slice(alloc, strand.vars.as_slice())?,
        fresh: strand.fresh,
        names: copy_names(alloc, strand.names.as_slice())?,
        events: copy_events(alloc, strand.events.as_slice())?,
    })
}

fn copy_names(alloc: Global, names: &[Name]) -> Result<Names, NoMemory>
    ensures { IfOk result (λ copies. copies ≡ names.now) }
{
    let mut copies = Vec::with_capacity(alloc, names.len())?;
    for name in names {
        copies.push(List::from_slice(alloc, name.as_slice())?)?;
    }
    Ok(List::from_vec(copies))
}

fn copy_events(alloc: Global, events: &[Event]) -> Result<Events, NoMemory>
    ensures { IfOk result (λ copies. copies ≡ events.now) }
{
    let mut copies = Vec::with_capacity(alloc, events.len())?;
    for event in events {
        copies.push(copy_event(alloc, event)?)?;
    }
    Ok(List::from_vec(copies))
}

fn copy_event(alloc: Global, event: &Event) -> Result<Event, NoMemory>
    ensures { IfOk result (λ copy. copy ≡ event.now) }
{
    Ok(Event {
        sent: event.sent,
        msg: copy(alloc, &event.msg)?,
    })
}

/// The same aims. It takes memory for each of them.
pub(crate) fn copy_aims(alloc: Global, aims: &[Aim]) -> Result<Aims, NoMemory>
    ensures { IfOk result (λ copies. copies ≡ aims.now) }
{
    let mut copies = Vec::with_capacity(alloc, aims.len())?;
    for aim in aims {
        copies.push(copy_aim(alloc, aim)?)?;
    }
    Ok(List::from_vec(copies))
}

fn copy_aim(alloc: Global, aim: &Aim) -> Result<Aim, NoMemory>
    ensures { IfOk result (λ copy. copy ≡ aim.now) }
{
    Ok(Aim {
        name: List::from_slice(alloc, aim.name.as_slice())?,
        sorts: List::from_slice(alloc, aim.sorts.as_slice())?,
        parts: copy_parts(alloc, aim.parts.as_slice())?,
    })
}

fn copy_parts(alloc: Global, parts: &[Part]) -> Result<Parts, NoMemory>
    ensures { IfOk result (λ copies. copies ≡ parts.now) }
{
    let mut copies = Vec::with_capacity(alloc, parts.len())?;
    for part in parts {
        copies.push(copy_part(alloc, part)?)?;
    }
    Ok(List::from_vec(copies))
}

fn copy_part(alloc: Global, part: &Part) -> Result<Part, NoMemory>
    ensures { IfOk result (λ copy. copy ≡ part.now) }
{
    match part {
        Part::Strand { strand, bar, args } => Ok(Part::Strand {
            strand: *strand,
            bar: *bar,
            args: copy_all(alloc, args.as_slice())?,
        }),
        Part::Known(term) => Ok(Part::Known(copy(alloc, term)?)),
    }
}
