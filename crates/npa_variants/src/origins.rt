ghost use Rattle.std.specs.Prelude.{◌≡◌, IfOk, find, flat_map, get_or, length, map, false};
ghost use Rattle.npa_term.specs.Computed.{is_same};
ghost use Rattle.npa_term.specs.Numbering.{is_listed};
ghost use Rattle.npa_term.specs.Variables.{variables};
ghost use Rattle.npa_term.specs.declared.term.Term.TheVariants.{Var as Variable};
ghost use Rattle.npa_sig.specs.Parameters.{param_sorts};
ghost use Rattle.npa_variants.specs.Origination.{in_order, is_received, origin_fault, row_fault};
ghost use Rattle.npa_variants.specs.Origins.{fails_in, originates_in};
ghost use Rattle.npa_variants.specs.Rows.{is_among};

use crate::variant::Variant;
use npa_sig::{Event, Strand};
use npa_term::{NoMemory, Term, Var, numbering};
use std::alloc::Global;

/// The first of the variants, counted from 0, in whose messages a variable doesn't originate: it is no
/// value of a fresh parameter, its sort carries names, and it doesn't occur first in a received
/// message. With it comes the first such variable, in the order of the values and then the messages,
/// with its number in that order. The variants are of the strand's parameters and then its messages.
pub(crate) fn origin_fault(
    alloc: Global,
    marks: &[bool],
    strand: &Strand,
    variants: &[Variant],
) -> Result<Option<(usize, Var)>, NoMemory>
    ensures { IfOk result (λ fault. fault
        ≡ origin_fault marks.now (length (param_sorts strand.now)) strand.now 0
        (map (λ v. v.terms) variants.now)) }
{
    for at in 0..variants.len() {
        let row = variants[at].terms.as_slice();
        if let Some(var) = row_fault(marks, strand, row) {
            return Ok(Some((at, in_order(alloc, row, var)?)));
        }
    }
    Ok(None)
}

// The variable of a row with its number in the order in which the variables of the row first occur.
fn in_order(alloc: Global, row: &[Term], var: Var) -> Result<Var, NoMemory>
    ensures { IfOk result (λ v. v ≡ in_order row.now var) }
{
    let numbers = numbering(alloc, row)?;
    match numbers.get(var) {
        Some(Term::Var(v)) => Ok(*v),
        _ => Ok(var),
    }
}

// The first variable of a row that occurs in a message and doesn't originate.
fn row_fault(marks: &[bool], strand: &Strand, row: &[Term]) -> Option<Var>
    ensures { result ≡ row_fault marks.now (length (param_sorts strand.now)) strand.now row.now }
{
    let own = strand.vars.len().min(row.len());
    let behind = &row[own..];
    let count = (strand.fresh as usize).min(behind.len());
    let fresh = &behind[..count];
    let messages = &behind[count..];
    fault_in(row, marks, strand.events.as_slice(), fresh, messages)
}

// The first variable in some terms that occurs in a message and doesn't originate.
#[cycle(faults)]
fn fault_in(
    terms: &[Term],
    marks: &[bool],
    events: &[Event],
    fresh: &[Term],
    messages: &[Term],
) -> Option<Var>
    ensures { result ≡ find (fails_in marks.now events.now fresh.now messages.now)
        (flat_map variables terms.now) }
{
    for t in terms {
        if let Some(var) = term_fault(t, marks, events, fresh, messages) {
            return Some(var);
        }
    }
    None
}

// The first such variable in a term.
#[cycle(faults)]
fn term_fault(
    t: &Term,
    marks: &[bool],
    events: &[Event],
    fresh: &[Term],
    messages: &[Term],
) -> Option<Var>
    ensures { result ≡ find (fails_in marks.now events.now fresh.now messages.now)
        (variables t.now) }
{
    match t {
        Term::Var(v) => {
            if fails(marks, events, fresh, messages, *v) {
                return Some(*v);
            }
            None
        }
        Term::Name(_) => None,
        Term::App(_, args) => fault_in(args.as_slice(), marks, events, fresh, messages),
    }
}

// Whether a variable occurs in a message and doesn't originate.
fn fails(marks: &[bool], events: &[Event], fresh: &[Term], messages: &[Term], v: Var) -> bool
    ensures { result ≡ fails_in marks.now events.now fresh.now messages.now v }
{
    occurs_in(messages, v) && !originates(marks, events, fresh, messages, v)
}

// Whether a variable originates.
fn originates(marks: &[bool], events: &[Event], fresh: &[Term], messages: &[Term], v: Var) -> bool
    ensures { result ≡ originates_in marks.now events.now fresh.now messages.now v }
{
    is_value(fresh, v) || !is_marked(marks, v.sort) || is_received(v, events, messages)
}

// Whether a sort has a mark.
fn is_marked(marks: &[bool], sort: u16) -> bool
    ensures { result ≡ get_or marks.now sort false }
{
    match marks.get(sort as usize) {
        Some(marked) => *marked,
        None => false,
    }
}

// Whether one of these values is the variable.
fn is_value(values: &[Term], v: Var) -> bool
    ensures { result ≡ is_among values.now (Variable v) }
{
    for t in values {
        if is_variable(t, v) {
            return true;
        }
    }
    false
}

fn is_variable(t: &Term, v: Var) -> bool
    ensures { result ≡ is_same (Variable v) t.now }
{
    match t {
        Term::Var(w) => v == *w,
        _ => false,
    }
}

// Whether the first message in which the variable occurs is a received one.
fn is_received(v: Var, events: &[Event], messages: &[Term]) -> bool
    ensures { result ≡ is_received v events.now messages.now }
{
    let shorter = events.len().min(messages.len());
    for i in 0..shorter {
        if occurs(&messages[i], v) {
            return !events[i].sent;
        }
    }
    false
}

// Whether the variable occurs in a term.
#[cycle(occurrences)]
fn occurs(t: &Term, v: Var) -> bool
    ensures { result ≡ is_listed (variables t.now) v }
{
    match t {
        Term::Var(w) => *w == v,
        Term::Name(_) => false,
        Term::App(_, args) => occurs_in(args.as_slice(), v),
    }
}

// Whether it occurs in some of these terms.
#[cycle(occurrences)]
fn occurs_in(ts: &[Term], v: Var) -> bool
    ensures { result ≡ is_listed (flat_map variables ts.now) v }
{
    for t in ts {
        if occurs(t, v) {
            return true;
        }
    }
    false
}
