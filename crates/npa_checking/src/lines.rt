ghost use Rattle.std.specs.Prelude.{◌≡◌, ◌++◌, Some, IfOk, OnOk};
ghost use Rattle.npa_checking.specs.Lines.{
  aim_name,
  conv_line,
  fail_line,
  limit_ground,
  limit_symbols,
  limit_unifiers,
  ready_line,
  refused_aim,
  refused_confluence,
  refused_equation,
  refused_inhabited,
};

use crate::strand_lines::{origin_line, variants_lines};
use crate::terms::put_terms;
use npa_close::CheckFail;
use npa_conv::ConvFail;
use npa_model::Aim;
use npa_module::Source;
use npa_outside::{Printed, put_counted, put_numbered};
use npa_sig::{Protocol, Sig};
use npa_term::{NoMemory, Term, copy};
use npa_variants::ReadyFail;
use std::alloc::Global;
use std::slice;

/// The line for a check of a module that fails, and the status: 3 where the module is refused, 7 where a
/// limit is passed. There is none for want of memory.
pub fn fail_line(alloc: Global, source: &Source, fail: &CheckFail) -> Result<Printed, NoMemory>
    ensures { IfOk result (λ a. fail_line source.now fail.now ≡ Some (a.text.items, a.status)) }
{
    let sig = &source.protocol.sig;
    match fail {
        CheckFail::Inhabited(sort) => inhabited_line(alloc, sig, *sort),
        CheckFail::Ground(sort, symbols) => ground_line(alloc, sig, *sort, *symbols),
        CheckFail::Conv(fail) => conv_line(alloc, sig, fail),
        CheckFail::Ready(fail) => ready_line(alloc, &source.protocol, fail),
        CheckFail::AimForm {
            aim,
            term,
            equation,
        } => aim_line(alloc, source, *aim, term, *equation),
        CheckFail::NoMemory => Err(NoMemory),
    }
}

// The line for a sort that has no ground term.
fn inhabited_line(alloc: Global, sig: &Sig, sort: u16) -> Result<Printed, NoMemory>
    ensures text { IfOk result (λ a. a.text.items ≡ refused_inhabited sig.now sort) }
    ensures status { IfOk result (λ a. a.status ≡ 3) }
{
    let mut text = Vec::from_slice(alloc, b"refused inhabited ")?;
    text.extend_from_slice(sig.sort_name(sort))?;
    text.extend_from_slice(b"\n")?;
    Ok(refused(text))
}

// The line for a sort that has no small ground term.
fn ground_line(alloc: Global, sig: &Sig, sort: u16, symbols: u64) -> Result<Printed, NoMemory>
    ensures text { IfOk result (λ a. a.text.items ≡ limit_ground sig.now sort symbols) }
    ensures status { IfOk result (λ a. a.status ≡ 7) }
{
    let mut text = Vec::new(alloc);
    put_counted(&mut text, b"limit ground ", sig.sort_name(sort), symbols)?;
    Ok(limited(text))
}

// The line for a theory that isn't shown to be convergent.
fn conv_line(alloc: Global, sig: &Sig, fail: &ConvFail) -> Result<Printed, NoMemory>
    ensures { IfOk result (λ a. conv_line sig.now fail.now ≡ Some (a.text.items, a.status)) }
{
    match fail {
        ConvFail::Shape(place) | ConvFail::SortUp(place) => equation_line(alloc, *place),
        ConvFail::Pair { from, left, right } => confluence_line(alloc, sig, from, left, right),
        ConvFail::Unifiers(_, _) => unifiers_line(alloc),
        ConvFail::Symbols(symbols) => symbols_line(alloc, *symbols),
        ConvFail::NoMemory => Err(NoMemory),
    }
}

// The line for an equation that doesn't cancel.
fn equation_line(alloc: Global, place: u16) -> Result<Printed, NoMemory>
    ensures text { IfOk result (λ a. a.text.items ≡ refused_equation place) }
    ensures status { IfOk result (λ a. a.status ≡ 3) }
{
    let mut text = Vec::new(alloc);
    put_numbered(&mut text, b"refused equation ", place as u64 + 1)?;
    text.extend_from_slice(b"\n")?;
    Ok(refused(text))
}

// The line for a term that has two normal forms.
fn confluence_line(
    alloc: Global,
    sig: &Sig,
    from: &Term,
    left: &Term,
    right: &Term,
) -> Result<Printed, NoMemory>
    ensures text { IfOk result (λ a. a.text.items ≡ refused_confluence sig.now from.now left.now right.now) }
    ensures status { IfOk result (λ a. a.status ≡ 3) }
{
    let terms = [copy(alloc, from)?, copy(alloc, left)?, copy(alloc, right)?];
    let mut text = Vec::from_slice(alloc, b"refused confluence")?;
    put_terms(alloc, sig, &terms, &mut text)?;
    text.extend_from_slice(b"\n")?;
    Ok(refused(text))
}

// The line for an application and an equation that have too many unifiers.
fn unifiers_line(alloc: Global) -> Result<Printed, NoMemory>
    ensures text { IfOk result (λ a. a.text.items ≡ limit_unifiers) }
    ensures status { IfOk result (λ a. a.status ≡ 7) }
{
    let mut text = Vec::new(alloc);
    put_counted(&mut text, b"limit ", b"check unifiers", 4_097)?;
    Ok(limited(text))
}

// The line for a term that is too large.
fn symbols_line(alloc: Global, symbols: u64) -> Result<Printed, NoMemory>
    ensures text { IfOk result (λ a. a.text.items ≡ limit_symbols symbols) }
    ensures status { IfOk result (λ a. a.status ≡ 7) }
{
    let mut text = Vec::new(alloc);
    put_counted(&mut text, b"limit ", b"check symbols", symbols)?;
    Ok(limited(text))
}

// The line for a strand with too many variants, or one in which a variable doesn't originate.
fn ready_line(alloc: Global, protocol: &Protocol, fail: &ReadyFail) -> Result<Printed, NoMemory>
    ensures { IfOk result (λ a. ready_line protocol.now fail.now ≡ Some (a.text.items, a.status)) }
{
    match fail {
        ReadyFail::Variants { strand, list } => {
            variants_lines(alloc, protocol, *strand, list.as_slice())
        }
        ReadyFail::Unifiers { .. } => unifiers_line(alloc),
        ReadyFail::Symbols { value, .. } => symbols_line(alloc, *value),
        ReadyFail::Origin {
            strand,
            variant,
            var,
        } => origin_line(alloc, protocol, *strand, *variant, *var),
        ReadyFail::NoMemory => Err(NoMemory),
    }
}

// The line for an aim of which a term isn't accepted.
fn aim_line(
    alloc: Global,
    source: &Source,
    aim: u16,
    term: &Term,
    equation: u16,
) -> Result<Printed, NoMemory>
    ensures text { IfOk result (λ a. a.text.items ≡ refused_aim source.now aim term.now equation) }
    ensures status { IfOk result (λ a. a.status ≡ 3) }
{
    let mut text = Vec::from_slice(alloc, b"refused aim ")?;
    text.extend_from_slice(aim_name(source.aims.as_slice(), aim))?;
    put_terms(
        alloc,
        &source.protocol.sig,
        slice::from_ref(term),
        &mut text,
    )?;
    put_numbered(&mut text, b" ", equation as u64 + 1)?;
    text.extend_from_slice(b"\n")?;
    Ok(refused(text))
}

// The name of an aim, by its place.
fn aim_name(aims: &[Aim], place: u16) -> &[u8]
    ensures { result.now ≡ aim_name aims.now place }
{
    match aims.get(place as usize) {
        Some(aim) => aim.name.as_slice(),
        None => &[],
    }
}

/// A text with the status of a module that is refused.
pub(crate) fn refused(text: Vec<u8>) -> Printed
    ensures text { result.text.items ≡ text.items }
    ensures status { result.status ≡ 3 }
{
    Printed { text, status: 3 }
}

// A text with the status of a limit that is passed.
fn limited(text: Vec<u8>) -> Printed
    ensures text { result.text.items ≡ text.items }
    ensures status { result.status ≡ 7 }
{
    Printed { text, status: 7 }
}
