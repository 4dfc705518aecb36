ghost use Rattle.std.specs.Prelude.{◌≡◌, ◌++◌, IfOk, OnOk, take};
ghost use Rattle.npa_variants.specs.Strands.{param_count};
ghost use Rattle.npa_checking.specs.Lines.{params_at, refused_origination, refused_variants, strand_name, variant_lines};

use crate::lines::refused;
use crate::terms::put_line;
use npa_outside::{Printed, put_numbered};
use npa_sig::{Protocol, Sig, Strand};
use npa_term::{NoMemory, Term, Var};
use npa_variants::Variant;
use std::alloc::Global;

/// The lines for a strand that has too many variants: these, of which each line has the values of the
/// parameters.
pub(crate) fn variants_lines(
    alloc: Global,
    protocol: &Protocol,
    place: u16,
    list: &[Variant],
) -> Result<Printed, NoMemory>
    ensures text { IfOk result (λ a. a.text.items ≡ refused_variants protocol.now place list.now) }
    ensures status { IfOk result (λ a. a.status ≡ 3) }
{
    let strands = protocol.strands.as_slice();
    let mut text = Vec::from_slice(alloc, b"refused variants ")?;
    text.extend_from_slice(strand_name(strands, place))?;
    text.extend_from_slice(b"\n")?;
    put_variants(
        alloc,
        &protocol.sig,
        params_at(strands, place),
        list,
        &mut text,
    )?;
    Ok(refused(text))
}

/// The line for a variable that doesn't originate in a variant of a strand.
pub(crate) fn origin_line(
    alloc: Global,
    protocol: &Protocol,
    place: u16,
    variant: u16,
    var: Var,
) -> Result<Printed, NoMemory>
    ensures text { IfOk result (λ a. a.text.items ≡ refused_origination protocol.now place variant var) }
    ensures status { IfOk result (λ a. a.status ≡ 3) }
{
    let mut text = Vec::from_slice(alloc, b"refused origination ")?;
    text.extend_from_slice(strand_name(protocol.strands.as_slice(), place))?;
    put_numbered(&mut text, b" ", variant as u64 + 1)?;
    put_numbered(&mut text, b" ?", var.num as u64 + 1)?;
    text.extend_from_slice(b":")?;
    text.extend_from_slice(protocol.sig.sort_name(var.sort))?;
    text.extend_from_slice(b"\n")?;
    Ok(refused(text))
}

// Appends the lines of variants, each with its first terms, so many.
fn put_variants(
    alloc: Global,
    sig: &Sig,
    count: usize,
    list: &[Variant],
    text: &mut Vec<u8>,
) -> Result<(), NoMemory>
    ensures { OnOk result (text.new.items ≡ text.old.items ++ variant_lines sig.now count list.now) }
{
    for variant in list {
        put_line(
            alloc,
            sig,
            first_terms(variant.terms.as_slice(), count),
            text,
        )?;
    }
    Ok(())
}

// The first terms of a list, so many, or all where there are fewer.
fn first_terms(terms: &[Term], count: usize) -> &[Term]
    ensures { result.now ≡ take count terms.now }
{
    match terms.get(..count) {
        Some(first) => first,
        None => terms,
    }
}

// The name of a strand, by its place.
fn strand_name(strands: &[Strand], place: u16) -> &[u8]
    ensures { result.now ≡ strand_name strands.now place }
{
    match strands.get(place as usize) {
        Some(strand) => strand.name.as_slice(),
        None => &[],
    }
}

// How many parameters a strand has, by its place.
fn params_at(strands: &[Strand], place: u16) -> usize
    ensures { result ≡ params_at strands.now place }
{
    match strands.get(place as usize) {
        Some(strand) => param_count(strand),
        None => 0,
    }
}

// How many parameters a strand has.
fn param_count(strand: &Strand) -> usize
    ensures { result ≡ param_count strand.now }
{
    strand.vars.as_slice().len() + strand.fresh as usize
}
