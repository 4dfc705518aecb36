//! The variants of the strands of module texts.

use npa_list::List;
use npa_module::read;
use npa_rewrite::{Theory, all_cancel};
use npa_sig::{FRESH, Protocol, Strand};
use npa_term::{Term, Terms, Var, copy};
use npa_text::MOST_BYTES;
use npa_variants::{VarFail, Variants, variants};
use std::alloc::Global;
use std::test::Fail;

/// The protocol of a module of such items.
pub(crate) fn protocol(alloc: Global, items: &str) -> Result<Protocol, Fail> {
    let mut text = Vec::from_slice(alloc, b"protocol P; ")?;
    text.extend_from_slice(items.as_bytes())?;
    if text.len() > MOST_BYTES {
        return Err(Fail::new("a long text"));
    }
    Ok(read(alloc, text.as_slice())?.protocol)
}

/// The variants of a strand's parameters and messages.
pub(crate) fn strand_variants(
    alloc: Global,
    th: &Theory,
    strand: &Strand,
) -> Result<Result<Variants, VarFail>, Fail> {
    if !all_cancel(th) {
        return Err(Fail::new("an equation that doesn't cancel"));
    }
    let terms = strand_terms(alloc, strand)?;
    Ok(variants(alloc, th, &terms))
}

// The parameters of a strand, and then its messages.
fn strand_terms(alloc: Global, strand: &Strand) -> Result<Terms, Fail> {
    let mut terms = List::new(alloc);
    for sort in strand.vars.as_slice() {
        push_variable(&mut terms, *sort)?;
    }
    for _ in 0..strand.fresh {
        push_variable(&mut terms, FRESH)?;
    }
    for event in strand.events.as_slice() {
        terms.push(copy(alloc, &event.msg)?)?;
    }
    Ok(terms)
}

// Adds a variable with the number of its place.
fn push_variable(terms: &mut Terms, sort: u16) -> Result<(), Fail> {
    let Ok(num) = u32::try_from(terms.len()) else {
        return Err(Fail::new("too many terms"));
    };
    terms.push(Term::Var(Var { num, sort }))?;
    Ok(())
}

/// How many parameters a strand has.
pub(crate) fn param_count(strand: &Strand) -> usize {
    strand.vars.len().saturating_add(strand.fresh as usize)
}
