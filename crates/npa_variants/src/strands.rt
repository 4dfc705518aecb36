ghost use Rattle.std.specs.Prelude.{◌≡◌, ◌∷◌, [], ◌++◌, IfOk, OnOk, map, replicate};
ghost use Rattle.npa_variants.specs.Strands.{strand_terms, with_params};

use npa_list::List;
use npa_sig::{Event, FRESH, Strand};
use npa_term::{NoMemory, Term, Terms, Var, copy};
use std::alloc::Global;

/// The parameters of a strand, each with the number of its place, and then copies of its messages:
/// the terms whose variants tell what its instances send and receive.
pub(crate) fn strand_terms(alloc: Global, strand: &Strand) -> Result<Terms, NoMemory>
    ensures { IfOk result (λ terms. terms ≡ strand_terms strand.now) }
{
    let mut terms = Vec::new(alloc);
    push_params(&mut terms, strand.vars.as_slice())?;
    push_fresh(&mut terms, strand.fresh)?;
    push_messages(alloc, &mut terms, strand.events.as_slice())?;
    Ok(List::from_vec(terms))
}

// Adds variables of these sorts.
fn push_params(terms: &mut Vec<Term>, sorts: &[u16]) -> Result<(), NoMemory>
    ensures { OnOk result (terms.new.items ≡ with_params terms.old.items sorts.now) }
{
    for sort in sorts {
        push_param(terms, *sort)?;
    }
    Ok(())
}

// Adds so many variables for fresh values.
fn push_fresh(terms: &mut Vec<Term>, count: u16) -> Result<(), NoMemory>
    ensures { OnOk result (terms.new.items ≡ with_params terms.old.items (replicate count 1)) }
{
    for _ in 0..count {
        push_param(terms, FRESH)?;
    }
    Ok(())
}

// Adds a variable with the number of its place. 2^32 terms and more count as want of memory.
fn push_param(terms: &mut Vec<Term>, sort: u16) -> Result<(), NoMemory>
    ensures { OnOk result (terms.new.items ≡ with_params terms.old.items (sort ∷ [])) }
{
    let Ok(num) = u32::try_from(terms.len()) else {
        return Err(NoMemory);
    };
    terms.push(Term::Var(Var { num, sort }))?;
    Ok(())
}

// Adds copies of the messages of events.
fn push_messages(alloc: Global, terms: &mut Vec<Term>, events: &[Event]) -> Result<(), NoMemory>
    ensures { OnOk result (terms.new.items ≡ terms.old.items ++ map (λ e. e.msg) events.now) }
{
    for event in events {
        terms.push(copy(alloc, &event.msg)?)?;
    }
    Ok(())
}
