ghost use Rattle.std.specs.Prelude.{◌≡◌, ◌++◌, OnOk};
ghost use Rattle.npa_checking.specs.Lines.{line_terms, separated, spaced, terms_line};

use crate::numbers::line_numbers;
use npa_sig::{Sig, print_term};
use npa_term::{NoMemory, Subst, Term, replace};
use std::alloc::Global;

/// Appends terms of one line, with a blank before each; their variables are numbered together.
#[tactic(auto, unfolding(crate::specs::Lines::line_terms))]
pub(crate) fn put_terms(
    alloc: Global,
    sig: &Sig,
    terms: &[Term],
    text: &mut Vec<u8>,
) -> Result<(), NoMemory>
    ensures { OnOk result (text.new.items ≡ text.old.items ++ line_terms sig.now terms.now) }
{
    let numbers = line_numbers(alloc, terms)?;
    put_spaced(alloc, sig, &numbers, terms, text)
}

/// Appends a line of terms, with a blank between two of them; their variables are numbered together.
#[tactic(auto, unfolding(crate::specs::Lines::terms_line))]
pub(crate) fn put_line(
    alloc: Global,
    sig: &Sig,
    terms: &[Term],
    text: &mut Vec<u8>,
) -> Result<(), NoMemory>
    ensures { OnOk result (text.new.items ≡ text.old.items ++ terms_line sig.now terms.now) }
{
    let numbers = line_numbers(alloc, terms)?;
    put_separated(alloc, sig, &numbers, terms, text)?;
    text.extend_from_slice(b"\n")?;
    Ok(())
}

// Appends the instances of terms, with a blank between two of them.
fn put_separated(
    alloc: Global,
    sig: &Sig,
    numbers: &Subst,
    terms: &[Term],
    text: &mut Vec<u8>,
) -> Result<(), NoMemory>
    ensures { OnOk result (text.new.items ≡ text.old.items ++ separated sig.now numbers.now terms.now) }
{
    let [first, rest @ ..] = terms else {
        return Ok(());
    };
    print_term(sig, &replace(alloc, numbers, first)?, text)?;
    put_spaced(alloc, sig, numbers, rest, text)
}

// Appends the instances of terms, with a blank before each.
fn put_spaced(
    alloc: Global,
    sig: &Sig,
    numbers: &Subst,
    terms: &[Term],
    text: &mut Vec<u8>,
) -> Result<(), NoMemory>
    ensures { OnOk result (text.new.items ≡ text.old.items ++ spaced sig.now numbers.now terms.now) }
{
    for term in terms {
        text.extend_from_slice(b" ")?;
        print_term(sig, &replace(alloc, numbers, term)?, text)?;
    }
    Ok(())
}
