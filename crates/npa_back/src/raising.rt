ghost use Rattle.std.specs.Prelude.{◌≡◌, ◌≤◌, ◌^◌, IfOk, drop, flat_map, map, slice_index_or};
ghost use Rattle.npa_term.specs.declared.term.Term.{Name as NameTree};
ghost use Rattle.npa_term.specs.Variables.{renamed, variables};
ghost use Rattle.npa_variants.specs.Search.{past};

use npa_list::List;
use npa_term::{NoMemory, Term, Terms, rename};
use std::alloc::Global;

/// The greatest number past those of the variables of a pattern, and of a variant.
pub(crate) const ROOM: u64 = 1073741824;

/// The terms with a number added to those of their variables.
pub(crate) fn raised(alloc: Global, terms: &[Term], base: u32) -> Result<Terms, NoMemory>
    requires few { past (flat_map variables terms.now) ≤ 2 ^ 30 }
    requires room { base ≤ 2 ^ 30 }
    ensures { IfOk result (λ made. made ≡ map (renamed base) terms.now) }
{
    let mut made = Vec::with_capacity(alloc, terms.len())?;
    for t in terms {
        made.push(rename(alloc, t, base)?)?;
    }
    Ok(List::from_vec(made))
}

/// The message of an event, so raised: the terms are values of parameters, of which there are `params`,
/// and then messages.
pub(crate) fn raised_message(
    alloc: Global,
    terms: &[Term],
    params: usize,
    event: usize,
    base: u32,
) -> Result<Term, NoMemory>
    requires few { past (flat_map variables terms.now) ≤ 2 ^ 30 }
    requires room { base ≤ 2 ^ 30 }
    ensures { IfOk result (λ m. m ≡ renamed base (slice_index_or (drop params terms.now) event (NameTree 0))) }
{
    match params.checked_add(event) {
        Some(at) => match terms.get(at) {
            Some(t) => rename(alloc, t, base),
            None => Ok(Term::Name(0)),
        },
        None => Err(NoMemory),
    }
}
