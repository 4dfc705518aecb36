use crate::writing::{put_or_none, put_term, put_yes};
use npa_rewrite::{Theory, all_cancel, is_cancelling, is_normal, normal_form, reduce};
use npa_term::Term;
use std::alloc::Global;
use std::test::Fail;

/// The term behind one step.
pub(crate) fn put_reduced(
    alloc: Global,
    theory: &Theory,
    term: &Term,
    out: &mut Vec<u8>,
) -> Result<(), Fail> {
    let is_done = is_normal(alloc, theory, term)?;
    let next = reduce(alloc, theory, term)?;
    if next.is_none() != is_done {
        return Err(Fail::new("reduce and is_normal differ"));
    }
    put_or_none(&theory.sig, next.as_ref(), out)
}

/// The normal form, where the equations cancel.
pub(crate) fn put_normal(
    alloc: Global,
    theory: &Theory,
    term: &Term,
    out: &mut Vec<u8>,
) -> Result<(), Fail> {
    if !all_cancel(theory) {
        return Ok(());
    }
    let form = normal_form(alloc, theory, term)?;
    put_term(&theory.sig, &form, out)
}

/// Whether the equations cancel, and whether the first one does.
pub(crate) fn put_cancels(theory: &Theory, out: &mut Vec<u8>) -> Result<(), Fail> {
    put_yes(all_cancel(theory), out)?;
    out.push(b' ')?;
    match theory.equations.get(0) {
        Some(equation) => put_yes(is_cancelling(theory.sig.sorts(), equation), out),
        None => Ok(()),
    }
}
