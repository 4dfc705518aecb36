use crate::reading::{bindings, members_of, raw, subst_of};
use crate::writing::{put, put_fault, put_or_none, put_ordering, put_subst, put_term, put_yes};
use npa_sig::{GroundFault, LeastFail, Scope, Sig, resolve, sort_at};
use npa_term::{
    Subst, Term, TermFail, apply, canon, cmp, compose, copy, copy_all, instance, same, symbols,
    symbols_under,
};
use npa_text::put_number;
use std::alloc::Global;
use std::test::Fail;

/// What a text is read as: its term, or the refusal.
pub(crate) fn put_read(
    alloc: Global,
    sig: &Sig,
    scope: &Scope,
    text: &str,
    out: &mut Vec<u8>,
) -> Result<(), Fail> {
    let raw = raw(alloc, text)?;
    match resolve(alloc, sig, scope, text.as_bytes(), &raw) {
        Ok(term) => put_term(sig, &term, out),
        Err(fault) => put_fault(&fault, out),
    }
}

/// The sort of a text's term by its first word.
pub(crate) fn put_sort_at(
    alloc: Global,
    sig: &Sig,
    scope: &Scope,
    text: &str,
    out: &mut Vec<u8>,
) -> Result<(), Fail> {
    let raw = raw(alloc, text)?;
    match sort_at(sig, scope, text.as_bytes(), &raw) {
        Some(sort) => put(sig.sort_name(sort), out),
        None => put(b"none", out),
    }
}

/// What is wrong with the ground terms of the sorts.
pub(crate) fn put_ground_fault(alloc: Global, sig: &Sig, out: &mut Vec<u8>) -> Result<(), Fail> {
    match sig.ground_fault(alloc)? {
        Some(GroundFault::Inhabited(sort)) => {
            put(b"inhabited ", out)?;
            put(sig.sort_name(sort), out)
        }
        Some(GroundFault::Ground(sort, count)) => {
            put_number(out, count)?;
            out.push(b' ')?;
            put(sig.sort_name(sort), out)
        }
        None => put(b"none", out),
    }
}

/// Whether a term is well-sorted, and its sort.
pub(crate) fn put_sort(sig: &Sig, term: &Term, out: &mut Vec<u8>) -> Result<(), Fail> {
    put_yes(sig.well_sorted(term), out)?;
    out.push(b' ')?;
    put(sig.sort_name(sig.sort_of(term)), out)
}

/// The least term of the sort of a term.
pub(crate) fn put_least(
    alloc: Global,
    sig: &Sig,
    term: &Term,
    out: &mut Vec<u8>,
) -> Result<(), Fail> {
    match sig.least(alloc, sig.sort_of(term)) {
        Ok(least) => put_or_none(sig, least.as_ref(), out),
        Err(LeastFail::Past(count)) => Ok(put_number(out, count)?),
        Err(LeastFail::NoMemory) => Err(Fail::new("out of memory")),
    }
}

/// Whether the sort of a term carries no fresh names.
pub(crate) fn put_nameless(
    alloc: Global,
    sig: &Sig,
    term: &Term,
    out: &mut Vec<u8>,
) -> Result<(), Fail> {
    let sort = sig.sort_of(term);
    let is_nameless = sig.nameless(alloc, sort)?;
    let carriers = sig.carriers(alloc)?;
    if carriers.get(sort as usize).copied() != Some(!is_nameless) {
        return Err(Fail::new("nameless and carriers differ"));
    }
    put_yes(is_nameless, out)
}

/// How two terms compare, and whether they are the same.
pub(crate) fn put_compared(terms: &[Term], out: &mut Vec<u8>) -> Result<(), Fail> {
    if let [t, u] = terms {
        put_ordering(cmp(t, u), out)?;
        out.push(b' ')?;
        put_yes(same(t, u), out)?;
    }
    Ok(())
}

// A term behind its number of symbols.
fn put_sized(sig: &Sig, term: &Term, out: &mut Vec<u8>) -> Result<(), Fail> {
    put_number(out, symbols(term))?;
    out.push(b' ')?;
    put_term(sig, term, out)
}

// The canonical form of a copy, behind its number of symbols.
fn put_form(alloc: Global, sig: &Sig, term: &Term, out: &mut Vec<u8>) -> Result<(), Fail> {
    let form = canon(alloc, &copy(alloc, term)?)?;
    put_sized(sig, &form, out)
}

/// The canonical forms of copies, each behind its number of symbols.
pub(crate) fn put_canonical(
    alloc: Global,
    sig: &Sig,
    terms: &[Term],
    out: &mut Vec<u8>,
) -> Result<(), Fail> {
    let copies = copy_all(alloc, terms)?;
    for term in copies.as_slice() {
        put_form(alloc, sig, term, out)?;
    }
    Ok(())
}

// Whether a term under a substitution is the instance that was made, or its number of symbols
// where it is too large.
fn put_applied(
    alloc: Global,
    sig: &Sig,
    applied: &Result<Term, TermFail>,
    made: &Term,
    out: &mut Vec<u8>,
) -> Result<(), Fail> {
    match applied {
        Ok(term) => {
            put_yes(same(term, made), out)?;
            out.push(b' ')?;
            put_term(sig, made, out)
        }
        Err(TermFail::TooLarge(count)) => Ok(put_number(out, *count)?),
        Err(TermFail::NoMemory) => Err(Fail::new("out of memory")),
    }
}

// The instance of a term by both calls, behind its number of symbols.
fn put_instance_of(
    alloc: Global,
    sig: &Sig,
    s: &Subst,
    term: &Term,
    out: &mut Vec<u8>,
) -> Result<(), Fail> {
    let made = instance(alloc, s, term)?;
    if symbols_under(s, term) != symbols(&made) {
        return Err(Fail::new("symbols_under and symbols differ"));
    }
    put_number(out, symbols(&made))?;
    out.push(b' ')?;
    put_applied(alloc, sig, &apply(alloc, s, term), &made, out)
}

// The substitution that binds the variable of each pair to the other member.
fn subst_from(alloc: Global, terms: &[Term]) -> Result<Subst, Fail> {
    let members = members_of(alloc, terms)?;
    let bound = bindings(alloc, members.as_slice())?;
    subst_of(alloc, bound.as_slice())
}

/// The instance of the last term under the bindings before it, by both calls, and its size.
pub(crate) fn put_instance(
    alloc: Global,
    sig: &Sig,
    terms: &[Term],
    out: &mut Vec<u8>,
) -> Result<(), Fail> {
    let Some((term, bound)) = terms.split_last() else {
        return Ok(());
    };
    let s = subst_from(alloc, bound)?;
    let s = s.copy(alloc)?;
    put_instance_of(alloc, sig, &s, term, out)
}

/// The substitution that does what the first terms bind and then what the others bind.
pub(crate) fn put_composed(
    alloc: Global,
    sig: &Sig,
    first: &[Term],
    then: &[Term],
    out: &mut Vec<u8>,
) -> Result<(), Fail> {
    let first = subst_from(alloc, first)?;
    let next = subst_from(alloc, then)?;
    let both = compose(alloc, &first, &next)?;
    put_subst(sig, &both, out)
}
