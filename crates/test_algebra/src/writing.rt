use npa_sig::{Sig, UseFail, print_term};
use npa_term::{Subst, Substs, Term, Var};
use std::cmp::Ordering;
use std::test::Fail;
use test_tables::put_place;

/// Appends a text.
pub(crate) fn put(text: &[u8], out: &mut Vec<u8>) -> Result<(), Fail> {
    out.extend_from_slice(text)?;
    Ok(())
}

/// Appends which name or operator is at fault, and its place.
pub(crate) fn put_fault(fault: &UseFail, out: &mut Vec<u8>) -> Result<(), Fail> {
    match fault {
        UseFail::Name { name, line, col } => put_place(b"name ", name.as_slice(), *line, *col, out),
        UseFail::Sort { name, line, col } => put_place(b"sort ", name.as_slice(), *line, *col, out),
        UseFail::NoMemory => Err(Fail::new("out of memory")),
    }
}

/// Appends `yes` or `no`.
pub(crate) fn put_yes(answer: bool, out: &mut Vec<u8>) -> Result<(), Fail> {
    put(if answer { b"yes" } else { b"no" }, out)
}

/// Appends how two terms compare.
pub(crate) fn put_ordering(answer: Ordering, out: &mut Vec<u8>) -> Result<(), Fail> {
    match answer {
        Ordering::Less => put(b"less", out),
        Ordering::Equal => put(b"equal", out),
        Ordering::Greater => put(b"greater", out),
    }
}

/// Appends a term.
pub(crate) fn put_term(sig: &Sig, term: &Term, out: &mut Vec<u8>) -> Result<(), Fail> {
    Ok(print_term(sig, term, out)?)
}

/// Appends a term, or `none`.
pub(crate) fn put_or_none(sig: &Sig, term: Option<&Term>, out: &mut Vec<u8>) -> Result<(), Fail> {
    match term {
        Some(term) => put_term(sig, term, out),
        None => put(b"none", out),
    }
}

/// Appends a binding with a `;` behind it.
pub(crate) fn put_binding(sig: &Sig, v: Var, term: &Term, out: &mut Vec<u8>) -> Result<(), Fail> {
    put_term(sig, &Term::Var(v), out)?;
    out.push(b'=')?;
    put_term(sig, term, out)?;
    out.push(b';')?;
    Ok(())
}

/// Appends the bindings of a substitution.
pub(crate) fn put_subst(sig: &Sig, s: &Subst, out: &mut Vec<u8>) -> Result<(), Fail> {
    for (v, term) in s.as_slice() {
        put_binding(sig, *v, term, out)?;
    }
    Ok(())
}

/// Appends the bindings of a substitution, or `none`.
pub(crate) fn put_found(sig: &Sig, found: Option<&Subst>, out: &mut Vec<u8>) -> Result<(), Fail> {
    match found {
        Some(s) => put_subst(sig, s, out),
        None => put(b"none", out),
    }
}

/// Appends substitutions, each with a `|` behind it.
pub(crate) fn put_substs(sig: &Sig, found: &Substs, out: &mut Vec<u8>) -> Result<(), Fail> {
    for s in found.as_slice() {
        put_subst(sig, s, out)?;
        out.push(b'|')?;
    }
    Ok(())
}
