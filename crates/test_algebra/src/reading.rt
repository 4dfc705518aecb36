use npa_list::List;
use npa_module::{Source, read};
use npa_sig::{FRESH, Scope, Scoped, Sig, Strand, resolve};
use npa_term::{Subst, Term, TermPairs, Terms, Var, copy};
use npa_text::{MOST_BYTES, Raw, TextFault, raw_term, tokens};
use std::alloc::Global;
use std::test::Fail;
use test_tables::put_text;

/// A text of a table as it is read: without its marks.
pub(crate) fn plain(alloc: Global, text: &str) -> Result<String, Fail> {
    let mut out = Vec::new(alloc);
    put_text(text, &mut out)?;
    Ok(String::from_utf8(out)?)
}

/// What a module text is read as.
pub(crate) fn source_of(alloc: Global, module: &str) -> Result<Source, Fail> {
    if module.len() > MOST_BYTES {
        return Err(Fail::new("the module is too long"));
    }
    Ok(read(alloc, module.as_bytes())?)
}

// The parameters of a strand, numbered by their places.
fn scope_of(alloc: Global, strand: &Strand) -> Result<Scope, Fail> {
    let mut scope = Scope::new(alloc);
    let mut num = 0u32;
    for name in strand.names.as_slice() {
        let sort = strand.vars.get(num as usize).copied().unwrap_or(FRESH);
        let name = List::from_slice(alloc, name.as_slice())?;
        let var = Var { num, sort };
        scope.push(alloc, Scoped { name, var })?;
        num = num.saturating_add(1);
    }
    Ok(scope)
}

/// The parameters of the first strand.
pub(crate) fn first_scope(alloc: Global, strands: &[Strand]) -> Result<Scope, Fail> {
    match strands.get(0) {
        Some(strand) => scope_of(alloc, strand),
        None => Ok(Scope::new(alloc)),
    }
}

/// The first term of a text, before its names are looked up.
pub(crate) fn raw(alloc: Global, text: &str) -> Result<Raw, TextFault> {
    if text.len() > MOST_BYTES {
        return Err(TextFault::NoMemory);
    }
    let found = tokens(alloc, text.as_bytes())?;
    raw_term(alloc, text.as_bytes(), &found, &mut 0)
}

// The term of a text.
fn term(alloc: Global, sig: &Sig, scope: &Scope, text: &str) -> Result<Term, Fail> {
    let raw = raw(alloc, text)?;
    Ok(resolve(alloc, sig, scope, text.as_bytes(), &raw)?)
}

// Reads the term of a text behind those that were read.
fn read_into(
    alloc: Global,
    sig: &Sig,
    scope: &Scope,
    text: &str,
    terms: &mut Terms,
) -> Result<(), Fail> {
    terms.push(term(alloc, sig, scope, text)?)?;
    Ok(())
}

// Reads texts with a blank between them.
fn read_all(
    alloc: Global,
    sig: &Sig,
    scope: &Scope,
    texts: &str,
    terms: &mut Terms,
) -> Result<(), Fail> {
    let mut rest = texts;
    for _ in 0..texts.len() {
        let Some((text, more)) = rest.split_once(' ') else {
            return read_into(alloc, sig, scope, rest, terms);
        };
        read_into(alloc, sig, scope, text, terms)?;
        rest = more;
    }
    Ok(())
}

/// The terms of texts with a blank between them.
pub(crate) fn terms_of(
    alloc: Global,
    sig: &Sig,
    scope: &Scope,
    texts: &str,
) -> Result<Terms, Fail> {
    let mut terms = List::new(alloc);
    read_all(alloc, sig, scope, texts, &mut terms)?;
    Ok(terms)
}

/// The pairs of the terms at places 0 and 1, 2 and 3, and so on.
pub(crate) fn members_of(alloc: Global, terms: &[Term]) -> Result<Vec<(&Term, &Term)>, Fail> {
    let mut members = Vec::new(alloc);
    let mut left = None;
    for term in terms {
        match left {
            None => left = Some(term),
            Some(first) => {
                members.push((first, term))?;
                left = None;
            }
        }
    }
    Ok(members)
}

/// Copies of pairs.
pub(crate) fn pairs_of(alloc: Global, members: &[(&Term, &Term)]) -> Result<TermPairs, Fail> {
    let mut pairs = List::new(alloc);
    for (first, second) in members {
        pairs.push((copy(alloc, first)?, copy(alloc, second)?))?;
    }
    Ok(pairs)
}

/// The variables among the first members with the second members.
pub(crate) fn bindings<'a>(
    alloc: Global,
    members: &[(&'a Term, &'a Term)],
) -> Result<Vec<(Var, &'a Term)>, Fail> {
    let mut bound = Vec::new(alloc);
    for (first, second) in members {
        if let Term::Var(v) = first {
            bound.push((*v, *second))?;
        }
    }
    Ok(bound)
}

// Binds a variable that is free.
fn bind(alloc: Global, s: &mut Subst, v: Var, term: &Term) -> Result<(), Fail> {
    if s.get(v).is_none() {
        s.bind(v, copy(alloc, term)?)?;
    }
    Ok(())
}

/// The substitution of bindings, of which the first of a variable holds.
pub(crate) fn subst_of(alloc: Global, bound: &[(Var, &Term)]) -> Result<Subst, Fail> {
    let mut s = Subst::new(alloc);
    for (v, term) in bound {
        bind(alloc, &mut s, *v, term)?;
    }
    Ok(s)
}
