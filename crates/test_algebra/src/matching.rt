use crate::reading::{bindings, members_of, pairs_of};
use crate::writing::{put, put_binding, put_found, put_substs, put_yes};
use npa_match::{MatchFail, Matchers, extend, find, find_match, has_match, match_once, matches};
use npa_sig::Sig;
use npa_term::{Term, TermPairs};
use std::alloc::Global;
use std::test::Fail;

/// The pairs of terms, copied.
pub(crate) fn copied_pairs(alloc: Global, terms: &[Term]) -> Result<TermPairs, Fail> {
    let members = members_of(alloc, terms)?;
    pairs_of(alloc, members.as_slice())
}

/// All matchers of pairs.
pub(crate) fn put_matches(
    alloc: Global,
    sig: &Sig,
    terms: &[Term],
    out: &mut Vec<u8>,
) -> Result<(), Fail> {
    let pairs = copied_pairs(alloc, terms)?;
    match matches(alloc, sig.sorts(), &pairs) {
        Ok(found) => put_substs(sig, &found, out),
        Err(MatchFail::TooMany) => put(b"too many", out),
        Err(MatchFail::NoMemory) => Err(Fail::new("out of memory")),
    }
}

/// The first matcher of pairs.
pub(crate) fn put_first(
    alloc: Global,
    sig: &Sig,
    terms: &[Term],
    out: &mut Vec<u8>,
) -> Result<(), Fail> {
    let pairs = copied_pairs(alloc, terms)?;
    let found = find(alloc, sig.sorts(), &pairs)?;
    put_found(sig, found.as_ref(), out)
}

// The next matcher, and whether there is one.
fn put_next(
    alloc: Global,
    sig: &Sig,
    left: &mut Matchers<'_>,
    out: &mut Vec<u8>,
) -> Result<bool, Fail> {
    out.push(b' ')?;
    let found = left.next(alloc)?;
    put_found(sig, found.as_ref(), out)?;
    Ok(found.is_some())
}

// The matchers one after another, where the first is passed by without being made.
fn put_behind_first(
    alloc: Global,
    sig: &Sig,
    left: &mut Matchers<'_>,
    out: &mut Vec<u8>,
) -> Result<(), Fail> {
    put_yes(left.skip(alloc)?, out)?;
    for _ in 0..100u32 {
        if !put_next(alloc, sig, left, out)? {
            break;
        }
    }
    Ok(())
}

/// The matchers of pairs behind the first.
pub(crate) fn put_left(
    alloc: Global,
    sig: &Sig,
    members: &[(&Term, &Term)],
    out: &mut Vec<u8>,
) -> Result<(), Fail> {
    let mut left = Matchers::new(alloc, sig.sorts(), members)?;
    put_behind_first(alloc, sig, &mut left, out)
}

/// Whether pairs match, by both calls over borrowed terms, and whether they match once at most.
pub(crate) fn put_test(
    alloc: Global,
    sig: &Sig,
    members: &[(&Term, &Term)],
    out: &mut Vec<u8>,
) -> Result<(), Fail> {
    let is_found = find_match(alloc, sig.sorts(), members)?.is_some();
    let is_matched = has_match(alloc, sig.sorts(), members)?;
    if is_matched != is_found {
        return Err(Fail::new("has_match and find_match differ"));
    }
    put_yes(is_matched, out)?;
    out.push(b' ')?;
    put_yes(match_once(members), out)
}

/// The bindings of the first pairs, extended by further pairs.
pub(crate) fn put_extended(
    alloc: Global,
    sig: &Sig,
    first: &[Term],
    further: &[Term],
    out: &mut Vec<u8>,
) -> Result<(), Fail> {
    let first = members_of(alloc, first)?;
    let bound = bindings(alloc, first.as_slice())?;
    let further = members_of(alloc, further)?;
    match extend(alloc, sig.sorts(), bound.as_slice(), further.as_slice())? {
        Some(bound) => {
            for (v, term) in bound.as_slice() {
                put_binding(sig, *v, term, out)?;
            }
            Ok(())
        }
        None => put(b"none", out),
    }
}
