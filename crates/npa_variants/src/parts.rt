ghost use Rattle.std.specs.Prelude.{◌≡◌, [], ◌∷◌, ◌++◌, not, filter, flat_map, take, drop, IfOk, OnOk};
ghost use Rattle.npa_variants.specs.Rows.{applications, is_among, parts};
ghost use Rattle.npa_variants.specs.Told.{seen};

use npa_term::{NoMemory, Term, equals};
use std::alloc::Global;

/// The first members of a row, so many, and the others.
pub(crate) fn split(row: &[Term], m: usize) -> (&[Term], &[Term])
    ensures values { result.0.now ≡ take m row.now }
    ensures terms { result.1.now ≡ drop m row.now }
{
    let at = m.min(row.len());
    (&row[..at], &row[at..])
}

/// The applications in terms, in the order of the text, that equal no part of a value.
pub(crate) fn own_parts<'a>(
    alloc: Global,
    values: &[Term],
    terms: &'a [Term],
) -> Result<Vec<&'a Term>, NoMemory>
    ensures { IfOk result (λ own. seen own.items
        ≡ filter (λ u. not (is_among (flat_map parts values.now) u)) (flat_map applications terms.now)) }
{
    let mut own = Vec::new(alloc);
    add_all_own(&mut own, terms, values)?;
    Ok(own)
}

// Adds those in a term.
#[cycle(own)]
fn add_own<'a>(own: &mut Vec<&'a Term>, t: &'a Term, values: &[Term]) -> Result<(), NoMemory>
    ensures { OnOk result (seen own.new.items ≡ seen own.old.items
        ++ filter (λ u. not (is_among (flat_map parts values.now) u)) (applications t.now)) }
{
    match t {
        Term::Var(_) => {}
        Term::Name(_) => {}
        Term::App(_, args) => {
            add_one_own(own, t, values)?;
            add_all_own(own, args.as_slice(), values)?;
        }
    }
    Ok(())
}

// Adds an application, where it is one.
fn add_one_own<'a>(own: &mut Vec<&'a Term>, t: &'a Term, values: &[Term]) -> Result<(), NoMemory>
    ensures { OnOk result (seen own.new.items ≡ seen own.old.items
        ++ filter (λ u. not (is_among (flat_map parts values.now) u)) (t.now ∷ [])) }
{
    if !have_part(values, t) {
        own.push(t)?;
    }
    Ok(())
}

// Adds those in several terms.
#[cycle(own)]
fn add_all_own<'a>(own: &mut Vec<&'a Term>, ts: &'a [Term], values: &[Term]) -> Result<(), NoMemory>
    ensures { OnOk result (seen own.new.items ≡ seen own.old.items
        ++ filter (λ u. not (is_among (flat_map parts values.now) u)) (flat_map applications ts.now)) }
{
    for t in ts {
        add_own(own, t, values)?;
    }
    Ok(())
}

// Whether a part of a term equals another term.
#[cycle(parts)]
fn has_part(t: &Term, part: &Term) -> bool
    ensures { result ≡ is_among (parts t.now) part.now }
{
    if equals(part, t) {
        return true;
    }
    match t {
        Term::App(_, args) => have_part(args.as_slice(), part),
        _ => false,
    }
}

// Whether a part of one of these terms does.
#[cycle(parts)]
fn have_part(ts: &[Term], part: &Term) -> bool
    ensures { result ≡ is_among (flat_map parts ts.now) part.now }
{
    for t in ts {
        if has_part(t, part) {
            return true;
        }
    }
    false
}
