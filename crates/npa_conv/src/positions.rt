ghost use Rattle.std.specs.Prelude.{◌≡◌, ◌++◌, flat_map, IfOk, OnOk};
ghost use Rattle.npa_conv.specs.Places.{exchanged, list_exchanged, parts, seen};

use npa_list::List;
use npa_term::{NoMemory, Term, Terms, copy};
use std::alloc::Global;

/// The applications in a term, in the order of the text: each before those in its arguments.
pub(crate) fn applications<'a>(alloc: Global, t: &'a Term) -> Result<Vec<&'a Term>, NoMemory>
    ensures { IfOk result (λ found. seen found.items ≡ parts t.now) }
{
    let mut found = Vec::new(alloc);
    add_applications(&mut found, t)?;
    Ok(found)
}

// Adds the applications in a term.
#[cycle(applications)]
#[tactic(auto, using(crate::proofs::Applications::parts_at, crate::proofs::Applications::parts_var, crate::proofs::Applications::parts_name))]
fn add_applications<'a>(found: &mut Vec<&'a Term>, t: &'a Term) -> Result<(), NoMemory>
    ensures { OnOk result (seen found.new.items ≡ seen found.old.items ++ parts t.now) }
{
    match t {
        Term::Var(_) => {}
        Term::Name(_) => {}
        Term::App(_, args) => {
            found.push(t)?;
            add_all_applications(found, args.as_slice())?;
        }
    }
    Ok(())
}

// Adds the applications in several terms.
#[cycle(applications)]
fn add_all_applications<'a>(found: &mut Vec<&'a Term>, ts: &'a [Term]) -> Result<(), NoMemory>
    ensures { OnOk result (seen found.new.items
        ≡ seen found.old.items ++ flat_map parts ts.now) }
{
    for t in ts {
        add_applications(found, t)?;
    }
    Ok(())
}

/// A copy of a term in which the application at a place, counted from 0 in the order of the text,
/// is exchanged for another term. The place becomes none where the exchange is done, and is
/// otherwise counted from behind the term.
#[cycle(exchanging)]
pub(crate) fn exchange(
    alloc: Global,
    t: &Term,
    place: &mut Option<usize>,
    by: &Term,
) -> Result<Term, NoMemory>
    ensures term { IfOk result (λ u. u ≡ (exchanged by.now t.now place.old).0) }
    ensures place { OnOk result (place.new ≡ (exchanged by.now t.now place.old).1) }
{
    match t {
        Term::Var(v) => Ok(Term::Var(*v)),
        Term::Name(n) => Ok(Term::Name(*n)),
        Term::App(op, args) => match *place {
            None => copy(alloc, t),
            Some(0) => {
                *place = None;
                copy(alloc, by)
            }
            Some(at) => {
                *place = Some(at - 1);
                let made = exchange_in(alloc, args.as_slice(), place, by)?;
                Ok(Term::App(*op, made))
            }
        },
    }
}

// The same in several terms.
#[cycle(exchanging)]
fn exchange_in(
    alloc: Global,
    ts: &[Term],
    place: &mut Option<usize>,
    by: &Term,
) -> Result<Terms, NoMemory>
    ensures terms { IfOk result (λ us. us ≡ (list_exchanged by.now ts.now place.old).0) }
    ensures place { OnOk result (place.new ≡ (list_exchanged by.now ts.now place.old).1) }
{
    let mut made = Vec::with_capacity(alloc, ts.len())?;
    for t in ts {
        made.push(exchange(alloc, t, place, by)?)?;
    }
    Ok(List::from_vec(made))
}
