use crate::reading::{protocol, push_terms, put_binding, variables};
use npa_choice::{Choice, Offer, Offers, choose};
use npa_list::List;
use npa_sig::Sig;
use npa_term::Term;
use npa_text::put_number;
use std::alloc::Global;
use std::test::Fail;
use test_tables::{Answers, first_wrong};

// Answers with the numbers of the offers that are chosen, and what is bound. A row gives the places
// of the offers, `-` for none, with a `;` between those of one asker and the next, and behind ` of `
// the two terms of each offer.
#[derive(Drop)]
struct Choices {}

impl Answers for Choices {
    fn answer(&self, alloc: Global, given: &str, out: &mut Vec<u8>) -> Result<(), Fail> {
        let protocol = protocol(alloc)?;
        let sig = &protocol.sig;
        let scope = variables(alloc)?;
        let Some((places, texts)) = given.split_once(" of ") else {
            return Err(Fail::new("a row has no terms"));
        };
        let mut terms = List::new(alloc);
        push_terms(alloc, sig, &scope, texts, &mut terms)?;
        let askers = askers_of(alloc, places, terms.as_slice())?;
        let found = choose(alloc, sig.sorts(), askers.as_slice())?;
        put_choice(sig, found.as_ref(), out)
    }
}

// The offer of a place and the first two terms.
fn offer<'a>(alloc: Global, place: &str, terms: &'a [Term]) -> Result<Offer<'a>, Fail> {
    let [first, second, ..] = terms else {
        return Err(Fail::new("an offer has no terms"));
    };
    let mut pairs = List::new(alloc);
    pairs.push((first, second))?;
    let place = match place {
        "-" => None,
        _ => Some(place.parse::<usize>()?),
    };
    Ok(Offer { place, pairs })
}

// The askers with offers of these places, each with two of the terms.
fn askers_of<'a>(alloc: Global, places: &str, terms: &'a [Term]) -> Result<Vec<Offers<'a>>, Fail> {
    let mut askers = Vec::new(alloc);
    let mut offers = List::new(alloc);
    let mut rest = places;
    let mut left = terms;
    for _ in 0..places.len() {
        let (place, more) = rest.split_once(' ').unwrap_or((rest, ""));
        if place == ";" {
            askers.push(offers)?;
            offers = List::new(alloc);
        } else {
            offers.push(offer(alloc, place, left)?)?;
            left = left.get(2..).unwrap_or(&[]);
        }
        if more.is_empty() {
            break;
        }
        rest = more;
    }
    askers.push(offers)?;
    Ok(askers)
}

fn put_choice(sig: &Sig, found: Option<&Choice<'_>>, out: &mut Vec<u8>) -> Result<(), Fail> {
    let Some(choice) = found else {
        out.extend_from_slice(b"none")?;
        return Ok(());
    };
    for number in choice.offers.as_slice() {
        put_number(out, *number as u64)?;
        out.push(b' ')?;
    }
    for (v, term) in choice.bound.as_slice() {
        put_binding(sig, *v, *term, out)?;
    }
    Ok(())
}

// No place is taken twice, and one substitution matches the pairs of all offers that are chosen.
const CHOICES: &str = "0 of X0 a => 0 ?0:Msg=a;
0 ; 0 of X0 a X1 a => none
- ; - of X0 a X1 a => 0 0 ?0:Msg=a;?1:Msg=a;
0 1 ; 0 of X0 a X0 b X1 c => 1 0 ?1:Msg=c;?0:Msg=b;
0 ; 1 of X0 a X0 b => none";

#[test]
fn chooses_offers(rt: HostRuntime) -> Result<(), Fail> {
    let wrong = first_wrong(rt.alloc(), &Choices {}, CHOICES)?;
    assert!(&rt; wrong.is_none());
    Ok(())
}
