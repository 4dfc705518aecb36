ghost use Rattle.std.specs.Prelude.{◌≡◌, [], ◌∷◌, ◌++◌, ◌↔◌, ℕ, Some, slice_get, IsTrue, OnOk, OnErr, Contains};
ghost use Rattle.npa_model.specs.Sent.{fingerprint, mixed, places_at};

use crate::run::{Cause, RunFail};
use indexmap::IndexMap;
use npa_list::List;
use npa_term::{Term, Terms, same};
use std::alloc::{AllocError, Global};
use std::marker::Model;

/// The terms that were sent, in order. A term is found again by its fingerprint, under which the
/// places of its sendings are noted: so a receive compares it with few terms, however many were
/// sent.
#[derive(Debug, Drop)]
pub(crate) struct Sent {
    alloc: Global,
    terms: Terms,
    places: IndexMap<u64, List<usize>>,
}

impl Model for Sent {
    ghost use Rattle.std.specs.Prelude.{List as ListOf};
    ghost use Rattle.npa_term.specs.declared.term.Term.{Term};
    ghost use Rattle.npa_term.specs.contracts.term.Term as term;
    ghost use Rattle.std.specs.Coded.{coded_list};
    ghost use Rattle.npa_model.specs.Sent.{AreNoted};

    ghost Value = { ListOf Term };

    ghost coded = { coded_list term.the_row.coded };

    ghost view = { λ s. s.terms };

    ghost invariant = { λ s. AreNoted s.places s.terms };
}

impl Sent {
    ghost use Rattle.npa_model.specs.State.{Exchanges};

    pub(crate) fn new(alloc: Global) -> Sent
        ensures { result ≡ [] }
    {
        Sent {
            alloc,
            terms: List::new(alloc),
            places: IndexMap::new(alloc),
        }
    }

    pub(crate) fn terms(&self) -> &Terms
        ensures { result.now ≡ self.now }
    {
        &self.terms
    }

    /// Adds a term at the end. Its place is noted first: where memory is wanting for the term
    /// itself, a place too many is noted, which does no harm, since the term that stands at a place
    /// is always compared.
    pub(crate) fn push(&mut self, term: Term) -> Result<(), AllocError>
        ensures ok { OnOk result (self.new ≡ self.old ++ term ∷ []) }
        ensures err { OnErr result (self.new ≡ self.old) }
    {
        let place = self.terms.len();
        note(self.alloc, &mut self.places, fingerprint(0, &term), place)?;
        self.terms.push(term)
    }

    /// Sends the term, or receives it.
    pub(crate) fn exchange(&mut self, sends: bool, term: Term) -> Result<(), RunFail>
        ensures { Exchanges sends term self.old self.new result }
    {
        if sends {
            self.push(term)?;
            return Ok(());
        }
        if !self.contains(&term) {
            return Err(RunFail::Stop(Cause::Unsent(term)));
        }
        Ok(())
    }

    /// Whether the term was sent.
    pub(crate) fn contains(&self, term: &Term) -> bool
        ensures { IsTrue result ↔ Contains self.now term.now }
    {
        match self.places.get(&fingerprint(0, term)) {
            Some(places) => stands_at(self.terms.as_slice(), places.as_slice(), term),
            None => false,
        }
    }
}

// Whether the term stands at one of the places.
#[tactic(auto, using(crate::proofs::SentLaws::contains_at))]
fn stands_at(terms: &[Term], places: &[usize], term: &Term) -> bool
    ensures found { IsTrue result → Contains terms.now term.now }
    ensures missed { (i : ℕ) → Contains places.now i → slice_get terms.now i ≡ Some term.now → IsTrue result }
{
    for place in places {
        if is_at(terms, *place, term) {
            return true;
        }
    }
    false
}

// Whether the term stands at the place.
fn is_at(terms: &[Term], place: usize, term: &Term) -> bool
    ensures { IsTrue result ↔ (slice_get terms.now place ≡ Some term.now) }
{
    match terms.get(place) {
        Some(sent) => same(sent, term),
        None => false,
    }
}

// Notes a place under a fingerprint. Where memory is wanting, what was noted stays.
fn note(
    alloc: Global,
    places: &mut IndexMap<u64, List<usize>>,
    hash: u64,
    place: usize,
) -> Result<(), AllocError>
    ensures kept { (h i : ℕ) → Contains (places_at places.old h) i → Contains (places_at places.new h) i }
    ensures noted { OnOk result (Contains (places_at places.new hash) place) }
{
    match places.get_mut(&hash) {
        Some(noted) => noted.push(place),
        None => {
            let mut noted = List::new(alloc);
            noted.push(place)?;
            places.insert(hash, noted)?;
            Ok(())
        }
    }
}

// The fingerprint of a term that is read behind others, whose fingerprint is given. Different terms
// may have one fingerprint, though few do.
#[tactic(auto, using(crate::proofs::SentLaws::fingerprint_at))]
fn fingerprint(hash: u64, term: &Term) -> u64
    ensures { result ≡ fingerprint hash term.now }
{
    match term {
        Term::Var(v) => mixed(mixed(mixed(hash, 1), v.num as u64), v.sort as u64),
        Term::Name(n) => mixed(mixed(hash, 2), *n as u64),
        Term::App(op, args) => {
            let mut read = mixed(mixed(hash, 3), op.num as u64);
            for arg in args.as_slice() {
                read = fingerprint(read, arg);
            }
            read
        }
    }
}

// Takes a number into a fingerprint.
fn mixed(hash: u64, n: u64) -> u64
    ensures { result ≡ mixed hash n }
{
    hash.wrapping_mul(6364136223846793005).wrapping_add(n)
}
