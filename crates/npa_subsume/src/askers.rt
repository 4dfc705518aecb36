ghost use Rattle.std.specs.Prelude.{◌≡◌, ◌↔◌, ◌<◌, ◌+◌, ◌++◌, length, zip, IsTrue, IfOk, OnOk};
ghost use Rattle.npa_match.specs.Matching.{read_pairs};
ghost use Rattle.npa_subsume.specs.Offering.{AreAdded, AreAskers, AreKindred, AreOffers, ForFact, ForStrand, IsGrown, OfFact, OfStrand, strand_pairs};

use npa_choice::{Offer, Offers};
use npa_list::List;
use npa_match::has_match;
use npa_model::{PStrand, Pattern};
use npa_sorts::Sorts;
use npa_term::{NoMemory, Term};
use std::alloc::Global;

/// An asker for each strand and each fact of a pattern. It is offered the strands or facts of the
/// other that it matches by itself.
pub(crate) fn askers_of<'a>(
    alloc: Global,
    sorts: &Sorts,
    t: &'a Pattern,
    s: &'a Pattern,
) -> Result<List<Offers<'a>>, NoMemory>
    ensures { IfOk result (AreAskers sorts.now t.now s.now) }
{
    let mut askers = List::new(alloc);
    add_strands(
        alloc,
        sorts,
        &mut askers,
        t.strands.as_slice(),
        s.strands.as_slice(),
    )?;
    add_facts(
        alloc,
        sorts,
        &mut askers,
        t.known.as_slice(),
        s.known.as_slice(),
    )?;
    add_facts(
        alloc,
        sorts,
        &mut askers,
        t.unknown.as_slice(),
        s.unknown.as_slice(),
    )?;
    Ok(askers)
}

fn add_strands<'a>(
    alloc: Global,
    sorts: &Sorts,
    askers: &mut List<Offers<'a>>,
    ps: &'a [PStrand],
    qs: &'a [PStrand],
) -> Result<(), NoMemory>
    ensures { OnOk result
        (AreAdded (ForStrand sorts.now qs.now) ps.now (length ps.now) askers.old askers.new) }
{
    for p in ps {
        askers.push(strand_offers(alloc, sorts, p, qs)?)?;
    }
    Ok(())
}

fn add_facts<'a>(
    alloc: Global,
    sorts: &Sorts,
    askers: &mut List<Offers<'a>>,
    ts: &'a [Term],
    us: &'a [Term],
) -> Result<(), NoMemory>
    ensures { OnOk result
        (AreAdded (ForFact sorts.now us.now) ts.now (length ts.now) askers.old askers.new) }
{
    for t in ts {
        askers.push(fact_offers(alloc, sorts, t, us)?)?;
    }
    Ok(())
}

// The strands to which a strand may be sent, each with its place.
fn strand_offers<'a>(
    alloc: Global,
    sorts: &Sorts,
    p: &'a PStrand,
    qs: &'a [PStrand],
) -> Result<Offers<'a>, NoMemory>
    ensures { IfOk result (ForStrand sorts.now qs.now p.now) }
{
    let mut offers = List::new(alloc);
    for at in 0..qs.len() {
        offer_strand(alloc, sorts, &mut offers, p, qs, at)?;
    }
    Ok(offers)
}

// The facts to which a fact may be sent.
fn fact_offers<'a>(
    alloc: Global,
    sorts: &Sorts,
    t: &'a Term,
    us: &'a [Term],
) -> Result<Offers<'a>, NoMemory>
    ensures { IfOk result (ForFact sorts.now us.now t.now) }
{
    let mut offers = List::new(alloc);
    for at in 0..us.len() {
        offer_fact(alloc, sorts, &mut offers, t, us, at)?;
    }
    Ok(offers)
}

fn offer_strand<'a>(
    alloc: Global,
    sorts: &Sorts,
    offers: &mut Offers<'a>,
    p: &'a PStrand,
    qs: &'a [PStrand],
    at: usize,
) -> Result<(), NoMemory>
    requires within { at < length qs.now }
    requires offers { AreOffers sorts.now (OfStrand p.now qs.now at) offers.old }
    ensures { OnOk result (AreOffers sorts.now (OfStrand p.now qs.now (at + 1)) offers.new) }
{
    let q = &qs[at];
    if !are_kindred(p, q) {
        return Ok(());
    }
    let pairs = pairs_of(alloc, p, q)?;
    add_offer(alloc, sorts, offers, Some(at), pairs.as_slice())
}

fn offer_fact<'a>(
    alloc: Global,
    sorts: &Sorts,
    offers: &mut Offers<'a>,
    t: &'a Term,
    us: &'a [Term],
    at: usize,
) -> Result<(), NoMemory>
    requires within { at < length us.now }
    requires offers { AreOffers sorts.now (OfFact t.now us.now at) offers.old }
    ensures { OnOk result (AreOffers sorts.now (OfFact t.now us.now (at + 1)) offers.new) }
{
    add_offer(alloc, sorts, offers, None, &[(t, &us[at])])
}

// Adds an offer, where its pairs have a matcher.
fn add_offer<'a>(
    alloc: Global,
    sorts: &Sorts,
    offers: &mut Offers<'a>,
    place: Option<usize>,
    pairs: &[(&'a Term, &'a Term)],
) -> Result<(), NoMemory>
    ensures { OnOk result
        (IsGrown sorts.now offers.old place (read_pairs pairs.now) offers.new) }
{
    if has_match(alloc, sorts, pairs)? {
        let pairs = List::from_slice(alloc, pairs)?;
        offers.push(Offer { place, pairs })?;
    }
    Ok(())
}

// Whether two strands differ in their terms alone.
fn are_kindred(p: &PStrand, q: &PStrand) -> bool
    ensures { IsTrue result ↔ AreKindred p.now q.now }
{
    p.strand == q.strand
        && p.bar == q.bar
        && p.args.len() == q.args.len()
        && p.msgs.len() == q.msgs.len()
}

// The terms of a strand, each with that of the other at its place.
fn pairs_of<'a>(
    alloc: Global,
    p: &'a PStrand,
    q: &'a PStrand,
) -> Result<List<(&'a Term, &'a Term)>, NoMemory>
    ensures { IfOk result (λ pairs. read_pairs pairs ≡ strand_pairs p.now q.now) }
{
    let mut pairs = List::new(alloc);
    add_pairs(&mut pairs, p.args.as_slice(), q.args.as_slice())?;
    add_pairs(&mut pairs, p.msgs.as_slice(), q.msgs.as_slice())?;
    Ok(pairs)
}

#[tactic(auto, using(crate::proofs::Zipped::all_added))]
fn add_pairs<'a>(
    pairs: &mut List<(&'a Term, &'a Term)>,
    ts: &'a [Term],
    us: &'a [Term],
) -> Result<(), NoMemory>
    ensures { OnOk result (read_pairs pairs.new ≡ read_pairs pairs.old ++ zip ts.now us.now) }
{
    for i in 0..ts.len().min(us.len()) {
        pairs.push((&ts[i], &us[i]))?;
    }
    Ok(())
}
