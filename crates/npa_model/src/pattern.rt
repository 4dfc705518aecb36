ghost use Rattle.std.specs.Prelude.{◌≡◌, ◌↔◌, min, IsTrue, IfOk};
ghost use Rattle.npa_term.specs.Symbols.{all_count};
ghost use Rattle.npa_model.specs.Patterns.{AreUnmoved, IsInitial, pattern_symbols, strand_symbols};

use npa_list::List;
use npa_sig::Protocol;
use npa_term::{NoMemory, Term, Terms, copy_all, same, symbols};
use std::alloc::Global;

/// A strand of a pattern: how many events of the protocol's strand were executed, the terms of its
/// parameters, and the messages of the executed events under these terms.
#[derive(Debug, Drop)]
pub struct PStrand {
    pub strand: u16,
    pub bar: u16,
    pub args: Terms,
    pub msgs: Terms,
}

/// The strands of a pattern, in order.
pub type PStrands = List<PStrand>;

/// A pattern: a state of the search with variables. It has strands, terms that the intruder knows
/// and terms that the intruder doesn't know yet.
#[derive(Debug, Drop)]
pub struct Pattern {
    pub strands: PStrands,
    pub known: Terms,
    pub unknown: Terms,
}

/// A list of patterns, in order.
pub type Patterns = List<Pattern>;

/// Where an instance that serves a strand of a pattern stands: exactly at the bar, or at it or
/// behind it, as a pattern that must never be met asks for.
#[derive(Debug, Clone, Copy, PartialEq, Eq)]
pub enum Standing {
    Exactly,
    AtLeast,
}

impl PStrand {
    /// The same strand. It takes memory for each of its terms.
    pub fn copy(&self, alloc: Global) -> Result<PStrand, NoMemory>
        ensures { IfOk result (λ copy. copy ≡ self.now) }
    {
        Ok(PStrand {
            strand: self.strand,
            bar: self.bar,
            args: copy_all(alloc, self.args.as_slice())?,
            msgs: copy_all(alloc, self.msgs.as_slice())?,
        })
    }

    /// Whether two strands are one and the same. It takes no memory.
    pub fn same(&self, other: &PStrand) -> bool
        ensures { IsTrue result ↔ (self.now ≡ other.now) }
    {
        self.strand == other.strand
            && self.bar == other.bar
            && same_terms(self.args.as_slice(), other.args.as_slice())
            && same_terms(self.msgs.as_slice(), other.msgs.as_slice())
    }
}

impl Pattern {
    /// The same pattern. It takes memory for each of its terms.
    pub fn copy(&self, alloc: Global) -> Result<Pattern, NoMemory>
        ensures { IfOk result (λ copy. copy ≡ self.now) }
    {
        Ok(Pattern {
            strands: copy_strands(alloc, self.strands.as_slice())?,
            known: copy_all(alloc, self.known.as_slice())?,
            unknown: copy_all(alloc, self.unknown.as_slice())?,
        })
    }

    /// Whether two patterns are one and the same. It takes no memory.
    pub fn same(&self, other: &Pattern) -> bool
        ensures { IsTrue result ↔ (self.now ≡ other.now) }
    {
        same_strands(self.strands.as_slice(), other.strands.as_slice())
            && same_terms(self.known.as_slice(), other.known.as_slice())
            && same_terms(self.unknown.as_slice(), other.unknown.as_slice())
    }
}

/// How many symbols a pattern has, in the values and messages of its strands and in its facts. The
/// number stops at `u64::MAX`. It takes no memory.
pub fn pattern_symbols(p: &Pattern) -> u64
    ensures { result ≡ min (pattern_symbols p.now) u64.MAX }
{
    strand_symbols(p.strands.as_slice())
        .saturating_add(all_symbols(p.known.as_slice()))
        .saturating_add(all_symbols(p.unknown.as_slice()))
}

/// Whether a pattern is initial: no strand has executed an event and nothing is known. It takes no
/// memory. No protocol has other initial patterns.
pub fn is_initial(_protocol: &Protocol, p: &Pattern) -> bool
    ensures { IsTrue result ↔ IsInitial p.now }
{
    p.known.is_empty() && are_unmoved(p.strands.as_slice())
}

// Whether each bar stands at the beginning.
fn are_unmoved(strands: &[PStrand]) -> bool
    ensures { IsTrue result ↔ AreUnmoved strands.now }
{
    for strand in strands {
        if strand.bar != 0 {
            return false;
        }
    }
    true
}

fn strand_symbols(strands: &[PStrand]) -> u64
    ensures { result ≡ min (strand_symbols strands.now) u64.MAX }
{
    let mut sum: u64 = 0;
    for strand in strands {
        sum = sum
            .saturating_add(all_symbols(strand.args.as_slice()))
            .saturating_add(all_symbols(strand.msgs.as_slice()));
    }
    sum
}

fn all_symbols(terms: &[Term]) -> u64
    ensures { result ≡ min (all_count terms.now) u64.MAX }
{
    let mut sum: u64 = 0;
    for term in terms {
        sum = sum.saturating_add(symbols(term));
    }
    sum
}

fn copy_strands(alloc: Global, strands: &[PStrand]) -> Result<PStrands, NoMemory>
    ensures { IfOk result (λ copies. copies ≡ strands.now) }
{
    let mut copies = Vec::with_capacity(alloc, strands.len())?;
    for strand in strands {
        copies.push(strand.copy(alloc)?)?;
    }
    Ok(List::from_vec(copies))
}

fn same_strands(ps: &[PStrand], qs: &[PStrand]) -> bool
    ensures { IsTrue result ↔ (ps.now ≡ qs.now) }
{
    if ps.len() != qs.len() {
        return false;
    }
    for i in 0..ps.len() {
        if !ps[i].same(&qs[i]) {
            return false;
        }
    }
    true
}

fn same_terms(ts: &[Term], us: &[Term]) -> bool
    ensures { IsTrue result ↔ (ts.now ≡ us.now) }
{
    if ts.len() != us.len() {
        return false;
    }
    for i in 0..ts.len() {
        if !same(&ts[i], &us[i]) {
            return false;
        }
    }
    true
}
