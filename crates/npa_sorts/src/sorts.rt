ghost use Rattle.std.specs.Prelude.{◌≡◌, ◌≢◌, ◌<◌, ◌≤◌, ◌+◌, ◌↔◌, ℕ, None, Some, IsTrue, Contains, [], ◌∷◌, ◌++◌, false, IfOk, OnOk, OnErr, IsErrOf, position};
ghost use Rattle.std.specs.Bool.{OnTrue, OnFalse};
ghost use Rattle.std.specs.List.Sorted.{IsStrictlyIncreasing};
ghost use Rattle.npa_sorts.specs.Lowers.{lowers};
ghost use Rattle.npa_sorts.specs.Subsorts.{subsorts, at_or_below, IsSort, AreSorts, IsBelow, IsAtOrBelow, IsFirstInCycle, IsMaximalLower, IsPassedBy, names_fresh};

use crate::error::{NoMemory, SortFail};
use crate::table::{at_or_above, cell, close, copied, first_in_cycle, grown, raise, start};
use npa_list::List;
use std::alloc::Global;
use std::marker::Model;

/// The number of the sort of all messages, which every declared sort is at or below.
pub const MSG: u16 = 0;

/// The number of the sort of fresh names, which is neither below nor above another sort.
pub const FRESH: u16 = 1;

/// A list of numbers of sorts.
pub type SortNums = List<u16>;

/// The numbers of two sorts, of which the first is declared to be below the second.
pub type SortPair = (u16, u16);

/// A list of pairs of sorts.
pub type SortPairs = List<SortPair>;

/// The sorts of a signature with their order: `Msg`, `Fresh` and the declared sorts, which are
/// numbered from 2. Each declared sort is below `Msg`, and no sort is strictly below itself.
#[derive(Debug, Drop)]
pub struct Sorts {
    declared: u16,
    pairs: SortPairs,
    below: Vec<Vec<bool>>,
}

impl Model for Sorts {
    ghost use Rattle.npa_sorts.specs.Subsorts.{Subsorts, subsorts};
    ghost use Rattle.npa_sorts.specs.Table.{rows_of, IsOrder};

    ghost Value = { Subsorts };

    ghost view = { λ s. subsorts s.declared s.pairs };

    ghost invariant = { λ s. IsOrder (subsorts s.declared s.pairs) (rows_of s.below.items) };
}

impl Sorts {
    /// The order that pairs of a lower and an upper sort make: the reflexive and transitive
    /// closure of the pairs and of each declared sort below `Msg`.
    pub fn new(alloc: Global, declared: u16, pairs: &SortPairs) -> Result<Sorts, SortFail>
        requires few { declared ≤ 65533 }
        requires sorts { AreSorts (subsorts declared pairs.now) }
        ensures value { IfOk result (λ s. s ≡ subsorts declared pairs.now) }
        ensures order { IfOk result (λ s. (r : ℕ) → IsBelow s r r → ⊥) }
        ensures fresh { (k : ℕ) → IsErrOf result (SortFail.Fresh k)
            ↔ (position names_fresh pairs.now ≡ Some k) }
        ensures cycle { (s : ℕ) → IsErrOf result (SortFail.Cycle s)
            → IsFirstInCycle (subsorts declared pairs.now) s }
    {
        if let Some(place) = first_fresh(pairs.as_slice()) {
            return Err(SortFail::Fresh(place as u64));
        }
        let below = close(alloc, declared, pairs.as_slice())?;
        if let Some(sort) = first_in_cycle(&below) {
            return Err(SortFail::Cycle(sort as u16));
        }
        Ok(Sorts {
            declared,
            pairs: List::from_slice(alloc, pairs.as_slice())?,
            below,
        })
    }

    /// The order without declared sorts: of `Msg` and `Fresh`, neither below the other.
    pub fn built_in(alloc: Global) -> Result<Sorts, NoMemory>
        ensures { IfOk result (λ s. s ≡ subsorts 0 []) }
    {
        Ok(Sorts {
            declared: 0,
            pairs: List::new(alloc),
            below: start(alloc, 0)?,
        })
    }

    /// The same order. It takes memory for its pairs and, for each two of its sorts, for whether
    /// the one is below the other.
    pub fn copy(&self, alloc: Global) -> Result<Sorts, NoMemory>
        ensures { IfOk result (λ copy. copy ≡ self.now) }
    {
        Ok(Sorts {
            declared: self.declared,
            pairs: List::from_slice(alloc, self.pairs.as_slice())?,
            below: copied(alloc, &self.below)?,
        })
    }

    /// Declares one more sort. Its number is the last one, and it is below `Msg`. Where memory is
    /// wanting the order stays as it was.
    pub fn declare(&mut self, alloc: Global) -> Result<(), NoMemory>
        requires { self.old.declared < 65533 }
        ensures ok { OnOk result (self.new ≡ subsorts (self.old.declared + 1) self.old.pairs) }
        ensures err { OnErr result (self.new ≡ self.old) }
    {
        self.below = grown(alloc, &self.below)?;
        self.declared += 1;
        Ok(())
    }

    /// Puts a sort below another, which isn't at or below it yet. Where memory is wanting the
    /// order stays as it was.
    pub fn put_below(&mut self, alloc: Global, lower: u16, upper: u16) -> Result<(), NoMemory>
        requires lower { IsSort self.old lower }
        requires upper { IsSort self.old upper }
        requires not_fresh { (lower ≢ FRESH) × (upper ≢ FRESH) }
        requires acyclic { at_or_below self.old upper lower ≡ false }
        ensures ok { OnOk result (self.new
            ≡ subsorts self.old.declared (self.old.pairs ++ (lower, upper) ∷ [])) }
        ensures err { OnErr result (self.new ≡ self.old) }
    {
        let above = at_or_above(alloc, &self.below[upper as usize], upper as usize)?;
        self.pairs.push((lower, upper))?;
        raise(&mut self.below, lower as usize, &above);
        Ok(())
    }

    /// How many sorts are declared.
    pub fn declared(&self) -> u16
        ensures value { result ≡ self.now.declared }
        ensures few { result ≤ 65533 }
    {
        self.declared
    }

    /// The pairs of a lower and an upper sort that the order was made from.
    pub fn pairs(&self) -> &SortPairs
        ensures value { result.now ≡ self.now.pairs }
        ensures sorts { AreSorts self.now }
        ensures apart { position names_fresh self.now.pairs ≡ None }
    {
        &self.pairs
    }

    /// Does nothing: its clauses are the laws of the order, for the proofs of the crates above.
    /// It is a partial order of the sorts, `Msg` is above each declared sort, and `Fresh` stands
    /// alone.
    pub fn laws(&self)
        ensures transitive { (s t u : ℕ) → IsAtOrBelow self.now s t → IsAtOrBelow self.now t u
            → IsAtOrBelow self.now s u }
        ensures antisymmetric { (s t : ℕ) → IsAtOrBelow self.now s t → IsAtOrBelow self.now t s
            → s ≡ t }
        ensures acyclic { (s : ℕ) → IsBelow self.now s s → ⊥ }
        ensures lower { (s t : ℕ) → IsAtOrBelow self.now s t → IsSort self.now t
            → IsSort self.now s }
        ensures msg { (s : ℕ) → 2 ≤ s → IsSort self.now s → IsAtOrBelow self.now s MSG }
        ensures fresh { (s t : ℕ) → IsBelow self.now s t → (s ≢ FRESH) × (t ≢ FRESH) }
        ensures decides { (s t : ℕ) → IsTrue (at_or_below self.now s t) ↔ IsAtOrBelow self.now s t }
    {
        let _below = &self.below;
    }

    /// Whether the first sort is at or below the second. A number that is no sort's is at or below
    /// itself alone.
    #[tactic(auto, using(crate::proofs::Climbs::same_at_or_below, crate::proofs::Climbs::below_decides))]
    pub fn le(&self, s: u16, t: u16) -> bool
        ensures value { result ≡ at_or_below self.now s t }
        ensures decides { IsTrue result ↔ IsAtOrBelow self.now s t }
    {
        s == t || self.is_below(s, t)
    }

    // Whether the first sort is strictly below the second.
    fn is_below(&self, s: u16, t: u16) -> bool
        ensures { IsTrue result ↔ IsBelow self.now s t }
    {
        s.max(t) < self.declared + 2 && cell(&self.below, s as usize, t as usize)
    }

    /// The maximal sorts that are at or below both, in ascending order.
    pub fn maximal_lower(&self, alloc: Global, s: u16, t: u16) -> Result<SortNums, NoMemory>
        requires first { IsSort self.now s }
        requires second { IsSort self.now t }
        ensures maximal { IfOk result (λ sorts.
            (r : ℕ) → Contains sorts r ↔ IsMaximalLower self.now s t r) }
        ensures ascending { IfOk result (λ sorts. IsStrictlyIncreasing sorts) }
        ensures value { IfOk result (λ sorts. sorts ≡ lowers self.now s t) }
    {
        let mut found = List::new(alloc);
        for r in 0..self.declared + 2 {
            if self.is_maximal_lower(r, s, t) {
                found.push(r)?;
            }
        }
        Ok(found)
    }

    // Whether a sort is a maximal one at or below both.
    fn is_maximal_lower(&self, lower: u16, s: u16, t: u16) -> bool
        requires lower { IsSort self.now lower }
        requires first { IsSort self.now s }
        requires second { IsSort self.now t }
        ensures { IsTrue result ↔ IsMaximalLower self.now s t lower }
    {
        self.is_common(lower, s, t) && !self.is_below_common(lower, s, t)
    }

    // Whether another sort that is at or below both is above this one.
    fn is_below_common(&self, lower: u16, s: u16, t: u16) -> bool
        requires lower { IsSort self.now lower }
        requires first { IsSort self.now s }
        requires second { IsSort self.now t }
        ensures passed { OnTrue result ((r : ℕ) × IsPassedBy self.now s t lower r) }
        ensures maximal { OnFalse result ((r : ℕ) → IsAtOrBelow self.now r s
            → IsAtOrBelow self.now r t → IsAtOrBelow self.now lower r → lower ≡ r) }
    {
        for r in 0..self.declared + 2 {
            if r != lower && self.le(lower, r) && self.is_common(r, s, t) {
                return true;
            }
        }
        false
    }

    // Whether a sort is at or below both.
    fn is_common(&self, lower: u16, s: u16, t: u16) -> bool
        requires lower { IsSort self.now lower }
        requires first { IsSort self.now s }
        requires second { IsSort self.now t }
        ensures { IsTrue result ↔ (IsAtOrBelow self.now lower s × IsAtOrBelow self.now lower t) }
    {
        self.le(lower, s) && self.le(lower, t)
    }
}

// The place of the first pair that names `Fresh`.
fn first_fresh(pairs: &[SortPair]) -> Option<usize>
    ensures { result ≡ position names_fresh pairs.now }
{
    pairs.iter().position(|p| p.0 == FRESH || p.1 == FRESH)
}
