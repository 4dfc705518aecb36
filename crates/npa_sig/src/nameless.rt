ghost use Rattle.std.specs.Prelude.{◌≡◌, ◌<◌, ◌≤◌, ◌↔◌, ◌||◌, ℕ, false, replicate, length, slice_index_or, IfOk, IsTrue, IsFalse};
ghost use Rattle.npa_sorts.specs.Subsorts.{at_or_below};
ghost use Rattle.npa_sig.specs.Nameless.{CarriesNames, AreCarriers, any_marked, hands_names};
ghost use Rattle.npa_sig.specs.Sizes.{IsFirstOp};

use crate::signature::{OpDecl, Sig};
use npa_sorts::{FRESH, NoMemory, Sorts};
use std::alloc::Global;

impl Sig {
    /// Whether a sort is nameless, which is that it carries no names. A sort carries names where
    /// it is `Fresh`, or where an operator whose result sort is at or below it has an argument
    /// sort that carries names.
    pub fn nameless(&self, alloc: Global, sort: u16) -> Result<bool, NoMemory>
        ensures nameless { IfOk result (λ r. IsTrue r ↔ (CarriesNames self.now sort → ⊥)) }
        ensures carries { IfOk result (λ r. IsFalse r ↔ CarriesNames self.now sort) }
    {
        let marks = self.carriers(alloc)?;
        Ok(!is_marked(&marks, sort))
    }

    /// A mark for each sort, by its number, at those that carry names.
    pub fn carriers(&self, alloc: Global) -> Result<Vec<bool>, NoMemory>
        ensures marks { IfOk result (λ marks. AreCarriers self.now marks.items) }
    {
        self.laws();
        let sorts = self.sorts();
        sorts.laws();
        let _pairs = sorts.pairs();
        let mut marks = none_marked(alloc, sorts.declared() as usize + 2)?;
        marks[FRESH as usize] = true;
        while let Some(num) = first_handing(self, &marks) {
            mark_above(sorts, &mut marks, self.op(num).result);
        }
        Ok(marks)
    }
}

// As many marks as there are sorts, none set.
fn none_marked(alloc: Global, count: usize) -> Result<Vec<bool>, NoMemory>
    ensures { IfOk result (λ marks. marks.items ≡ replicate count false) }
{
    Ok(vec![in alloc; false; count]?)
}

// The first operator that hands names from an argument sort with a mark to its result sort, which
// has none yet.
fn first_handing(sig: &Sig, marks: &[bool]) -> Option<u16>
    ensures { IsFirstOp (hands_names marks.now) sig.now.ops result }
{
    sig.laws();
    for (num, decl) in sig.ops().as_slice().iter().enumerate() {
        if hands_names(marks, decl) {
            return Some(num as u16);
        }
    }
    None
}

// Whether an operator's result sort has no mark and one of its argument sorts has one.
fn hands_names(marks: &[bool], decl: &OpDecl) -> bool
    ensures { result ≡ hands_names marks.now decl.now }
{
    !is_marked(marks, decl.result) && any_marked(marks, decl.args.as_slice())
}

// Whether one of these sorts has a mark.
#[tactic(auto, using(crate::proofs::Carriers::any_step))]
fn any_marked(marks: &[bool], sorts: &[u16]) -> bool
    ensures { result ≡ any_marked marks.now sorts.now }
{
    for sort in sorts {
        if is_marked(marks, *sort) {
            return true;
        }
    }
    false
}

// Whether a sort has a mark.
fn is_marked(marks: &[bool], sort: u16) -> bool
    ensures { result ≡ slice_index_or marks.now sort false }
{
    match marks.get(sort as usize) {
        Some(marked) => *marked,
        None => false,
    }
}

// Marks the sorts at or above a sort.
fn mark_above(sorts: &Sorts, marks: &mut [bool], sort: u16)
    requires { length marks.old ≤ 65535 }
    ensures { (s : ℕ) → s < length marks.old → slice_index_or marks.new s false
        ≡ (slice_index_or marks.old s false || at_or_below sorts.now sort s) }
{
    for s in 0..marks.len() {
        if sorts.le(sort, s as u16) {
            marks[s] = true;
        }
    }
}
