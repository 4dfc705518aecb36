ghost use Rattle.std.specs.Prelude.{◌≡◌, ◌≤◌, ◌^◌, ◌↔◌, ◌∷◌, [], ℕ, List, All, Contains, IsTrue, IfOk, IsErrOf, Ok, Err, flat_map};
ghost use Rattle.npa_sorts.specs.Subsorts.{IsSort};
ghost use Rattle.npa_term.specs.declared.term.Term.{Term as Tree};
ghost use Rattle.npa_term.specs.declared.term.Var.{Var as Variable};
ghost use Rattle.npa_unify.specs.Answers.{judged, started, unifiers};
ghost use Rattle.npa_unify.specs.Branches.{Branch, ends, pair_variables};
ghost use Rattle.npa_unify.specs.Seen.{AreSound, IsReached, finished_all, seen_all};
ghost use Rattle.npa_unify.specs.Unifiers.{AreLow, HaveOneSort, IsAnswer, IsComplete, IsUnifier};

use crate::clashes::some_clash;
use crate::error::UnifyFail;
use crate::search::{Waiting, next_end, start};
use crate::sizes::first_large;
use crate::substs::{finish, keep};
use npa_list::List;
use npa_sorts::Sorts;
use npa_term::{NoMemory, Substs, TermPairs};
use std::alloc::Global;

/// The most branches of which `unify` answers the unifiers.
pub const MAX_UNIFIERS: u32 = 4096;

/// Most general unifiers of pairs of terms modulo commutativity that respect sorts, in the order of
/// the search and without those that are the same as an earlier one: each unifier is an instance of
/// one of them. `next` is past the numbers of the variables of the pairs, and new variables are
/// numbered from it.
///
/// `TooLarge` comes exactly where a value of one of the first 4,097 branches that succeed has more
/// than 1,024 symbols, with the size of the first such value, and otherwise `TooMany` exactly where
/// more than `MAX_UNIFIERS` branches succeed. Branches with the same unifier are counted one by one.
pub fn unify(
    alloc: Global,
    sorts: &Sorts,
    pairs: &TermPairs,
    next: u32,
) -> Result<Substs, UnifyFail>
    requires sorts { (v : Variable) → Contains (pair_variables pairs.now) v
        → IsSort sorts.now v.sort }
    requires low { AreLow pairs.now next }
    requires room { next ≤ 2 ^ 31 }
    requires one { HaveOneSort pairs.now }
    ensures list { IfOk result (λ ss. judged (unifiers sorts.now pairs.now next) ≡ Ok ss) }
    ensures many { IsErrOf result UnifyFail.TooMany
        → judged (unifiers sorts.now pairs.now next) ≡ Err UnifyFail.TooMany }
    ensures large { (n : ℕ) → IsErrOf result (UnifyFail.TooLarge n)
        → judged (unifiers sorts.now pairs.now next) ≡ Err (UnifyFail.TooLarge n) }
    ensures answers { IfOk result (λ ss. All (IsAnswer sorts.now pairs.now next) ss) }
    ensures complete { IfOk result (λ ss. IsComplete sorts.now pairs.now next ss) }
{
    sorts.laws();
    sorts.pairs();
    if some_clash(pairs.as_slice()) {
        return Ok(List::new(alloc));
    }
    let mut waiting = open(alloc, pairs, next)?;
    collect(alloc, sorts, &mut waiting)
}

/// Whether some substitution makes the members of each pair equal modulo commutativity and respects
/// sorts. `next` is past the numbers of the variables of the pairs. There is no limit.
pub fn unifiable(
    alloc: Global,
    sorts: &Sorts,
    pairs: &TermPairs,
    next: u32,
) -> Result<bool, NoMemory>
    requires sorts { (v : Variable) → Contains (pair_variables pairs.now) v
        → IsSort sorts.now v.sort }
    requires low { AreLow pairs.now next }
    requires room { next ≤ 2 ^ 31 }
    requires one { HaveOneSort pairs.now }
    ensures { IfOk result (λ found. IsTrue found
        ↔ (s : List (Variable × Tree)) × IsUnifier sorts.now pairs.now s) }
{
    sorts.laws();
    sorts.pairs();
    if some_clash(pairs.as_slice()) {
        return Ok(false);
    }
    let mut waiting = open(alloc, pairs, next)?;
    match next_end(alloc, sorts, &mut waiting)? {
        Some(_) => Ok(true),
        None => Ok(false),
    }
}

// The first branch, which has all pairs to unify.
fn open<'a>(alloc: Global, pairs: &'a TermPairs, next: u32) -> Result<Waiting<'a>, NoMemory>
    ensures all { IfOk result (λ waiting. seen_all waiting.items
        ≡ started pairs.now next ∷ []) }
    ensures sound { IfOk result (λ waiting. AreSound waiting.items) }
{
    let mut waiting = Vec::new(alloc);
    waiting.push(start(alloc, pairs, next)?)?;
    Ok(waiting)
}

// The unifiers of the branches that succeed, from those that wait on.
fn collect<'a>(alloc: Global, sorts: &Sorts, waiting: &mut Waiting<'a>) -> Result<Substs, UnifyFail>
    requires sound { AreSound waiting.now.items }
    requires reached { (b : Branch) → Contains (seen_all waiting.now.items) b
        → IsReached sorts.now b }
    ensures list { IfOk result (λ ss. judged (finished_all
        (flat_map (ends sorts.now) (seen_all waiting.old.items))) ≡ Ok ss) }
    ensures many { IsErrOf result UnifyFail.TooMany → judged (finished_all
        (flat_map (ends sorts.now) (seen_all waiting.old.items))) ≡ Err UnifyFail.TooMany }
    ensures large { (n : ℕ) → IsErrOf result (UnifyFail.TooLarge n) → judged (finished_all
        (flat_map (ends sorts.now) (seen_all waiting.old.items))) ≡ Err (UnifyFail.TooLarge n) }
{
    let mut kept = List::new(alloc);
    let mut left = MAX_UNIFIERS;
    while let Some(state) = next_end(alloc, sorts, waiting)? {
        match first_large(alloc, state.bound.as_slice())? {
            Some(count) => return Err(UnifyFail::TooLarge(count)),
            None => {}
        }
        if left == 0 {
            return Err(UnifyFail::TooMany);
        }
        left -= 1;
        keep(&mut kept, finish(alloc, state.bound.as_slice())?)?;
    }
    Ok(kept)
}
