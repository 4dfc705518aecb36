ghost use Rattle.std.specs.Prelude.{◌≡◌, ◌<◌, ◌≤◌, ◌+◌, ℕ, None, Some, length, slice_index_or, slice_get, IfOk, IfSome};
ghost use Rattle.npa_sorts.specs.Subsorts.{at_or_below};
ghost use Rattle.npa_term.specs.declared.term.Term.{Name};
ghost use Rattle.npa_sig.specs.Least.{IsBuiltOf, IsLeastIn, IsLeastOf, IsGroundFault};
ghost use Rattle.npa_sig.specs.Operators.{HaveSorts};
ghost use Rattle.npa_sig.specs.Sizes.{summed, offered, better, settled, is_least_op, same_size, IsFirstEmpty, IsFirstPast, IsFirstOp, IsCheapest, AreSizes};

use crate::fault::{GroundFault, LeastFail};
use crate::signature::{OpDecl, Sig};
use npa_list::List;
use npa_sorts::{FRESH, NoMemory, Sorts};
use npa_term::{Op, Term};
use std::alloc::Global;

/// How many symbols the least ground term of a sort may have.
pub const MAX_GROUND: u64 = 64;

// A sort and how many symbols the least terms of one of its operators have.
#[derive(Clone, Copy)]
struct Offer {
    sort: u16,
    size: u64,
}

impl Sig {
    /// The least ground term of a sort: the one with fewest symbols, and of those the first in the
    /// order of terms; that of `Fresh` is the fresh name 0. `None` exactly where the sort has no
    /// ground term, and `Past` exactly where the least one has more than 64 symbols.
    pub fn least(&self, alloc: Global, sort: u16) -> Result<Option<Term>, LeastFail>
        ensures answer { IsLeastOf self.now sort result }
        ensures fresh { sort ≡ FRESH → IfOk result (λ found. found ≡ Some (Name 0)) }
    {
        self.laws();
        let sizes = sizes(alloc, self.sorts(), self.ops().as_slice())?;
        if let Some(size) = size_at(&sizes, sort) {
            if size > MAX_GROUND {
                return Err(LeastFail::Past(size));
            }
        }
        Ok(least_term(alloc, self, &sizes, sort)?)
    }

    /// What is wrong with the ground terms of the sorts: the first sort, by number, that has none;
    /// where all have some, the first whose least one has more than 64 symbols, with its number.
    /// The sizes of all sorts are computed at once.
    pub fn ground_fault(&self, alloc: Global) -> Result<Option<GroundFault>, NoMemory>
        ensures fault { IfOk result (λ fault. IsGroundFault self.now fault) }
    {
        self.laws();
        let sizes = sizes(alloc, self.sorts(), self.ops().as_slice())?;
        if let Some(sort) = first_empty(self.sorts(), &sizes) {
            return Ok(Some(GroundFault::Inhabited(sort)));
        }
        match first_past(self.sorts(), &sizes) {
            Some((sort, size)) => Ok(Some(GroundFault::Ground(sort, size))),
            None => Ok(None),
        }
    }
}

// The first sort without a size.
fn first_empty(sorts: &Sorts, sizes: &[Option<u64>]) -> Option<u16>
    ensures { IsFirstEmpty sorts.now sizes.now result }
{
    for s in 0..sorts.declared() + 2 {
        if size_at(sizes, s).is_none() {
            return Some(s);
        }
    }
    None
}

// The first sort whose size is past 64, with the size.
fn first_past(sorts: &Sorts, sizes: &[Option<u64>]) -> Option<(u16, u64)>
    ensures { IsFirstPast sorts.now sizes.now result }
{
    for s in 0..sorts.declared() + 2 {
        if let Some(size) = size_at(sizes, s) {
            if size > MAX_GROUND {
                return Some((s, size));
            }
        }
    }
    None
}

// The least ground term of a sort that has no more than 64 symbols, by the sizes of all sorts.
fn least_term(
    alloc: Global,
    sig: &Sig,
    sizes: &[Option<u64>],
    sort: u16,
) -> Result<Option<Term>, NoMemory>
    requires sorts { HaveSorts sig.now.sorts sig.now.ops }
    requires sizes { AreSizes sig.now.sorts sig.now.ops sizes.now }
    requires small { IfSome (slice_index_or sizes.now sort None) (λ size. size ≤ 64) }
    ensures { IfOk result (λ found. IsLeastIn (IsBuiltOf sig.now.sorts sig.now.ops sort) found) }
{
    if sig.sorts().le(FRESH, sort) {
        return Ok(Some(Term::Name(0)));
    }
    let num = match first_op(sig, sizes, sort) {
        Some(num) => num,
        None => return Ok(None),
    };
    let decl = sig.op(num);
    let mut args = Vec::with_capacity(alloc, decl.args.len())?;
    for arg in decl.args.as_slice() {
        match least_term(alloc, sig, sizes, *arg)? {
            Some(t) => args.push(t)?,
            None => return Ok(None),
        }
    }
    let op = Op {
        num,
        result: decl.result,
        com: decl.com,
    };
    Ok(Some(Term::App(op, List::from_vec(args))))
}

// The first operator whose result sort is at or below a sort and whose least terms are of the
// sort's size.
fn first_op(sig: &Sig, sizes: &[Option<u64>], sort: u16) -> Option<u16>
    ensures { IsFirstOp (is_least_op sig.now.sorts sizes.now sort) sig.now.ops result }
{
    sig.laws();
    for (num, decl) in sig.ops().as_slice().iter().enumerate() {
        if is_least_op(sig.sorts(), sizes, sort, decl) {
            return Some(num as u16);
        }
    }
    None
}

// Whether an operator's result sort is at or below a sort and its least terms are of the sort's
// size.
fn is_least_op(sorts: &Sorts, sizes: &[Option<u64>], sort: u16, decl: &OpDecl) -> bool
    ensures { result ≡ is_least_op sorts.now sizes.now sort decl.now }
{
    sorts.le(decl.result, sort)
        && same_size(size_at(sizes, sort), op_size(sizes, decl.args.as_slice()))
}

// Whether both are known and equal.
fn same_size(first: Option<u64>, second: Option<u64>) -> bool
    ensures { result ≡ same_size first second }
{
    match (first, second) {
        (Some(m), Some(n)) => m == n,
        _ => false,
    }
}

// The number of symbols of the least ground term of each sort, where it has one, up to `u64::MAX`.
fn sizes(alloc: Global, sorts: &Sorts, ops: &[OpDecl]) -> Result<Vec<Option<u64>>, NoMemory>
    requires sorts { HaveSorts sorts.now ops.now }
    ensures { IfOk result (λ sizes. AreSizes sorts.now ops.now sizes.items) }
{
    let _pairs = sorts.pairs();
    let mut sizes = vec![in alloc; None; sorts.declared() as usize + 2]?;
    settle(
        sorts,
        &mut sizes,
        Offer {
            sort: FRESH,
            size: 1,
        },
    );
    while let Some(offer) = cheapest(&sizes, ops) {
        settle(sorts, &mut sizes, offer);
    }
    Ok(sizes)
}

// The operator with fewest symbols of those whose result sort isn't settled and whose argument
// sorts are.
#[tactic(auto, using(crate::proofs::SizeSteps::cheapest_more))]
fn cheapest(sizes: &[Option<u64>], ops: &[OpDecl]) -> Option<Offer>
    ensures { IsCheapest sizes.now ops.now result }
{
    let mut best = None;
    for decl in ops {
        best = better(best, offered(sizes, decl));
    }
    best
}

// The offer with fewer symbols, the earlier one of equals.
fn better(best: Option<Offer>, other: Option<Offer>) -> Option<Offer>
    ensures { result ≡ better best other }
{
    match (best, other) {
        (Some(b), Some(o)) if o.size < b.size => other,
        (None, _) => other,
        _ => best,
    }
}

// What an operator offers to its result sort, where that isn't settled.
fn offered(sizes: &[Option<u64>], decl: &OpDecl) -> Option<Offer>
    ensures { result ≡ offered sizes.now decl.now }
{
    if size_at(sizes, decl.result).is_some() {
        return None;
    }
    match op_size(sizes, decl.args.as_slice()) {
        Some(size) => Some(Offer {
            sort: decl.result,
            size,
        }),
        None => None,
    }
}

// The symbols of the least terms of an operator with arguments of these sorts.
#[tactic(auto, using(crate::proofs::SizeSteps::summed_step))]
fn op_size(sizes: &[Option<u64>], args: &[u16]) -> Option<u64>
    ensures { result ≡ summed sizes.now 1 args.now }
{
    let mut sum: u64 = 1;
    for arg in args {
        match size_at(sizes, *arg) {
            Some(size) => sum = sum.saturating_add(size),
            None => return None,
        }
    }
    Some(sum)
}

// The size of a sort.
fn size_at(sizes: &[Option<u64>], sort: u16) -> Option<u64>
    ensures { result ≡ slice_index_or sizes.now sort None }
{
    match sizes.get(sort as usize) {
        Some(size) => *size,
        None => None,
    }
}

// Gives an offer's size to each sort at or above its sort that has none.
fn settle(sorts: &Sorts, sizes: &mut [Option<u64>], offer: Offer)
    requires { length sizes.old ≤ 65535 }
    ensures { (s : ℕ) → s < length sizes.old → slice_index_or sizes.new s None
        ≡ settled (slice_index_or sizes.old s None) (at_or_below sorts.now offer.sort s) offer.size }
{
    for s in 0..sizes.len() {
        sizes[s] = settled(sizes[s], sorts.le(offer.sort, s as u16), offer.size);
    }
}

// The size of a sort after an offer to a sort that it is at or above, or isn't.
fn settled(old: Option<u64>, is_above: bool, size: u64) -> Option<u64>
    ensures { result ≡ settled old is_above size }
{
    match old {
        None if is_above => Some(size),
        _ => old,
    }
}
