ghost use Rattle.std.specs.Prelude.{◌≡◌, ◌<◌, ◌+◌, min, map, length, Some, IfOk, slice_get};
ghost use Rattle.npa_term.specs.Composition.{first_past};
ghost use Rattle.npa_term.specs.Symbols.{symbol_count, all_count};
ghost use Rattle.npa_unify.specs.Answers.{finished};
ghost use Rattle.npa_unify.specs.Seen.{AreKnown, IsSound, counts, full, head_term, raw, solved};

use crate::bindings::{Known, nothing_known, place_of};
use crate::heads::{Binding, Head, walk_head};
use npa_term::{MAX_SYMBOLS, NoMemory, Term, Var};
use std::alloc::Global;

// The sizes of the values of bindings, as far as they are known.
type Sizes = Known<u64>;

/// The size of the first value that is too large, in the order of the bindings. No value is made.
pub(crate) fn first_large(alloc: Global, bound: &[Binding<'_>]) -> Result<Option<u64>, NoMemory>
    requires sound { IsSound (raw bound.now) }
    ensures { IfOk result (λ found. found
        ≡ first_past 1024 (finished (solved (raw bound.now)))) }
{
    let mut known = nothing_known(alloc, bound.len())?;
    for at in 0..bound.len() {
        let count = value_size(bound, &mut known, at);
        if count > MAX_SYMBOLS {
            return Ok(Some(count));
        }
    }
    Ok(None)
}

// How many symbols the value of a binding stands for. The sizes of values that are found on the way
// are known from then on.
#[cycle(sizes)]
fn value_size<'a>(bound: &[Binding<'a>], known: &mut Sizes, at: usize) -> u64
    requires sound { IsSound (raw bound.now) }
    requires known { AreKnown known.old.items (counts (raw bound.now)) }
    requires within { at < length bound.now }
    ensures value { slice_get (counts (raw bound.now)) at ≡ Some result }
    ensures known { AreKnown known.new.items (counts (raw bound.now)) }
{
    if let Some(count) = known[at] {
        return count;
    }
    let count = head_size(bound, known, bound[at].1);
    known[at] = Some(count);
    count
}

// How many symbols a head stands for.
#[cycle(sizes)]
fn head_size<'a>(bound: &[Binding<'a>], known: &mut Sizes, head: Head<'a>) -> u64
    requires sound { IsSound (raw bound.now) }
    requires known { AreKnown known.old.items (counts (raw bound.now)) }
    ensures value { result
        ≡ min (symbol_count (full (raw bound.now) (head_term head.entry))) u64.MAX }
    ensures known { AreKnown known.new.items (counts (raw bound.now)) }
{
    match walk_head(bound, head) {
        Head::Var(_) => 1,
        Head::Name(_) => 1,
        Head::App(_, args) => application_size(bound, known, args),
    }
}

// How many symbols an operator with such arguments stands for.
#[cycle(sizes)]
fn application_size<'a>(bound: &[Binding<'a>], known: &mut Sizes, args: &'a [Term]) -> u64
    requires sound { IsSound (raw bound.now) }
    requires known { AreKnown known.old.items (counts (raw bound.now)) }
    ensures value { result
        ≡ min (1 + all_count (map (full (raw bound.now)) args.now)) u64.MAX }
    ensures known { AreKnown known.new.items (counts (raw bound.now)) }
{
    let mut sum: u64 = 1;
    for arg in args {
        sum = sum.saturating_add(size(bound, known, arg));
    }
    sum
}

// How many symbols a term stands for.
#[cycle(sizes)]
fn size<'a>(bound: &[Binding<'a>], known: &mut Sizes, t: &'a Term) -> u64
    requires sound { IsSound (raw bound.now) }
    requires known { AreKnown known.old.items (counts (raw bound.now)) }
    ensures value { result ≡ min (symbol_count (full (raw bound.now) t.now)) u64.MAX }
    ensures known { AreKnown known.new.items (counts (raw bound.now)) }
{
    match t {
        Term::Var(v) => match place_of(bound, *v) {
            Some(at) => value_size(bound, known, at),
            None => 1,
        },
        Term::Name(_) => 1,
        Term::App(_, args) => application_size(bound, known, args.as_slice()),
    }
}
