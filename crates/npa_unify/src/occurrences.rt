ghost use Rattle.std.specs.Prelude.{◌≡◌, ◌<◌, map, flat_map, length, Some, IfOk, slice_get};
ghost use Rattle.npa_term.specs.Variables.{variables};
ghost use Rattle.npa_unify.specs.Branches.{has_var};
ghost use Rattle.npa_unify.specs.Seen.{AreKnown, IsSound, IsUnbound, full, have, head_term, raw};

use crate::bindings::{Known, nothing_known, place_of};
use crate::heads::{Binding, Head, walk_head};
use npa_term::{NoMemory, Term, Var};
use std::alloc::Global;

/// Whether a variable that isn't bound occurs in what a head stands for. The value of each binding
/// is searched at most once. Only an application with bindings takes memory.
pub(crate) fn is_in<'a>(
    alloc: Global,
    bound: &[Binding<'a>],
    v: Var,
    head: Head<'a>,
) -> Result<bool, NoMemory>
    requires sound { IsSound (raw bound.now) }
    requires unbound { IsUnbound (raw bound.now) (head_term head) }
    ensures { IfOk result (λ found. found
        ≡ has_var (variables (full (raw bound.now) (head_term head.entry))) v) }
{
    match head {
        Head::Var(w) => Ok(w == v),
        Head::Name(_) => Ok(false),
        Head::App(_, args) => {
            let mut known = nothing_known(alloc, bound.len())?;
            Ok(is_in_some(bound, &mut known, v, args))
        }
    }
}

// Whether the variable occurs in what the value of a binding stands for.
#[cycle(occurrences)]
fn is_in_value<'a>(bound: &[Binding<'a>], known: &mut Known<bool>, v: Var, at: usize) -> bool
    requires sound { IsSound (raw bound.now) }
    requires known { AreKnown known.old.items (have v (raw bound.now)) }
    requires within { at < length bound.now }
    ensures value { slice_get (have v (raw bound.now)) at ≡ Some result }
    ensures known { AreKnown known.new.items (have v (raw bound.now)) }
{
    if let Some(found) = known[at] {
        return found;
    }
    let found = is_in_head(bound, known, v, bound[at].1);
    known[at] = Some(found);
    found
}

// Whether the variable occurs in what a head stands for.
#[cycle(occurrences)]
fn is_in_head<'a>(bound: &[Binding<'a>], known: &mut Known<bool>, v: Var, head: Head<'a>) -> bool
    requires sound { IsSound (raw bound.now) }
    requires known { AreKnown known.old.items (have v (raw bound.now)) }
    ensures value { result
        ≡ has_var (variables (full (raw bound.now) (head_term head.entry))) v }
    ensures known { AreKnown known.new.items (have v (raw bound.now)) }
{
    match walk_head(bound, head) {
        Head::Var(w) => w == v,
        Head::Name(_) => false,
        Head::App(_, args) => is_in_some(bound, known, v, args),
    }
}

// Whether the variable occurs in what some of these terms stand for.
#[cycle(occurrences)]
fn is_in_some<'a>(bound: &[Binding<'a>], known: &mut Known<bool>, v: Var, terms: &'a [Term]) -> bool
    requires sound { IsSound (raw bound.now) }
    requires known { AreKnown known.old.items (have v (raw bound.now)) }
    ensures value { result ≡ has_var (flat_map variables (map (full (raw bound.now)) terms.now)) v }
    ensures known { AreKnown known.new.items (have v (raw bound.now)) }
{
    for t in terms {
        if is_in_term(bound, known, v, t) {
            return true;
        }
    }
    false
}

// Whether the variable occurs in what a term stands for.
#[cycle(occurrences)]
fn is_in_term<'a>(bound: &[Binding<'a>], known: &mut Known<bool>, v: Var, t: &'a Term) -> bool
    requires sound { IsSound (raw bound.now) }
    requires known { AreKnown known.old.items (have v (raw bound.now)) }
    ensures value { result ≡ has_var (variables (full (raw bound.now) t.now)) v }
    ensures known { AreKnown known.new.items (have v (raw bound.now)) }
{
    match t {
        Term::Var(w) => match place_of(bound, *w) {
            Some(at) => is_in_value(bound, known, v, at),
            None => *w == v,
        },
        Term::Name(_) => false,
        Term::App(_, args) => is_in_some(bound, known, v, args.as_slice()),
    }
}
