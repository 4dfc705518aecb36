ghost use Rattle.std.specs.Prelude.{◌≡◌, map, length, None, Some, Contains, IfOk, IfSome, slice_get, List};
ghost use Rattle.npa_term.specs.declared.term.Term.{Term as Tree};
ghost use Rattle.npa_term.specs.declared.term.Var.{Var as Variable};
ghost use Rattle.npa_unify.specs.Seen.{AreKnown, raw};

use crate::heads::Binding;
use npa_term::{NoMemory, Var};
use std::alloc::Global;

/// What is known of the values of bindings, one after the other.
pub(crate) type Known<T> = Vec<Option<T>>;

/// Nothing of the values of so many bindings.
pub(crate) fn nothing_known<T: Drop>(alloc: Global, count: usize) -> Result<Known<T>, NoMemory>
    ensures { IfOk result (λ known. (ns : List T) → length ns ≡ count → AreKnown known.items ns) }
{
    let mut known = Vec::with_capacity(alloc, count)?;
    for at in 0..count {
        let _at = at;
        known.push(None)?;
    }
    Ok(known)
}

/// The place of the binding of a variable.
pub(crate) fn place_of(bound: &[Binding<'_>], v: Var) -> Option<usize>
    ensures some { IfSome result (λ at. (b : Variable × Tree)
        × (slice_get (raw bound.now) at ≡ Some b) × (b.0 ≡ v)) }
    ensures none { result ≡ None → Contains (map (λ b. b.0) (raw bound.now)) v → ⊥ }
{
    for at in 0..bound.len() {
        if bound[at].0 == v {
            return Some(at);
        }
    }
    None
}
