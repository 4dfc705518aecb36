ghost use Rattle.std.specs.Prelude.{◌≡◌, ◌++◌, ◌↔◌, ℕ, Some, IfOk, IsErrOf, OnOk};
ghost use Rattle.npa_term.specs.declared.term.Term.{Term};
ghost use Rattle.npa_term.specs.Bound.{applied};
ghost use Rattle.npa_term.specs.Canonical.{canonical};
ghost use Rattle.npa_term.specs.Composition.{composed, instances_under, canonical_values, unbound, first_past};
ghost use Rattle.npa_term.specs.Same.{Same};

use crate::canonical::canon;
use crate::error::{NoMemory, TermFail};
use crate::instances::{MAX_SYMBOLS, instance, symbols_under};
use crate::size::symbols;
use crate::subst::{Binding, Subst};
use std::alloc::Global;

/// The substitution that does `first` and then `next`: it binds the variables of `first`, in
/// their order, and then those that `next` alone binds. Its values are canonical. The sizes are
/// tested in that order before anything is made.
pub fn compose(alloc: Global, first: &Subst, next: &Subst) -> Result<Subst, TermFail>
    ensures value { IfOk result (λ s. s ≡ composed first.now next.now) }
    ensures both { IfOk result (λ s. (t : Term) →
        Same (applied s t) (applied next.now (applied first.now t))) }
    ensures large { (n : ℕ) → IsErrOf result (TermFail.TooLarge n)
        ↔ (first_past MAX_SYMBOLS (composed first.now next.now) ≡ Some n) }
{
    if let Some(count) = first_large(first, next) {
        return Err(TermFail::TooLarge(count));
    }
    let mut made = Vec::new(alloc);
    push_instances(alloc, &mut made, first.as_slice(), next)?;
    push_unbound(alloc, &mut made, first, next.as_slice())?;
    Ok(Subst::from_bindings(made))
}

// The number of symbols of the first value of the composition that is too large.
fn first_large(first: &Subst, next: &Subst) -> Option<u64>
    ensures { result ≡ first_past MAX_SYMBOLS (composed first.now next.now) }
{
    match first_large_instance(first.as_slice(), next) {
        Some(count) => Some(count),
        None => first_large_unbound(first, next.as_slice()),
    }
}

// The same over the variables of the first substitution.
fn first_large_instance(first: &[Binding], next: &Subst) -> Option<u64>
    ensures { result ≡ first_past MAX_SYMBOLS (instances_under next.now first.now) }
{
    for (_, t) in first {
        let count = symbols_under(next, t);
        if count > MAX_SYMBOLS {
            return Some(count);
        }
    }
    None
}

// The same over the variables that the first substitution leaves free.
fn first_large_unbound(first: &Subst, next: &[Binding]) -> Option<u64>
    ensures { result ≡ first_past MAX_SYMBOLS (canonical_values (unbound first.now next.now)) }
{
    for (v, t) in next {
        if first.get(*v).is_none() {
            let count = symbols(t);
            if count > MAX_SYMBOLS {
                return Some(count);
            }
        }
    }
    None
}

// Adds the variables of the first substitution, with the instances of their values.
fn push_instances(
    alloc: Global,
    made: &mut Vec<Binding>,
    first: &[Binding],
    next: &Subst,
) -> Result<(), NoMemory>
    ensures { OnOk result
        (made.new.items ≡ made.old.items ++ instances_under next.now first.now) }
{
    for (v, t) in first {
        made.push((*v, instance(alloc, next, t)?))?;
    }
    Ok(())
}

// Adds the variables that the first substitution leaves free, with their values.
fn push_unbound(
    alloc: Global,
    made: &mut Vec<Binding>,
    first: &Subst,
    next: &[Binding],
) -> Result<(), NoMemory>
    ensures { OnOk result
        (made.new.items ≡ made.old.items ++ canonical_values (unbound first.now next.now)) }
{
    for (v, t) in next {
        if first.get(*v).is_none() {
            made.push((*v, canon(alloc, t)?))?;
        }
    }
    Ok(())
}
