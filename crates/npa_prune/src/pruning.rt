ghost use Rattle.std.specs.Prelude.{◌≡◌, ◌↔◌, IsTrue, IfOk};
ghost use Rattle.npa_model.specs.Covering.{HasSame};
ghost use Rattle.npa_prune.specs.Pruned.{Clashes, TellsRule};

use crate::early::is_early;
use crate::fresh::shares_fresh;
use crate::reducible::is_reducible;
use crate::rule::PruneRule;
use npa_model::Pattern;
use npa_term::{NoMemory, Term, equals};
use npa_variants::Ready;
use std::alloc::Global;

/// The first rule by which a pattern is pruned. It is `None` exactly where no rule prunes it.
pub fn pruned(alloc: Global, ready: &Ready, p: &Pattern) -> Result<Option<PruneRule>, NoMemory>
    ensures { IfOk result (TellsRule ready.now p.now) }
{
    if is_reducible(alloc, ready.theory(), p)? {
        return Ok(Some(PruneRule::Reducible));
    }
    if clashes(p) {
        return Ok(Some(PruneRule::Clash));
    }
    if shares_fresh(alloc, ready.protocol(), p)? {
        return Ok(Some(PruneRule::SharedFresh));
    }
    if is_early(ready.protocol(), p) {
        return Ok(Some(PruneRule::EarlyFresh));
    }
    Ok(None)
}

// Whether a fact is both known and unknown.
fn clashes(p: &Pattern) -> bool
    ensures { IsTrue result ↔ Clashes p.now }
{
    for fact in p.known.as_slice() {
        if has_same(p.unknown.as_slice(), fact) {
            return true;
        }
    }
    false
}

// Whether one of the terms equals this one, up to the order of commutative arguments.
fn has_same(terms: &[Term], t: &Term) -> bool
    ensures { IsTrue result ↔ HasSame terms.now t.now }
{
    for u in terms {
        if equals(t, u) {
            return true;
        }
    }
    false
}
