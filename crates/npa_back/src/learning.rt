ghost use Rattle.std.specs.Prelude.{◌≡◌, ◌<◌, ◌∷◌, [], None, Some, IfSome, IfOk, drop, length, map, slice_get};
ghost use Rattle.npa_model.specs.declared.pattern.PStrand.{PStrand as Bundle};
ghost use Rattle.npa_model.specs.declared.pattern.Pattern.{Pattern as State};
ghost use Rattle.npa_moves.specs.Lists.{first_receive, send_problems};
ghost use Rattle.npa_moves.specs.Moves.{learn_move, receive_move, send_move};
ghost use Rattle.npa_moves.specs.Picks.{picks};
ghost use Rattle.npa_moves.specs.Steps.{Gives, solve_over};
ghost use Rattle.npa_sets.specs.Told.{GivesUnifiers};
ghost use Rattle.npa_back.specs.Behind.{all_behind, problem_behind};
ghost use Rattle.npa_back.specs.Told.{GivesUnifiersAt, IsAsked, IsFirstReceive, alone_move};

use crate::context::Narrowing;
use crate::events::{received_last, sent_last};
use crate::kind::Kind;
use crate::results::{Move, add_results};
use crate::telling::{add_told, as_fail, sets_told};
use npa_drafts::{before_learning, before_receive, before_send, last_message};
use npa_list::List;
use npa_model::{PStrand, Pattern};
use npa_moves::{StepFail, Steps};
use npa_sorts::Sorts;
use npa_term::{Substs, Term, TermPairs};
use npa_unify::{UnifyFail, are_fit, unify};
use npa_variants::Ready;
use std::alloc::Global;

/// The place of the first strand whose last event receives.
pub(crate) fn first_receive(ready: &Ready, strands: &[PStrand]) -> Option<usize>
    ensures { (g : State) → IsFirstReceive ready.now.strands g strands.now result }
{
    for k in 0..strands.len() {
        if received_last(ready, &strands[k]) {
            return Some(k);
        }
    }
    None
}

/// The one step of a pattern whose strand at this place received last, behind those that are made.
pub(crate) fn add_receive(
    alloc: Global,
    narrowing: &Narrowing<'_>,
    k: usize,
    made: Steps,
) -> Result<Steps, StepFail>
    requires asked { IsAsked narrowing.now }
    requires within { k < length narrowing.now.pattern.now.strands }
    ensures { (p : Bundle) → slice_get narrowing.now.pattern.now.strands k ≡ Some p
        → Gives result (problem_behind (solve_over narrowing.now.ready.now.sig.sorts) narrowing.now.vars.now made
        (receive_move narrowing.now.pattern.now k p ∷ [])) }
{
    let Ok(strand) = u16::try_from(k) else {
        return Err(StepFail::NoMemory);
    };
    let from = before_receive(alloc, narrowing.pattern, k)?;
    add_alone(alloc, narrowing, Kind::Receive(strand), &from, made)
}

/// The steps by the strand at a place, if it sent last: nothing gets known by it, or some facts do.
pub(crate) fn add_sends(
    alloc: Global,
    narrowing: &Narrowing<'_>,
    k: usize,
    made: Steps,
) -> Result<Steps, StepFail>
    requires asked { IsAsked narrowing.now }
    requires within { k < length narrowing.now.pattern.now.strands }
    ensures { (p : Bundle) → slice_get narrowing.now.pattern.now.strands k ≡ Some p
        → Gives result (all_behind (solve_over narrowing.now.ready.now.sig.sorts) narrowing.now.vars.now made
        (send_problems narrowing.now.ready.now.strands narrowing.now.pattern.now k p)) }
{
    if !sent_last(narrowing.ready, &narrowing.pattern.strands.as_slice()[k]) {
        return Ok(made);
    }
    let made = add_send(alloc, narrowing, k, made)?;
    add_learnt(alloc, narrowing, k, made)
}

fn add_send(
    alloc: Global,
    narrowing: &Narrowing<'_>,
    k: usize,
    made: Steps,
) -> Result<Steps, StepFail>
    requires asked { IsAsked narrowing.now }
    requires within { k < length narrowing.now.pattern.now.strands }
    ensures { (p : Bundle) → slice_get narrowing.now.pattern.now.strands k ≡ Some p
        → Gives result (problem_behind (solve_over narrowing.now.ready.now.sig.sorts) narrowing.now.vars.now made
        (send_move narrowing.now.pattern.now k p ∷ [])) }
{
    let Ok(strand) = u16::try_from(k) else {
        return Err(StepFail::NoMemory);
    };
    let from = before_send(alloc, narrowing.pattern, k)?;
    add_alone(alloc, narrowing, Kind::Send(strand), &from, made)
}

fn add_learnt(
    alloc: Global,
    narrowing: &Narrowing<'_>,
    k: usize,
    made: Steps,
) -> Result<Steps, StepFail>
    requires asked { IsAsked narrowing.now }
    requires within { k < length narrowing.now.pattern.now.strands }
    ensures { (p : Bundle) → slice_get narrowing.now.pattern.now.strands k ≡ Some p
        → Gives result (problem_behind (solve_over narrowing.now.ready.now.sig.sorts) narrowing.now.vars.now made
        (map (learn_move narrowing.now.pattern.now k p) (picks narrowing.now.pattern.now.known))) }
{
    let Ok(strand) = u16::try_from(k) else {
        return Err(StepFail::NoMemory);
    };
    let message = last_message(alloc, &narrowing.pattern.strands.as_slice()[k])?;
    let at = made.len() as u64;
    let sets = sets_told(alloc, narrowing, &message, narrowing.next, at)?;
    if sets.is_empty() {
        return Ok(made);
    }
    let before = before_learning(alloc, narrowing.pattern, k, List::new(alloc))?;
    add_told(
        alloc,
        narrowing,
        Kind::Learn(strand),
        before,
        &message,
        sets.as_slice(),
        made,
    )
}

// The step of a kind from which nothing gets known, behind those that are made.
fn add_alone(
    alloc: Global,
    narrowing: &Narrowing<'_>,
    kind: Kind,
    from: &Pattern,
    made: Steps,
) -> Result<Steps, StepFail>
    requires asked { IsAsked narrowing.now }
    ensures { Gives result (problem_behind (solve_over narrowing.now.ready.now.sig.sorts) narrowing.now.vars.now made
        (alone_move kind from.now narrowing.now.next ∷ [])) }
{
    let unifiers = identities(alloc, narrowing, made.len() as u64)?;
    let message = Term::Name(0);
    let by = Move {
        kind,
        places: &[],
        from,
        message: &message,
        unknown: &[],
    };
    add_results(alloc, narrowing, &by, unifiers.as_slice(), made)
}

// The unifiers of no pairs.
fn identities(alloc: Global, narrowing: &Narrowing<'_>, at: u64) -> Result<Substs, StepFail>
    ensures { GivesUnifiersAt result at (solve_over narrowing.now.ready.now.sig.sorts narrowing.now.next []) }
{
    let sorts = narrowing.ready.protocol().sig.sorts();
    match unified(alloc, sorts, &List::new(alloc), narrowing.next) {
        Ok(unifiers) => Ok(unifiers),
        Err(fail) => Err(as_fail(fail, at)),
    }
}

// The unifiers of pairs for which `unify` may be asked. A problem that leaves no room for the numbers of
// new variables counts as want of memory.
fn unified(alloc: Global, sorts: &Sorts, pairs: &TermPairs, next: u32) -> Result<Substs, UnifyFail>
    ensures { GivesUnifiers result (solve_over sorts.now next pairs.now) }
{
    if !are_fit(alloc, sorts, pairs, next)? {
        return Err(UnifyFail::NoMemory);
    }
    unify(alloc, sorts, pairs, next)
}
