ghost use Rattle.std.specs.Prelude.{◌≡◌, Ok, [], ◌∷◌, ◌++◌};
ghost use Rattle.npa_moves.specs.Lists.{each_place, send_problems, step_problems, strand_problems};
ghost use Rattle.npa_moves.specs.Steps.{Gives, found_variants, solve_over, steps_in};
ghost use Rattle.npa_back.specs.Behind.{all_behind};
ghost use Rattle.npa_back.specs.Told.{IsAsked};

use crate::context::Narrowing;
use crate::introducing::add_introduced;
use crate::learning::{add_receive, add_sends, first_receive};
use crate::numbers::past_pattern;
use npa_drafts::variables_once;
use npa_list::List;
use npa_model::Pattern;
use npa_moves::{StepFail, Steps};
use npa_variants::Ready;
use std::alloc::Global;

/// The backward steps of a pattern, all of them and in order. Where a strand's last event receives, there
/// is one, by the first such strand. Otherwise they are those of the strands that sent last, by their
/// places: first the one from which nothing gets known, then those by which facts do; and then those of
/// further instances, by strand, variant and event. Sets of facts come in the lexicographic order of their
/// places, and unifiers in that of unification. A step that makes the message equal to an unknown fact is
/// left out.
///
/// `Large` is answered for the first step past a limit: `rule` is its number, from 0. All sets of facts of
/// one message are one problem, which is judged whole before its first step: by more than 4,096 unifiers,
/// or a value of more than 1,024 symbols in one. A pattern's variables need numbers below 2^30, each with
/// one sort; otherwise want of memory may be answered.
pub fn steps(alloc: Global, ready: &Ready, pattern: &Pattern) -> Result<Steps, StepFail>
    ensures { Gives result (steps_in ready.now pattern.now) }
{
    let past = past_pattern(pattern);
    let Ok(next) = u32::try_from(past) else {
        return Err(StepFail::NoMemory);
    };
    let vars = variables_once(alloc, pattern)?;
    let narrowing = Narrowing {
        ready,
        pattern,
        vars: vars.as_slice(),
        next,
    };
    match first_receive(ready, pattern.strands.as_slice()) {
        Some(k) => add_receive(alloc, &narrowing, k, List::new(alloc)),
        None => all_others(alloc, &narrowing),
    }
}

// The steps where no strand received last.
fn all_others(alloc: Global, narrowing: &Narrowing<'_>) -> Result<Steps, StepFail>
    requires asked { IsAsked narrowing.now }
    ensures { Gives result (all_behind (solve_over narrowing.now.ready.now.sig.sorts) narrowing.now.vars.now []
        (each_place (send_problems narrowing.now.ready.now.strands narrowing.now.pattern.now) 0 narrowing.now.pattern.now.strands
        ++ each_place (strand_problems (found_variants narrowing.now.ready.now) narrowing.now.pattern.now) 0 narrowing.now.ready.now.strands)) }
{
    let made = all_sends(alloc, narrowing)?;
    add_introduced(alloc, narrowing, made)
}

// Those by the pattern's own strands.
fn all_sends(alloc: Global, narrowing: &Narrowing<'_>) -> Result<Steps, StepFail>
    requires asked { IsAsked narrowing.now }
    ensures { Gives result (all_behind (solve_over narrowing.now.ready.now.sig.sorts) narrowing.now.vars.now []
        (each_place (send_problems narrowing.now.ready.now.strands narrowing.now.pattern.now) 0 narrowing.now.pattern.now.strands)) }
{
    let mut made = List::new(alloc);
    for k in 0..narrowing.pattern.strands.len() {
        made = add_sends(alloc, narrowing, k, made)?;
    }
    Ok(made)
}
