ghost use Rattle.std.specs.Prelude.{◌≡◌, ◌++◌, ◌∷◌, [], IfOk, OnOk, map};
ghost use Rattle.npa_variants.specs.Told.{AreDistinct};
ghost use Rattle.npa_moves.specs.Moves.{each_with};
ghost use Rattle.npa_moves.specs.Steps.{Gives};
ghost use Rattle.npa_back.specs.Behind.{drawn_behind};
ghost use Rattle.npa_back.specs.Told.{drawn, rule_of, step_by};

use crate::context::Narrowing;
use crate::kind::{Kind, rule_of};
use npa_drafts::{Numbered, results_by};
use npa_list::List;
use npa_model::Pattern;
use npa_moves::{Step, StepFail, Steps};
use npa_term::{NoMemory, Subst, Term};
use std::alloc::Global;

/// A move before it is known by which unifiers it leads back: its kind, the places of the facts that get
/// known, the earlier pattern, and a message that isn't to be equal to any of these unknown facts.
#[derive(Clone, Copy)]
pub(crate) struct Move<'a> {
    pub(crate) kind: Kind,
    pub(crate) places: &'a [u32],
    pub(crate) from: &'a Pattern,
    pub(crate) message: &'a Term,
    pub(crate) unknown: &'a [Term],
}

/// The steps by these unifiers of a move, behind those that are made.
pub(crate) fn add_results(
    alloc: Global,
    narrowing: &Narrowing<'_>,
    by: &Move<'_>,
    unifiers: &[Subst],
    made: Steps,
) -> Result<Steps, StepFail>
    requires once { AreDistinct narrowing.now.vars.now }
    ensures { Gives result (drawn_behind narrowing.now.vars.now made
        (drawn (rule_of by.now.kind by.now.places.now) narrowing.now.vars.now by.now.from.now (each_with by.now.message.now by.now.unknown.now) unifiers.now)) }
{
    let at = made.len() as u64;
    if at.checked_add(unifiers.len() as u64).is_none() {
        return Err(StepFail::NoMemory);
    }
    let results = results_by(
        alloc,
        narrowing.vars,
        by.from,
        by.message,
        by.unknown,
        unifiers,
        at,
    )?;
    Ok(add_all(alloc, by.kind, by.places, results, made)?)
}

// Results as steps of a kind, behind those that are made.
fn add_all(
    alloc: Global,
    kind: Kind,
    places: &[u32],
    results: List<Numbered>,
    made: Steps,
) -> Result<Steps, NoMemory>
    ensures { IfOk result (λ all. all ≡ made ++ map (step_by (rule_of kind places.now)) results) }
{
    let mut made = made;
    for one in results.into_vec() {
        add_one(alloc, kind, places, one, &mut made)?;
    }
    Ok(made)
}

fn add_one(
    alloc: Global,
    kind: Kind,
    places: &[u32],
    one: Numbered,
    made: &mut Steps,
) -> Result<(), NoMemory>
    ensures { OnOk result (made.new ≡ made.old ++ step_by (rule_of kind places.now) one ∷ []) }
{
    let Numbered { unifier, pattern } = one;
    made.push(Step {
        rule: rule_of(alloc, kind, places)?,
        unifier,
        pattern,
    })?;
    Ok(())
}
