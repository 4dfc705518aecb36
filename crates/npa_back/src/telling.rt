ghost use Rattle.std.specs.Prelude.{◌≡◌, IfOk, Contains, List as ListOf};
ghost use Rattle.std.specs.List.{flat_map};
ghost use Rattle.npa_term.specs.declared.term.Term.{Term as Tree};
ghost use Rattle.npa_variants.specs.Told.{AreDistinct};
ghost use Rattle.npa_moves.specs.Steps.{Gives};
ghost use Rattle.npa_sets.specs.Sets.{IsLow, sets_of};
ghost use Rattle.npa_back.specs.Behind.{drawn_behind};
ghost use Rattle.npa_back.specs.Told.{GivesTold, as_fail, drawn_of, knowing};

use crate::context::Narrowing;
use crate::kind::Kind;
use crate::results::{Move, add_results};
use fold_core::Measure;
use npa_model::Pattern;
use npa_moves::{StepFail, Steps};
use npa_sets::{FactSet, FactSets, fact_sets};
use npa_term::{Term, Terms, copy_all};
use npa_unify::UnifyFail;
use std::alloc::Global;

/// The sets of known facts that a message makes known. `at` is the number that the first step by one of
/// them would have.
pub(crate) fn sets_told(
    alloc: Global,
    narrowing: &Narrowing<'_>,
    message: &Term,
    next: u32,
    at: u64,
) -> Result<FactSets, StepFail>
    requires known { (t : Tree) → Contains narrowing.now.pattern.now.known t → IsLow next t }
    requires message { IsLow next message.now }
    ensures { GivesTold result at (sets_of narrowing.now.ready.now.sig.sorts next message.now narrowing.now.pattern.now.known) }
{
    let sorts = narrowing.ready.protocol().sig.sorts();
    let facts = narrowing.pattern.known.as_slice();
    match fact_sets(alloc, sorts, facts, message, next) {
        Ok(sets) => Ok(sets),
        Err(fail) => Err(as_fail(fail, at)),
    }
}

/// What stopped the search for unifiers, as what is too large in the problem whose first result would
/// have this number.
pub(crate) fn as_fail(fail: UnifyFail, rule: u64) -> StepFail
    ensures { result ≡ as_fail fail rule }
{
    match fail {
        UnifyFail::TooMany => StepFail::Large {
            rule,
            measure: Measure::Unifiers,
            value: 4097,
        },
        UnifyFail::TooLarge(value) => StepFail::Large {
            rule,
            measure: Measure::Symbols,
            value,
        },
        UnifyFail::NoMemory => StepFail::NoMemory,
    }
}

/// The steps of a kind by which a message makes sets of facts known, behind those that are made. The
/// earlier pattern is built but for its known facts.
pub(crate) fn add_told(
    alloc: Global,
    narrowing: &Narrowing<'_>,
    kind: Kind,
    before: Pattern,
    message: &Term,
    sets: &[FactSet],
    made: Steps,
) -> Result<Steps, StepFail>
    requires once { AreDistinct narrowing.now.vars.now }
    ensures { Gives result (drawn_behind narrowing.now.vars.now made
        (flat_map (drawn_of kind narrowing.now.vars.now before message.now narrowing.now.pattern.now.unknown) sets.now)) }
{
    let mut before = before;
    let mut made = made;
    for set in sets {
        before = knowing(before, copy_all(alloc, set.left.as_slice())?);
        made = add_set(alloc, narrowing, kind, &before, message, set, made)?;
    }
    Ok(made)
}

fn add_set(
    alloc: Global,
    narrowing: &Narrowing<'_>,
    kind: Kind,
    from: &Pattern,
    message: &Term,
    set: &FactSet,
    made: Steps,
) -> Result<Steps, StepFail>
    requires once { AreDistinct narrowing.now.vars.now }
    requires left { from.now.known ≡ set.now.left }
    ensures { Gives result (drawn_behind narrowing.now.vars.now made
        (drawn_of kind narrowing.now.vars.now from.now message.now narrowing.now.pattern.now.unknown set.now)) }
{
    let by = Move {
        kind,
        places: set.places.as_slice(),
        from,
        message,
        unknown: narrowing.pattern.unknown.as_slice(),
    };
    add_results(alloc, narrowing, &by, set.unifiers.as_slice(), made)
}

fn knowing(before: Pattern, known: Terms) -> Pattern
    ensures { result ≡ knowing before known }
{
    let Pattern {
        strands,
        unknown,
        ..
    } = before;
    Pattern {
        strands,
        known,
        unknown,
    }
}
