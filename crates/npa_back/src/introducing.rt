ghost use Rattle.std.specs.Prelude.{◌≡◌, ◌<◌, Some, length, map, slice_get};
ghost use Rattle.npa_sig.specs.declared.protocol.Event.{Event as Act};
ghost use Rattle.npa_sig.specs.declared.protocol.Strand.{Strand as Role};
ghost use Rattle.npa_variants.specs.Strands.{param_count};
ghost use Rattle.npa_moves.specs.Lists.{each_place, event_problems, strand_problems, variant_problems};
ghost use Rattle.npa_moves.specs.Moves.{introduce_move};
ghost use Rattle.npa_moves.specs.Picks.{picks};
ghost use Rattle.npa_moves.specs.Steps.{Gives, found_variants, solve_over};
ghost use Rattle.npa_back.specs.Behind.{all_behind, problem_behind};
ghost use Rattle.npa_back.specs.Told.{IsAsked, IsRaised};

use crate::context::Narrowing;
use crate::kind::Kind;
use crate::numbers::past_all;
use crate::raising::{ROOM, raised, raised_message};
use crate::telling::{add_told, sets_told};
use npa_drafts::before_introducing;
use npa_list::List;
use npa_moves::{StepFail, Steps};
use npa_sig::Strand;
use npa_variants::Variant;
use std::alloc::Global;

/// The steps by further instances of all strands, behind those that are made.
pub(crate) fn add_introduced(
    alloc: Global,
    narrowing: &Narrowing<'_>,
    made: Steps,
) -> Result<Steps, StepFail>
    requires asked { IsAsked narrowing.now }
    ensures { Gives result (all_behind (solve_over narrowing.now.ready.now.sig.sorts) narrowing.now.vars.now made
        (each_place (strand_problems (found_variants narrowing.now.ready.now) narrowing.now.pattern.now) 0 narrowing.now.ready.now.strands)) }
{
    let mut made = made;
    for s in 0..narrowing.ready.protocol().strands.len() {
        made = add_strand(alloc, narrowing, s, made)?;
    }
    Ok(made)
}

// Those by instances of one strand.
fn add_strand(
    alloc: Global,
    narrowing: &Narrowing<'_>,
    s: usize,
    made: Steps,
) -> Result<Steps, StepFail>
    requires asked { IsAsked narrowing.now }
    requires within { s < length narrowing.now.ready.now.strands }
    ensures { (strand : Role) → slice_get narrowing.now.ready.now.strands s ≡ Some strand
        → Gives result (all_behind (solve_over narrowing.now.ready.now.sig.sorts) narrowing.now.vars.now made
        (strand_problems (found_variants narrowing.now.ready.now) narrowing.now.pattern.now s strand)) }
{
    let Ok(number) = u16::try_from(s) else {
        return Err(StepFail::NoMemory);
    };
    let strand = &narrowing.ready.protocol().strands.as_slice()[s];
    let variants = narrowing.ready.strand_variants(number);
    add_variants(alloc, narrowing, number, strand, variants.as_slice(), made)
}

// Those by these variants of a strand.
fn add_variants(
    alloc: Global,
    narrowing: &Narrowing<'_>,
    s: u16,
    strand: &Strand,
    variants: &[Variant],
    made: Steps,
) -> Result<Steps, StepFail>
    requires asked { IsAsked narrowing.now }
    ensures { Gives result (all_behind (solve_over narrowing.now.ready.now.sig.sorts) narrowing.now.vars.now made
        (each_place (variant_problems narrowing.now.pattern.now s strand.now) 0 variants.now)) }
{
    let mut made = made;
    for n in 0..variants.len() {
        made = add_variant(alloc, narrowing, s, strand, n, &variants[n], made)?;
    }
    Ok(made)
}

// Those by one variant, whose variables are raised past those of the pattern.
fn add_variant(
    alloc: Global,
    narrowing: &Narrowing<'_>,
    s: u16,
    strand: &Strand,
    n: usize,
    variant: &Variant,
    made: Steps,
) -> Result<Steps, StepFail>
    requires asked { IsAsked narrowing.now }
    ensures { Gives result (all_behind (solve_over narrowing.now.ready.now.sig.sorts) narrowing.now.vars.now made
        (variant_problems narrowing.now.pattern.now s strand.now n variant.now)) }
{
    let Ok(number) = u16::try_from(n) else {
        return Err(StepFail::NoMemory);
    };
    let terms = variant.terms.as_slice();
    let past = past_all(terms);
    if past > ROOM || narrowing.next as u64 > ROOM {
        return Err(StepFail::NoMemory);
    }
    let by = Introduced {
        strand,
        number: s,
        variant: number,
        values: variant,
        next: narrowing.next + past as u32,
    };
    add_events(alloc, narrowing, &by, made)
}

// A variant of a strand, by their numbers, and a number past those of its variables once they are raised
// past those of the pattern.
#[derive(Clone, Copy)]
pub(crate) struct Introduced<'a> {
    pub(crate) strand: &'a Strand,
    pub(crate) number: u16,
    pub(crate) variant: u16,
    pub(crate) values: &'a Variant,
    pub(crate) next: u32,
}

// Those before each event that the variant sends.
fn add_events(
    alloc: Global,
    narrowing: &Narrowing<'_>,
    by: &Introduced<'_>,
    made: Steps,
) -> Result<Steps, StepFail>
    requires asked { IsAsked narrowing.now }
    requires raised { IsRaised narrowing.now by.now }
    ensures { Gives result (all_behind (solve_over narrowing.now.ready.now.sig.sorts) narrowing.now.vars.now made
        (variant_problems narrowing.now.pattern.now by.now.number by.now.strand.now by.now.variant by.now.values.now)) }
{
    let mut made = made;
    for e in 0..by.strand.events.len() {
        made = add_event(alloc, narrowing, by, e, made)?;
    }
    Ok(made)
}

// Those before an event, if it is sent.
fn add_event(
    alloc: Global,
    narrowing: &Narrowing<'_>,
    by: &Introduced<'_>,
    e: usize,
    made: Steps,
) -> Result<Steps, StepFail>
    requires asked { IsAsked narrowing.now }
    requires raised { IsRaised narrowing.now by.now }
    requires within { e < length by.now.strand.now.events }
    ensures { (event : Act) → slice_get by.now.strand.now.events e ≡ Some event
        → Gives result (all_behind (solve_over narrowing.now.ready.now.sig.sorts) narrowing.now.vars.now made
        (event_problems narrowing.now.pattern.now by.now.number by.now.strand.now by.now.variant by.now.values.now e event)) }
{
    if !by.strand.events.as_slice()[e].sent {
        return Ok(made);
    }
    add_sent(alloc, narrowing, by, e, made)
}

// Those before an event that is sent: the variant's terms are raised only where its message makes
// facts known.
fn add_sent(
    alloc: Global,
    narrowing: &Narrowing<'_>,
    by: &Introduced<'_>,
    e: usize,
    made: Steps,
) -> Result<Steps, StepFail>
    requires asked { IsAsked narrowing.now }
    requires raised { IsRaised narrowing.now by.now }
    ensures { Gives result (problem_behind (solve_over narrowing.now.ready.now.sig.sorts) narrowing.now.vars.now made
        (map (introduce_move narrowing.now.pattern.now by.now.number by.now.strand.now by.now.variant by.now.values.now e) (picks narrowing.now.pattern.now.known))) }
{
    let Ok(event) = u16::try_from(e) else {
        return Err(StepFail::NoMemory);
    };
    let params = param_count(by.strand);
    let terms = by.values.terms.as_slice();
    let message = raised_message(alloc, terms, params, e, narrowing.next)?;
    let at = made.len() as u64;
    let sets = sets_told(alloc, narrowing, &message, by.next, at)?;
    if sets.is_empty() {
        return Ok(made);
    }
    let terms = raised(alloc, terms, narrowing.next)?;
    let before = before_introducing(
        alloc,
        narrowing.pattern,
        by.number,
        event,
        params,
        terms.as_slice(),
        List::new(alloc),
    )?;
    let kind = Kind::Introduce(by.number, by.variant, event);
    add_told(
        alloc,
        narrowing,
        kind,
        before,
        &message,
        sets.as_slice(),
        made,
    )
}

// How many parameters a strand has.
fn param_count(strand: &Strand) -> usize
    ensures { result ≡ param_count strand.now }
{
    strand.vars.as_slice().len() + strand.fresh as usize
}
