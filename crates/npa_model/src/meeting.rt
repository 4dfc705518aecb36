ghost use Rattle.std.specs.Prelude.{◌≡◌, ◌↔◌, ◌≤◌, ◌<◌, ◌++◌, ◌∷◌, [], ℕ, List, cond, drop, length, map, take, Contains, IsTrue, IfOk, OnOk};
ghost use Rattle.npa_term.specs.declared.term.Term.{Term};
ghost use Rattle.npa_term.specs.Canonical.{canonical};
ghost use Rattle.npa_sig.specs.Values.{under};
ghost use Rattle.npa_rewrite.specs.Innermost.{normalized};
ghost use Rattle.npa_rewrite.specs.Rewriting.{AllCancel};
ghost use Rattle.npa_model.specs.Encounters.{AreAllSuited, AreFactsMet, AreSuited, CanPick, HasCounted, IsMet, IsSuited};
ghost use Rattle.npa_model.specs.Meeting.{Stands, Suits};
ghost use Rattle.npa_model.specs.Runs.{events_of};

use crate::pattern::{PStrand, Pattern, Standing};
use crate::run::{Instance, Instances};
use crate::state::RunState;
use crate::values::message;
use npa_list::List;
use npa_rewrite::Theory;
use npa_sig::{Event, Protocol};
use npa_term::{NoMemory, Term, canon, same};
use std::alloc::{AllocError, Global};

/// Whether a run, as far as it was executed, meets a ground pattern: its known facts were sent, its
/// unknown facts weren't, and different instances suit its strands. It tries each choice of
/// instances, so its time grows fast with the number of strands.
pub fn is_met(
    alloc: Global,
    th: &Theory,
    protocol: &Protocol,
    instances: &Instances,
    state: &RunState,
    standing: Standing,
    g: &Pattern,
) -> Result<bool, NoMemory>
    requires cancelling { AllCancel th.now }
    requires begun { length state.now.executed ≡ length instances.now }
    ensures { (schedule : List ℕ) → HasCounted state.now schedule → IfOk result (λ met. IsTrue met
        ↔ IsMet (normalized th.now) protocol.now.strands instances.now schedule standing state.now.sent g.now) }
{
    let facts = are_facts_met(alloc, state, g)?;
    if !facts {
        return Ok(false);
    }
    let rows = all_suited(
        alloc,
        th,
        protocol,
        instances,
        state,
        standing,
        g.strands.as_slice(),
    )?;
    let none = List::new(alloc);
    let met = can_pick(alloc, rows.as_slice(), 0, &none)?;
    Ok(met)
}

fn are_facts_met(alloc: Global, state: &RunState, g: &Pattern) -> Result<bool, NoMemory>
    ensures { IfOk result (λ met. IsTrue met ↔ AreFactsMet state.now.sent g.now) }
{
    let known = all_sent(alloc, state, g.known.as_slice())?;
    if !known {
        return Ok(false);
    }
    let unknown = none_sent(alloc, state, g.unknown.as_slice())?;
    Ok(unknown)
}

// Whether each of the terms was sent.
fn all_sent(alloc: Global, state: &RunState, terms: &[Term]) -> Result<bool, NoMemory>
    ensures { IfOk result (λ all. IsTrue all ↔ ((t : Term) → Contains terms.now t → Contains state.now.sent (canonical t))) }
{
    for term in terms {
        let sent = is_sent(alloc, state, term)?;
        if !sent {
            return Ok(false);
        }
    }
    Ok(true)
}

// Whether none of the terms was sent.
fn none_sent(alloc: Global, state: &RunState, terms: &[Term]) -> Result<bool, NoMemory>
    ensures { IfOk result (λ none. IsTrue none ↔ ((t : Term) → Contains terms.now t → Contains state.now.sent (canonical t) → ⊥)) }
{
    for term in terms {
        let sent = is_sent(alloc, state, term)?;
        if sent {
            return Ok(false);
        }
    }
    Ok(true)
}

// Whether the term's canonical form was sent.
fn is_sent(alloc: Global, state: &RunState, term: &Term) -> Result<bool, NoMemory>
    ensures { IfOk result (λ sent. IsTrue sent ↔ Contains state.now.sent (canonical term.now)) }
{
    let form = canon(alloc, term)?;
    Ok(state.was_sent(&form))
}

// For each of the strands the numbers of the instances that suit it.
fn all_suited(
    alloc: Global,
    th: &Theory,
    protocol: &Protocol,
    instances: &Instances,
    state: &RunState,
    standing: Standing,
    strands: &[PStrand],
) -> Result<List<List<usize>>, NoMemory>
    requires cancelling { AllCancel th.now }
    requires begun { length state.now.executed ≡ length instances.now }
    ensures { IfOk result (λ rows. AreAllSuited (normalized th.now) protocol.now.strands instances.now standing state.now strands.now rows) }
{
    let mut rows = List::new(alloc);
    for strand in strands {
        let row = suited(alloc, th, protocol, instances, state, standing, strand)?;
        rows.push(row)?;
    }
    Ok(rows)
}

// The numbers of the instances that suit a strand, in order.
fn suited(
    alloc: Global,
    th: &Theory,
    protocol: &Protocol,
    instances: &Instances,
    state: &RunState,
    standing: Standing,
    strand: &PStrand,
) -> Result<List<usize>, NoMemory>
    requires cancelling { AllCancel th.now }
    requires begun { length state.now.executed ≡ length instances.now }
    ensures { IfOk result (λ row. AreSuited (normalized th.now) protocol.now.strands instances.now standing state.now strand.now row) }
{
    let mut row = List::new(alloc);
    for n in 0..instances.len() {
        let suit = is_suited(alloc, th, protocol, instances, state, standing, strand, n)?;
        push_if(&mut row, n, suit)?;
    }
    Ok(row)
}

// Adds a number where it is wanted.
fn push_if(row: &mut List<usize>, n: usize, wanted: bool) -> Result<(), AllocError>
    ensures { OnOk result (row.new ≡ row.old ++ cond wanted (n ∷ []) []) }
{
    if wanted {
        row.push(n)?;
    }
    Ok(())
}

// Whether instance number `n` suits a strand.
fn is_suited(
    alloc: Global,
    th: &Theory,
    protocol: &Protocol,
    instances: &Instances,
    state: &RunState,
    standing: Standing,
    strand: &PStrand,
    n: usize,
) -> Result<bool, NoMemory>
    requires cancelling { AllCancel th.now }
    requires begun { length state.now.executed ≡ length instances.now }
    requires within { n < length instances.now }
    ensures { IfOk result (λ suit. IsTrue suit ↔ IsSuited (normalized th.now) protocol.now.strands instances.now standing state.now strand.now n) }
{
    let done = state.counts.as_slice()[n];
    let instance = &instances.as_slice()[n];
    suits(alloc, th, protocol, standing, instance, done, strand)
}

// Whether an instance that has executed so many events is what a strand asks for.
fn suits(
    alloc: Global,
    th: &Theory,
    protocol: &Protocol,
    standing: Standing,
    instance: &Instance,
    done: u16,
    p: &PStrand,
) -> Result<bool, NoMemory>
    requires cancelling { AllCancel th.now }
    ensures { IfOk result (λ suit. IsTrue suit ↔ Suits (normalized th.now) protocol.now.strands standing instance.now done p.now) }
{
    if instance.strand != p.strand {
        return Ok(false);
    }
    if !stands(standing, done, p.bar) {
        return Ok(false);
    }
    let values = have_same_forms(alloc, instance.args.as_slice(), p.args.as_slice())?;
    if !values {
        return Ok(false);
    }
    let events = first_events(protocol, instance, p.bar);
    are_messages(
        alloc,
        th,
        instance.args.as_slice(),
        events,
        p.msgs.as_slice(),
    )
}

// Where an instance that has executed so many events stands to a bar.
fn stands(standing: Standing, done: u16, bar: u16) -> bool
    ensures { IsTrue result ↔ Stands standing done bar }
{
    match standing {
        Standing::Exactly => done == bar,
        Standing::AtLeast => bar <= done,
    }
}

// The first events of an instance, so many or as many as it has.
fn first_events<'a>(protocol: &'a Protocol, instance: &Instance, bar: u16) -> &'a [Event]
    ensures { result.now ≡ take bar (events_of protocol.now.strands instance.now) }
{
    match protocol.strands.get(instance.strand as usize) {
        Some(strand) => {
            let events = strand.events.as_slice();
            &events[..events.len().min(bar as usize)]
        }
        None => &[],
    }
}

// Whether there are as many terms, with the same canonical forms.
fn have_same_forms(alloc: Global, ts: &[Term], us: &[Term]) -> Result<bool, NoMemory>
    ensures { IfOk result (λ b. IsTrue b ↔ (map canonical ts.now ≡ map canonical us.now)) }
{
    if ts.len() != us.len() {
        return Ok(false);
    }
    for i in 0..ts.len() {
        let same = is_form_of(alloc, &ts[i], &us[i])?;
        if !same {
            return Ok(false);
        }
    }
    Ok(true)
}

// Whether two terms have one canonical form.
fn is_form_of(alloc: Global, t: &Term, u: &Term) -> Result<bool, NoMemory>
    ensures { IfOk result (λ b. IsTrue b ↔ (canonical t.now ≡ canonical u.now)) }
{
    let form = canon(alloc, t)?;
    let other = canon(alloc, u)?;
    Ok(same(&form, &other))
}

// Whether the messages of the events, under these values, have the canonical forms of these terms.
fn are_messages(
    alloc: Global,
    th: &Theory,
    values: &[Term],
    events: &[Event],
    msgs: &[Term],
) -> Result<bool, NoMemory>
    requires cancelling { AllCancel th.now }
    ensures { IfOk result (λ b. IsTrue b ↔ (map (λ event. normalized th.now (under values.now event.msg)) events.now ≡ map canonical msgs.now)) }
{
    if events.len() != msgs.len() {
        return Ok(false);
    }
    for i in 0..events.len() {
        let same = is_message(alloc, th, values, &events[i], &msgs[i])?;
        if !same {
            return Ok(false);
        }
    }
    Ok(true)
}

// Whether the message of the event, under these values, has the canonical form of the term.
fn is_message(
    alloc: Global,
    th: &Theory,
    values: &[Term],
    event: &Event,
    msg: &Term,
) -> Result<bool, NoMemory>
    requires cancelling { AllCancel th.now }
    ensures { IfOk result (λ b. IsTrue b ↔ (normalized th.now (under values.now event.now.msg) ≡ canonical msg.now)) }
{
    let made = message(alloc, th, values, &event.msg)?;
    let form = canon(alloc, msg)?;
    Ok(same(&made, &form))
}

// Whether a number of each row from place `k` on can be picked beside those that are used.
fn can_pick(
    alloc: Global,
    rows: &[List<usize>],
    k: usize,
    used: &List<usize>,
) -> Result<bool, AllocError>
    requires { k ≤ length rows.now }
    ensures { IfOk result (λ b. IsTrue b ↔ CanPick (drop k rows.now) used.now) }
{
    if k == rows.len() {
        return Ok(true);
    }
    for n in rows[k].as_slice() {
        if !is_used(used.as_slice(), *n) {
            let more = with(alloc, used.as_slice(), *n)?;
            let rest = can_pick(alloc, rows, k + 1, &more)?;
            if rest {
                return Ok(true);
            }
        }
    }
    Ok(false)
}

fn is_used(used: &[usize], n: usize) -> bool
    ensures { IsTrue result ↔ Contains used.now n }
{
    used.contains(&n)
}

// The numbers with one more behind them.
fn with(alloc: Global, used: &[usize], n: usize) -> Result<List<usize>, AllocError>
    ensures { IfOk result (λ more. more ≡ used.now ++ n ∷ []) }
{
    let mut more = List::from_slice(alloc, used)?;
    more.push(n)?;
    Ok(more)
}
