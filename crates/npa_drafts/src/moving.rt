ghost use Rattle.std.specs.Prelude.{◌≡◌, ◌<◌, ◌-◌, ◌++◌, ◌∷◌, [], Some, IfOk, drop, length, slice_get, slice_index_or, slice_set, take};
ghost use Rattle.npa_term.specs.declared.term.Term.{Name as NameTree};
ghost use Rattle.npa_model.specs.declared.pattern.PStrand.{PStrand as Bundle};
ghost use Rattle.npa_model.specs.Backward.{set_back as back_of};
ghost use Rattle.npa_moves.specs.Moves.{last_message as last_of, receive_move, send_move};

use npa_list::List;
use npa_model::{PStrand, PStrands, Pattern};
use npa_term::{NoMemory, Term, Terms, copy, copy_all};
use std::alloc::Global;

/// The pattern before the strand at a place received its last message, which is known then.
pub fn before_receive(alloc: Global, g: &Pattern, k: usize) -> Result<Pattern, NoMemory>
    requires { k < length g.now.strands }
    ensures { (p : Bundle) → slice_get g.now.strands k ≡ Some p
        → IfOk result (λ made. made ≡ (receive_move g.now k p).from) }
{
    let p = &g.strands.as_slice()[k];
    let mut known = copy_all(alloc, g.known.as_slice())?;
    known.push(last_message(alloc, p)?)?;
    Ok(Pattern {
        strands: strands_before(alloc, g.strands.as_slice(), k)?,
        known,
        unknown: copy_all(alloc, g.unknown.as_slice())?,
    })
}

/// The pattern before the strand at a place sent its last message, from which nothing is learnt.
pub fn before_send(alloc: Global, g: &Pattern, k: usize) -> Result<Pattern, NoMemory>
    requires { k < length g.now.strands }
    ensures { (p : Bundle) → slice_get g.now.strands k ≡ Some p
        → IfOk result (λ made. made ≡ (send_move g.now k p).from) }
{
    Ok(Pattern {
        strands: strands_before(alloc, g.strands.as_slice(), k)?,
        known: copy_all(alloc, g.known.as_slice())?,
        unknown: copy_all(alloc, g.unknown.as_slice())?,
    })
}

/// The pattern before the strand at a place sent its last message, where these facts are those that the
/// message didn't make known. The message isn't known yet.
pub fn before_learning(
    alloc: Global,
    g: &Pattern,
    k: usize,
    left: Terms,
) -> Result<Pattern, NoMemory>
    requires { k < length g.now.strands }
    ensures { (p : Bundle) → slice_get g.now.strands k ≡ Some p → IfOk result (λ made. made ≡ record {
      strands = slice_set g.now.strands k (back_of p (p.bar - 1));
      known = left;
      unknown = g.now.unknown ++ last_of p ∷ [];
    }) }
{
    let p = &g.strands.as_slice()[k];
    let mut unknown = copy_all(alloc, g.unknown.as_slice())?;
    unknown.push(last_message(alloc, p)?)?;
    Ok(Pattern {
        strands: strands_before(alloc, g.strands.as_slice(), k)?,
        known: left,
        unknown,
    })
}

/// The pattern before a further instance of a strand sent the message of an event: of a variant these are
/// the terms in numbers of their own, and so many of them are values of parameters. The facts are those
/// that the message didn't make known, and it isn't known yet.
pub fn before_introducing(
    alloc: Global,
    g: &Pattern,
    strand: u16,
    event: u16,
    params: usize,
    terms: &[Term],
    left: Terms,
) -> Result<Pattern, NoMemory>
    ensures { IfOk result (λ made. made ≡ record {
      strands = g.now.strands ++ record { strand = strand; bar = event; args = take params terms.now; msgs = take event (drop params terms.now) } ∷ [];
      known = left;
      unknown = g.now.unknown ++ slice_index_or (drop params terms.now) event (NameTree 0) ∷ [];
    }) }
{
    let (args, msgs) = split(terms, params);
    let (executed, _later) = split(msgs, event as usize);
    let mut strands = copies(alloc, g.strands.as_slice())?;
    strands.push(PStrand {
        strand,
        bar: event,
        args: copy_all(alloc, args)?,
        msgs: copy_all(alloc, executed)?,
    })?;
    let mut unknown = copy_all(alloc, g.unknown.as_slice())?;
    unknown.push(message_at(alloc, msgs, event as usize)?)?;
    Ok(Pattern {
        strands,
        known: left,
        unknown,
    })
}

// The first terms, so many, and the others.
fn split(terms: &[Term], count: usize) -> (&[Term], &[Term])
    ensures first { result.0.now ≡ take count terms.now }
    ensures others { result.1.now ≡ drop count terms.now }
{
    let at = count.min(terms.len());
    (&terms[..at], &terms[at..])
}

fn message_at(alloc: Global, msgs: &[Term], event: usize) -> Result<Term, NoMemory>
    ensures { IfOk result (λ m. m ≡ slice_index_or msgs.now event (NameTree 0)) }
{
    match msgs.get(event) {
        Some(m) => copy(alloc, m),
        None => Ok(Term::Name(0)),
    }
}

// The strands, where the bar of one is set back by an event.
fn strands_before(alloc: Global, strands: &[PStrand], k: usize) -> Result<PStrands, NoMemory>
    requires { k < length strands.now }
    ensures { (p : Bundle) → slice_get strands.now k ≡ Some p
        → IfOk result (λ made. made ≡ slice_set strands.now k (back_of p (p.bar - 1))) }
{
    let mut made = copies(alloc, strands)?;
    made.set(k, set_back(alloc, &strands[k])?);
    Ok(made)
}

fn copies(alloc: Global, strands: &[PStrand]) -> Result<PStrands, NoMemory>
    ensures { IfOk result (λ made. made ≡ strands.now) }
{
    let mut made = Vec::with_capacity(alloc, strands.len())?;
    for p in strands {
        made.push(p.copy(alloc)?)?;
    }
    Ok(List::from_vec(made))
}

// A strand whose bar stands an event earlier.
fn set_back(alloc: Global, p: &PStrand) -> Result<PStrand, NoMemory>
    ensures { IfOk result (λ made. made ≡ back_of p.now (p.now.bar - 1)) }
{
    let bar = p.bar.saturating_sub(1);
    let msgs = p.msgs.as_slice();
    let executed = (bar as usize).min(msgs.len());
    Ok(PStrand {
        strand: p.strand,
        bar,
        args: copy_all(alloc, p.args.as_slice())?,
        msgs: copy_all(alloc, &msgs[..executed])?,
    })
}

/// The message of the event directly before a strand's bar; where there is none, a fresh name.
pub fn last_message(alloc: Global, p: &PStrand) -> Result<Term, NoMemory>
    ensures { IfOk result (λ m. m ≡ last_of p.now) }
{
    match p.msgs.get(p.bar.saturating_sub(1) as usize) {
        Some(m) => copy(alloc, m),
        None => Ok(Term::Name(0)),
    }
}
