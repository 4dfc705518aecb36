//! A ground pattern as it stands in a row.

ghost use Rattle.std.specs.Prelude.{◌≤◌, length};
ghost use Rattle.npa_rewrite.specs.Rewriting.{AllCancel};

use npa_list::List;
use npa_model::{Instance, PStrand, Pattern, message};
use npa_rewrite::Theory;
use npa_run_text::read_run;
use npa_sig::{Event, Protocol};
use npa_term::{Term, Terms};
use npa_text::MOST_BYTES;
use std::alloc::Global;
use std::test::Fail;

// The instance that a run text with this one instance has: its strand's name, and its terms by the
// names of their parameters.
fn instance(alloc: Global, protocol: &Protocol, text: &[&str]) -> Result<Instance, Fail>
    requires few { length protocol.now.strands ≤ 65535 }
{
    let mut bytes = Vec::new(alloc);
    bytes.extend_from_slice(b"use ")?;
    for piece in text {
        bytes.extend_from_slice(piece.as_bytes())?;
    }
    bytes.extend_from_slice(b" do 0")?;
    if bytes.len() > MOST_BYTES {
        return Err(Fail::new("too long"));
    }
    match read_run(alloc, protocol, bytes.as_slice()) {
        Ok(run) => {
            let mut instances = run.instances;
            match instances.pop() {
                Some(instance) => Ok(instance),
                None => Err(Fail::new("no instance")),
            }
        }
        Err(_) => Err(Fail::new("no instance can be read")),
    }
}

// The ground term of a text, read as the parameter of the intruder who opens what is sealed.
fn term(alloc: Global, protocol: &Protocol, text: &str) -> Result<Term, Fail>
    requires few { length protocol.now.strands ≤ 65535 }
{
    let instance = instance(alloc, protocol, &["unseal X=", text])?;
    let mut args = instance.args;
    match args.pop() {
        Some(term) => Ok(term),
        None => Err(Fail::new("no term")),
    }
}

// Appends the terms of texts with a blank between them.
fn push_terms(
    alloc: Global,
    protocol: &Protocol,
    texts: &str,
    terms: &mut Terms,
) -> Result<(), Fail>
    requires few { length protocol.now.strands ≤ 65535 }
{
    let mut rest = texts;
    for _ in 0..texts.len() {
        let Some((text, more)) = rest.split_once(' ') else {
            terms.push(term(alloc, protocol, rest)?)?;
            return Ok(());
        };
        terms.push(term(alloc, protocol, text)?)?;
        rest = more;
    }
    Ok(())
}

// The events of the strand of this number.
fn events_of(protocol: &Protocol, number: u16) -> &[Event] {
    match protocol.strands.get(number as usize) {
        Some(strand) => strand.events.as_slice(),
        None => &[],
    }
}

// The messages of the first events under these terms.
fn messages(
    alloc: Global,
    theory: &Theory,
    args: &[Term],
    events: &[Event],
    bar: u16,
) -> Result<Terms, Fail>
    requires cancelling { AllCancel theory.now }
{
    let mut msgs = List::new(alloc);
    for event in events {
        if msgs.len() < bar as usize {
            msgs.push(message(alloc, theory, args, &event.msg)?)?;
        }
    }
    Ok(msgs)
}

// A strand: its bar, its name and its terms by the names of their parameters. Its messages are
// those of its first events under these terms.
fn strand(alloc: Global, theory: &Theory, protocol: &Protocol, text: &str) -> Result<PStrand, Fail>
    requires cancelling { AllCancel theory.now }
    requires few { length protocol.now.strands ≤ 65535 }
{
    let Some((bar, rest)) = text.split_once(' ') else {
        return Err(Fail::new("a strand has no name"));
    };
    let bar = bar.parse::<u16>()?;
    let instance = instance(alloc, protocol, &[rest])?;
    let events = events_of(protocol, instance.strand);
    let msgs = messages(alloc, theory, instance.args.as_slice(), events, bar)?;
    Ok(PStrand {
        strand: instance.strand,
        bar,
        args: instance.args,
        msgs,
    })
}

// Adds what one piece of a text says: `known` or `unknown` terms, or a strand.
fn add_piece(
    alloc: Global,
    theory: &Theory,
    protocol: &Protocol,
    piece: &str,
    pattern: &mut Pattern,
) -> Result<(), Fail>
    requires cancelling { AllCancel theory.now }
    requires few { length protocol.now.strands ≤ 65535 }
{
    let Some((word, texts)) = piece.split_once(' ') else {
        return Err(Fail::new("a piece has one word"));
    };
    match word {
        "known" => push_terms(alloc, protocol, texts, &mut pattern.known),
        "unknown" => push_terms(alloc, protocol, texts, &mut pattern.unknown),
        _ => {
            let strand = strand(alloc, theory, protocol, piece)?;
            pattern.strands.push(strand)?;
            Ok(())
        }
    }
}

/// The ground pattern of a text, whose pieces stand with `; ` between them.
pub(crate) fn pattern_of(
    alloc: Global,
    theory: &Theory,
    protocol: &Protocol,
    text: &str,
) -> Result<Pattern, Fail>
    requires cancelling { AllCancel theory.now }
    requires few { length protocol.now.strands ≤ 65535 }
{
    let mut pattern = Pattern {
        strands: List::new(alloc),
        known: List::new(alloc),
        unknown: List::new(alloc),
    };
    let mut rest = text;
    for _ in 0..text.len() {
        let Some((piece, more)) = rest.split_once("; ") else {
            add_piece(alloc, theory, protocol, rest, &mut pattern)?;
            return Ok(pattern);
        };
        add_piece(alloc, theory, protocol, piece, &mut pattern)?;
        rest = more;
    }
    Ok(pattern)
}
