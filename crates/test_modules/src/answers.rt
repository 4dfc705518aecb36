//! What module texts are read as.

use npa_model::{Aim, Part};
use npa_module::{LimitPart, ReadError, Source, read};
use npa_sig::{Equation, Event, OpDecl, Sig, Strand, print_term};
use npa_text::{MOST_BYTES, put_number};
use std::alloc::Global;
use std::test::Fail;
use test_tables::{Answers, put_place};

fn put_limit(part: LimitPart, value: u64, out: &mut Vec<u8>) -> Result<(), Fail> {
    out.extend_from_slice(b"limit ")?;
    out.extend_from_slice(part.word())?;
    out.push(b' ')?;
    put_number(out, value)?;
    Ok(())
}

fn put_refusal(error: &ReadError, out: &mut Vec<u8>) -> Result<(), Fail> {
    match error {
        ReadError::Syntax { line, col } => put_place(b"syntax", b"", *line, *col, out),
        ReadError::Later { line, col } => put_place(b"later", b"", *line, *col, out),
        ReadError::Limit { part, value } => put_limit(*part, *value, out),
        ReadError::Name { name, line, col } => {
            put_place(b"name ", name.as_slice(), *line, *col, out)
        }
        ReadError::Sort { name, line, col } => {
            put_place(b"sort ", name.as_slice(), *line, *col, out)
        }
        ReadError::NoMemory => Err(Fail::new("out of memory")),
    }
}

fn put_sorts(sig: &Sig, sorts: &[u16], out: &mut Vec<u8>) -> Result<(), Fail> {
    for sort in sorts {
        out.push(b' ')?;
        out.extend_from_slice(sig.sort_name(*sort))?;
    }
    Ok(())
}

// An operator: its name, the sorts of its arguments and of its result, and whether it commutes.
fn put_operator(sig: &Sig, decl: &OpDecl, out: &mut Vec<u8>) -> Result<(), Fail> {
    out.extend_from_slice(b"op ")?;
    out.extend_from_slice(decl.name.as_slice())?;
    put_sorts(sig, decl.args.as_slice(), out)?;
    out.extend_from_slice(if decl.com { b" comm" } else { b" free" })?;
    put_sorts(sig, &[decl.result], out)?;
    out.push(b';')?;
    Ok(())
}

// An equation with its variables by their numbers.
fn put_equation(sig: &Sig, equation: &Equation, out: &mut Vec<u8>) -> Result<(), Fail> {
    print_term(sig, &equation.left, out)?;
    out.extend_from_slice(b" = ")?;
    print_term(sig, &equation.right, out)?;
    out.push(b';')?;
    Ok(())
}

fn put_events(sig: &Sig, events: &[Event], out: &mut Vec<u8>) -> Result<(), Fail> {
    for event in events {
        out.extend_from_slice(if event.sent { b" + " } else { b" - " })?;
        print_term(sig, &event.msg, out)?;
    }
    Ok(())
}

// A strand: its name, the sorts of its variables, how many fresh values, the names of its
// parameters, and its events with variables by their numbers.
fn put_strand(sig: &Sig, strand: &Strand, out: &mut Vec<u8>) -> Result<(), Fail> {
    out.extend_from_slice(if strand.intruder {
        b"intruder "
    } else {
        b"strand "
    })?;
    out.extend_from_slice(strand.name.as_slice())?;
    put_sorts(sig, strand.vars.as_slice(), out)?;
    out.push(b' ')?;
    put_number(out, strand.fresh as u64)?;
    for name in strand.names.as_slice() {
        out.push(b' ')?;
        out.extend_from_slice(name.as_slice())?;
    }
    put_events(sig, strand.events.as_slice(), out)?;
    out.push(b';')?;
    Ok(())
}

fn put_part(sig: &Sig, part: &Part, out: &mut Vec<u8>) -> Result<(), Fail> {
    match part {
        Part::Known(term) => {
            out.extend_from_slice(b" known ")?;
            print_term(sig, term, out)?;
            Ok(())
        }
        Part::Strand { strand, bar, args } => {
            out.extend_from_slice(b" strand ")?;
            put_number(out, *strand as u64)?;
            out.extend_from_slice(b" at ")?;
            put_number(out, *bar as u64)?;
            for arg in args.as_slice() {
                out.push(b' ')?;
                print_term(sig, arg, out)?;
            }
            Ok(())
        }
    }
}

// An aim: its name, the sorts of its variables, and its parts.
fn put_aim(sig: &Sig, aim: &Aim, out: &mut Vec<u8>) -> Result<(), Fail> {
    out.extend_from_slice(b"aim ")?;
    out.extend_from_slice(aim.name.as_slice())?;
    put_sorts(sig, aim.sorts.as_slice(), out)?;
    for part in aim.parts.as_slice() {
        put_part(sig, part, out)?;
    }
    out.push(b';')?;
    Ok(())
}

// The name of a module, and its operators, equations, strands and aims.
fn put_source(source: &Source, out: &mut Vec<u8>) -> Result<(), Fail> {
    let sig = &source.protocol.sig;
    out.extend_from_slice(source.name.as_slice())?;
    out.push(b';')?;
    for decl in sig.ops().as_slice() {
        put_operator(sig, decl, out)?;
    }
    for equation in source.protocol.equations.as_slice() {
        put_equation(sig, equation, out)?;
    }
    for strand in source.protocol.strands.as_slice() {
        put_strand(sig, strand, out)?;
    }
    for aim in source.aims.as_slice() {
        put_aim(sig, aim, out)?;
    }
    Ok(())
}

// What the text stands for, or why it is refused.
fn module(alloc: Global, text: &[u8]) -> Result<Source, ReadError> {
    if text.len() > MOST_BYTES {
        return Err(ReadError::NoMemory);
    }
    read(alloc, text)
}

/// The answers for items behind a head: the refusal, or `ok`.
#[derive(Drop)]
pub(crate) struct Refusals {
    pub(crate) head: &'static str,
}

impl Answers for Refusals {
    fn answer(&self, alloc: Global, given: &str, out: &mut Vec<u8>) -> Result<(), Fail> {
        let mut text = Vec::from_slice(alloc, self.head.as_bytes())?;
        text.extend_from_slice(given.as_bytes())?;
        match module(alloc, text.as_slice()) {
            Ok(_source) => Ok(out.extend_from_slice(b"ok")?),
            Err(error) => put_refusal(&error, out),
        }
    }
}

/// What whole texts stand for.
#[derive(Drop)]
pub(crate) struct Shown {}

impl Answers for Shown {
    fn answer(&self, alloc: Global, given: &str, out: &mut Vec<u8>) -> Result<(), Fail> {
        put_source(&module(alloc, given.as_bytes())?, out)
    }
}
