//! The verdicts on the theories of module texts.

ghost use Rattle.std.specs.Prelude.{IfOk};
ghost use Rattle.npa_module.specs.Forms.{IsPlainSource, IsWellFormedSource};

use npa_conv::{ConvFail, convergent};
use npa_module::{Source, read};
use npa_rewrite::Theory;
use npa_sig::{Sig, print_term};
use npa_text::{MOST_BYTES, put_number};
use std::alloc::Global;
use std::test::Fail;
use test_tables::Answers;

// What the text stands for.
fn module(alloc: Global, text: &[u8]) -> Result<Source, Fail>
    ensures form { IfOk result IsWellFormedSource }
    ensures plain { IfOk result IsPlainSource }
{
    if text.len() > MOST_BYTES {
        return Err(Fail::new("a long text"));
    }
    Ok(read(alloc, text)?)
}

fn put_numbered(word: &[u8], number: u64, out: &mut Vec<u8>) -> Result<(), Fail> {
    out.extend_from_slice(word)?;
    put_number(out, number)?;
    Ok(())
}

// The refusal; variables by the numbers that they have in the check.
fn put_refusal(sig: &Sig, fail: &ConvFail, out: &mut Vec<u8>) -> Result<(), Fail> {
    match fail {
        ConvFail::Shape(at) => put_numbered(b"shape ", *at as u64, out),
        ConvFail::SortUp(at) => put_numbered(b"sort up ", *at as u64, out),
        ConvFail::Pair { from, left, right } => {
            out.extend_from_slice(b"pair ")?;
            print_term(sig, from, out)?;
            out.push(b' ')?;
            print_term(sig, left, out)?;
            out.push(b' ')?;
            print_term(sig, right, out)?;
            Ok(())
        }
        ConvFail::Unifiers(first, second) => {
            put_numbered(b"unifiers ", *first as u64, out)?;
            put_numbered(b" ", *second as u64, out)
        }
        ConvFail::Symbols(count) => put_numbered(b"symbols ", *count, out),
        ConvFail::NoMemory => Err(Fail::new("out of memory")),
    }
}

// The verdict on the equations of a module.
fn put_verdict(alloc: Global, source: &Source, out: &mut Vec<u8>) -> Result<(), Fail>
    requires form { IsWellFormedSource source.now }
    requires plain { IsPlainSource source.now }
{
    let th = Theory::of(alloc, &source.protocol)?;
    match convergent(alloc, &th) {
        Ok(()) => Ok(out.extend_from_slice(b"ok")?),
        Err(fail) => put_refusal(&th.sig, &fail, out),
    }
}

/// The verdicts on modules of such items.
#[derive(Drop)]
pub(crate) struct Verdicts {}

impl Answers for Verdicts {
    /// The refusal, or `ok`.
    fn answer(&self, alloc: Global, given: &str, out: &mut Vec<u8>) -> Result<(), Fail> {
        let mut text = Vec::from_slice(alloc, b"protocol P; ")?;
        text.extend_from_slice(given.as_bytes())?;
        let source = module(alloc, text.as_slice())?;
        put_verdict(alloc, &source, out)
    }
}
