//! What isn't accepted of the term that a module's aim names.

ghost use Rattle.npa_module.specs.Forms.{IsWellFormedSource, IsPlainSource};

use npa_accept::first_unaccepted;
use npa_model::Part;
use npa_module::{Source, read};
use npa_rewrite::Theory;
use npa_sig::print_term;
use npa_text::{MOST_BYTES, put_number};
use std::alloc::Global;
use std::test::Fail;
use test_tables::Answers;

// The variables of an aim have numbers below this.
const NEXT: u32 = 1073741824;

/// Answers with the first part of the term that isn't accepted, variables by their numbers, and the
/// number of the equation, from 0.
#[derive(Drop)]
pub(crate) struct Accepting {}

impl Answers for Accepting {
    fn answer(&self, alloc: Global, given: &str, out: &mut Vec<u8>) -> Result<(), Fail> {
        let text = given.as_bytes();
        if text.len() > MOST_BYTES {
            return Err(Fail::new("too long"));
        }
        match read(alloc, text) {
            Ok(source) => put_unaccepted(alloc, &source, out),
            Err(_) => Err(Fail::new("no module")),
        }
    }
}

// Appends the answer for the term that is the first part of the first aim.
fn put_unaccepted(alloc: Global, source: &Source, out: &mut Vec<u8>) -> Result<(), Fail>
    requires formed { IsWellFormedSource source.now }
    requires plain { IsPlainSource source.now }
{
    let Some(aim) = source.aims.get(0) else {
        return Err(Fail::new("no aim"));
    };
    let Some(Part::Known(term)) = aim.parts.get(0) else {
        return Err(Fail::new("no known term"));
    };
    let th = Theory::of(alloc, &source.protocol)?;
    let Some(found) = first_unaccepted(alloc, &th, term, NEXT)? else {
        out.extend_from_slice(b"accepted")?;
        return Ok(());
    };
    print_term(&source.protocol.sig, &found.term, out)?;
    out.push(b' ')?;
    put_number(out, found.equation as u64)?;
    Ok(())
}
