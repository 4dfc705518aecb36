ghost use Rattle.npa_module.specs.Refusals.{Gives};
ghost use Rattle.npa_module.specs.Items.{term_read, message_read};

use crate::refusals::sort_refusal;
use crate::source::ReadError;
use npa_sig::{FRESH, Scope, Sig, UseFail, resolve};
use npa_term::Term;
use npa_text::Raw;
use std::alloc::Global;

// The term that a term of a text stands for, with these variables.
pub(crate) fn read_term(
    alloc: Global,
    bytes: &[u8],
    sig: &Sig,
    scope: &Scope,
    raw: &Raw,
) -> Result<Term, ReadError>
    ensures { Gives result (term_read bytes.now sig.now scope.now raw.now) }
{
    match resolve(alloc, sig, scope, bytes, raw) {
        Ok(term) => Ok(term),
        Err(UseFail::NoMemory) => Err(ReadError::NoMemory),
        Err(UseFail::Name { name, line, col }) => Err(ReadError::Name { name, line, col }),
        Err(UseFail::Sort { name, line, col }) => Err(ReadError::Sort { name, line, col }),
    }
}

// The same of a message or a fact, which isn't of the sort `Fresh`.
pub(crate) fn read_message(
    alloc: Global,
    bytes: &[u8],
    sig: &Sig,
    scope: &Scope,
    raw: &Raw,
) -> Result<Term, ReadError>
    ensures { Gives result (message_read bytes.now sig.now scope.now raw.now) }
{
    let term = match read_term(alloc, bytes, sig, scope, raw) {
        Ok(term) => term,
        Err(error) => return Err(error),
    };
    if sig.sort_of(&term) == FRESH {
        return Err(sort_refusal(alloc, bytes, raw.head));
    }
    Ok(term)
}
