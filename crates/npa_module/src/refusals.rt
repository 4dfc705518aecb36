ghost use Rattle.npa_module.specs.Refusals.{name_refusal, sort_refusal, Tells};

use crate::source::ReadError;
use npa_list::List;
use npa_text::{Token, token_text};
use std::alloc::Global;

// The refusal of a word as a name.
pub(crate) fn name_refusal(alloc: Global, bytes: &[u8], token: Token) -> ReadError
    ensures { Tells result (name_refusal bytes.now token) }
{
    match List::from_slice(alloc, token_text(bytes, token)) {
        Ok(name) => ReadError::Name {
            name,
            line: token.line,
            col: token.col,
        },
        Err(_) => ReadError::NoMemory,
    }
}

// The refusal of a word for its sort.
pub(crate) fn sort_refusal(alloc: Global, bytes: &[u8], token: Token) -> ReadError
    ensures { Tells result (sort_refusal bytes.now token) }
{
    match List::from_slice(alloc, token_text(bytes, token)) {
        Ok(name) => ReadError::Sort {
            name,
            line: token.line,
            col: token.col,
        },
        Err(_) => ReadError::NoMemory,
    }
}
