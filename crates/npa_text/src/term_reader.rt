ghost use Rattle.std.specs.Prelude.{◌≡◌, ◌≤◌, length, IfOk, OnErr};
ghost use Rattle.npa_text.specs.Lexing.{AreTokens};
ghost use Rattle.npa_text.specs.RawTerms.{IsTermAt, AnswersTerm, PlacesTermFault};

use crate::fault::TextFault;
use crate::grammars::term_grammar;
use crate::parser::{fault_at, terminals_from};
use crate::raws::raw_of;
use crate::token::{Raw, Tokens};
use npa_syntax::{ReadFault, read_front};
use std::alloc::Global;

/// Reads the term that begins at token `at`, counted from 0, with its arguments wherever `(` follows
/// its name, and moves `at` past it. Where there is no such term, the fault is at the first token at
/// which none can go on, or behind the last byte where the tokens end there; a bracket past the
/// 1,200 that may be open at once is such a token. It looks at all tokens from `at` on.
pub fn raw_term(
    alloc: Global,
    bytes: &[u8],
    tokens: &Tokens,
    at: &mut u32,
) -> Result<Raw, TextFault>
    requires bytes { length bytes.now ≤ 1048576 }
    requires tokens { AreTokens bytes.now tokens.now }
    ensures found { IfOk result (λ term. IsTermAt bytes.now tokens.now at.old term at.new) }
    ensures only { AnswersTerm bytes.now tokens.now at.old result at.new }
    ensures fault { PlacesTermFault bytes.now tokens.now at.old result }
    ensures unmoved { OnErr result (at.new ≡ at.old) }
{
    let from = *at as usize;
    let terminals = terminals_from(alloc, bytes, tokens.as_slice(), from)?;
    match read_front(alloc, &term_grammar(), terminals.as_slice()) {
        Err(ReadFault::NoMemory) => Err(TextFault::NoMemory),
        Err(ReadFault::Syntax { at: passed }) => {
            Err(fault_at(bytes, tokens.as_slice(), None, from + passed))
        }
        Ok((nodes, count)) => {
            let term = raw_of(alloc, tokens, &nodes.as_slice()[0])?;
            *at = (from + count) as u32;
            Ok(term)
        }
    }
}
