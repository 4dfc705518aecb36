ghost use Rattle.std.specs.Prelude.{◌≡◌, ◌≤◌, length, drop, List, Option, None, IfOk};
ghost use Rattle.npa_syntax.specs.Languages.{language};
ghost use Rattle.npa_text.specs.declared.fault.TextFault.TheVariants.{Syntax};
ghost use Rattle.npa_text.specs.Parses.{terminals_from, place_at, IsParse, AnswersParse, AnswersFirstFault, PlacesFirstFault};
ghost use Rattle.npa_text.specs.Sizes.{IsFew};

use crate::fault::{NoMemory, TextFault};
use crate::place::{Place, end_place};
use crate::scan::lex;
use crate::token::{Lexed, Token, Tokens};
use crate::words::terminal_kind;
use npa_list::List;
use npa_syntax::{Grammar, Node, ReadFault, Terminal, read_all};
use std::alloc::Global;

/// A text that was read: its tokens, and the syntax trees that a grammar gives it. The terminals of
/// the trees name tokens by their places.
#[derive(Debug, Drop)]
pub struct Parsed {
    pub tokens: Tokens,
    pub nodes: List<Node>,
}

/// The terminals of the tokens from a place on.
pub(crate) fn terminals_from(
    alloc: Global,
    bytes: &[u8],
    tokens: &[Token],
    from: usize,
) -> Result<Vec<Terminal>, NoMemory>
    requires { length tokens.now ≤ 1048576 }
    ensures { IfOk result (λ terminals. terminals.items ≡ terminals_from from bytes.now (drop from tokens.now)) }
{
    let mut terminals = Vec::new(alloc);
    for at in from..tokens.len() {
        terminals.push(Terminal {
            kind: terminal_kind(bytes, tokens[at]),
            at: at as u32,
        })?;
    }
    Ok(terminals)
}

/// The fault at a token, counted from 0. Behind the last token it is at the byte at which none
/// begins, or else at the end of the text.
pub(crate) fn fault_at(
    bytes: &[u8],
    tokens: &[Token],
    broken: Option<Place>,
    at: usize,
) -> TextFault
    requires { length bytes.now ≤ 1048576 }
    ensures { result ≡ Syntax (place_at bytes.now (drop at tokens.now) broken).line (place_at bytes.now (drop at tokens.now) broken).col }
{
    if let Some(token) = tokens.get(at) {
        return TextFault::Syntax {
            line: token.line,
            col: token.col,
        };
    }
    let Place { line, col } = match broken {
        Some(place) => place,
        None => end_place(bytes),
    };
    TextFault::Syntax { line, col }
}

/// The tokens of a text and the trees that the grammar gives them. A text that isn't one of the
/// grammar's is refused with the first place at which none can go on: a token, a byte at which no
/// token begins, or the place behind the last byte.
pub fn parse(alloc: Global, grammar: &Grammar, bytes: &[u8]) -> Result<Parsed, TextFault>
    requires { length bytes.now ≤ 1048576 }
    ensures found { IfOk result (λ parsed. IsParse (language grammar.now) bytes.now parsed.tokens parsed.nodes) }
    ensures only { AnswersParse (language grammar.now) bytes.now result }
    ensures fault { PlacesFirstFault (language grammar.now) bytes.now result }
    ensures refuses { AnswersFirstFault (language grammar.now) bytes.now result }
    ensures few { IfOk result (λ parsed. IsFew parsed.nodes) }
{
    let Lexed { tokens, fault } = lex(alloc, bytes)?;
    let terminals = terminals_from(alloc, bytes, tokens.as_slice(), 0)?;
    match read_all(alloc, grammar, terminals.as_slice()) {
        Err(ReadFault::NoMemory) => Err(TextFault::NoMemory),
        Err(ReadFault::Syntax { at }) => Err(fault_at(bytes, tokens.as_slice(), fault, at)),
        Ok(nodes) => match fault {
            Some(Place { line, col }) => Err(TextFault::Syntax { line, col }),
            None => Ok(Parsed { tokens, nodes }),
        },
    }
}
