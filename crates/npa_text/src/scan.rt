ghost use Rattle.std.specs.Prelude.{◌≡◌, ◌≤◌, ◌<◌, ◌+◌, length, List, Option, None, IfOk, IfErr};
ghost use Rattle.npa_text.specs.Faults.{IsFaultOf, GivesTokens};
ghost use Rattle.npa_text.specs.Lexing.{begins_comment, token_between, Lexes, AreTokens};
ghost use Rattle.npa_text.specs.Places.{first_place, moved, along};
ghost use Rattle.npa_text.specs.Scans.{mark_of, numbered, token_at, gap_at, lexed};

use crate::bytes::{begins_with, digit_run, is_blank, is_digit, is_letter, line_run, word_run};
use crate::fault::{NoMemory, TextFault};
use crate::numeral::is_numeral;
use crate::place::{FIRST_PLACE, Place, moved};
use crate::token::{Kind, Lexed, Token, Tokens};
use std::alloc::Global;

/// The greatest number of a variable mark.
const GREATEST_MARK: u32 = 1_000_000;

// The mark that is one byte.
fn mark_of(byte: u8) -> Option<Kind>
    ensures { result ≡ mark_of byte }
{
    match byte {
        b'(' => Some(Kind::Open),
        b')' => Some(Kind::Close),
        b',' => Some(Kind::Comma),
        b':' => Some(Kind::Colon),
        b';' => Some(Kind::Semicolon),
        b'=' => Some(Kind::Equals),
        b'<' => Some(Kind::Less),
        b'+' => Some(Kind::Plus),
        _ => None,
    }
}

// The blank or the comment that begins a text: how many of the bytes behind its first belong to it.
fn gap_of(text: &[u8]) -> Option<usize>
    ensures { result ≡ gap_at text.now }
{
    let [first, rest @ ..] = text else {
        return None;
    };
    if is_blank(*first) {
        return Some(0);
    }
    if begins_comment(*first, rest) {
        return Some(line_run(rest));
    }
    None
}

fn begins_comment(first: u8, rest: &[u8]) -> bool
    ensures { result ≡ begins_comment first rest.now }
{
    first == b'/' && begins_with(b'/', rest)
}

// The token that begins a text: its kind, and how many of the bytes behind its first belong to it.
#[tactic(auto, using(crate::proofs::Pieces::number_front))]
fn token_of(text: &[u8]) -> Option<(Kind, usize)>
    ensures { result ≡ token_at text.now }
{
    let [first, rest @ ..] = text else {
        return None;
    };
    if is_letter(*first) {
        return Some((Kind::Word, word_run(rest)));
    }
    let digits = digit_run(rest);
    if is_digit(*first) {
        return numbered(
            Kind::Number,
            digits,
            is_numeral(&text[..digits + 1], 0, u32::MAX),
        );
    }
    match *first {
        b'#' => numbered(
            Kind::FreshName,
            digits,
            is_numeral(&rest[..digits], 0, u32::MAX),
        ),
        b'?' => numbered(
            Kind::VariableMark,
            digits,
            is_numeral(&rest[..digits], 1, GREATEST_MARK),
        ),
        b'-' if begins_with(b'>', rest) => Some((Kind::Arrow, 1)),
        b'-' => Some((Kind::Minus, 0)),
        other => mark_of(other).map(|kind| (kind, 0)),
    }
}

fn numbered(kind: Kind, digits: usize, fits: bool) -> Option<(Kind, usize)>
    ensures { result ≡ numbered kind digits fits }
{
    if fits { Some((kind, digits)) } else { None }
}

// How far a scan has come: the next byte, and its place.
#[derive(Clone, Copy)]
struct Cursor {
    at: usize,
    place: Place,
}

impl Cursor {
    // Behind a piece whose first byte stands here, and whose `more` bytes behind that one are no line
    // feeds.
    fn past(self, first: u8, more: usize) -> Cursor
        requires in_text { self.at + more < 1048576 }
        requires line { self.place.line ≤ self.at + 1 }
        requires col { self.place.col ≤ self.at + 1 }
        ensures { result ≡ record {
          at = self.at + (more + 1);
          place = along more (moved first self.place);
        } }
    {
        let next = moved(first, self.place);
        Cursor {
            at: self.at + (more + 1),
            place: Place {
                line: next.line,
                col: next.col + more as u32,
            },
        }
    }

    // The token of a kind that begins here and has `more` bytes behind its first.
    fn token(self, kind: Kind, more: usize) -> Token
        requires in_text { self.at + more < 1048576 }
        ensures { result ≡ token_between kind self.at (self.at + (more + 1)) self.place }
    {
        Token {
            kind,
            start: self.at as u32,
            end: (self.at + (more + 1)) as u32,
            line: self.place.line,
            col: self.place.col,
        }
    }
}

/// The tokens of a text up to the first byte at which none begins, and the place of that byte. The
/// longest token is taken; blanks and comments are passed over. A number with a leading zero or past
/// its greatest value is no token, and neither is a `#` or `?` without a number.
///
/// A text has at most `MOST_BYTES` bytes.
pub fn lex(alloc: Global, bytes: &[u8]) -> Result<Lexed, NoMemory>
    requires { length bytes.now ≤ 1048576 }
    ensures value { IfOk result (λ found. found ≡ lexed bytes.now) }
    ensures rule { IfOk result (λ found. Lexes 0 first_place bytes.now found.tokens found.fault) }
    ensures only { (ts : List Token) (fault : Option Place) → Lexes 0 first_place bytes.now ts fault
        → IfOk result (λ found. found ≡ record { tokens = ts; fault = fault }) }
{
    let mut tokens = Tokens::new(alloc);
    let mut cursor = Cursor {
        at: 0,
        place: FIRST_PLACE,
    };
    while cursor.at < bytes.len() {
        let text = &bytes[cursor.at..];
        if let Some(more) = gap_of(text) {
            cursor = cursor.past(bytes[cursor.at], more);
            continue;
        }
        let Some((kind, more)) = token_of(text) else {
            return Ok(Lexed {
                tokens,
                fault: Some(cursor.place),
            });
        };
        tokens.push(cursor.token(kind, more))?;
        cursor = cursor.past(bytes[cursor.at], more);
    }
    Ok(Lexed {
        tokens,
        fault: None,
    })
}

/// The tokens of a text. A text that can't be cut into tokens is refused with the place of the first
/// byte at which none begins. A text has at most `MOST_BYTES` bytes.
pub fn tokens(alloc: Global, bytes: &[u8]) -> Result<Tokens, TextFault>
    requires { length bytes.now ≤ 1048576 }
    ensures ok { IfOk result (AreTokens bytes.now) }
    ensures only { (ts : List Token) → AreTokens bytes.now ts → GivesTokens result ts }
    ensures value { IfOk result (λ tokens. lexed bytes.now ≡ record { tokens = tokens; fault = None }) }
    ensures syntax { IfErr result (λ fault. IsFaultOf fault (lexed bytes.now).fault) }
{
    let Lexed { tokens, fault } = lex(alloc, bytes)?;
    match fault {
        None => Ok(tokens),
        Some(Place { line, col }) => Err(TextFault::Syntax { line, col }),
    }
}
