ghost use Rattle.std.specs.Prelude.{◌≡◌, map};
ghost use Rattle.npa_text.specs.Terminals.{reserved, word_terminal, terminal_of};
ghost use Rattle.npa_text.specs.ReservedRows.{plain};

use crate::terminals::*;
use crate::token::{Kind, Token, token_text};

// A reserved word and its terminal.
#[derive(Clone, Copy)]
struct ReservedWord {
    text: &'static [u8],
    terminal: u8,
}

macro_rules! row {
    ($text:literal, $terminal:ident) => {
        ReservedWord {
            text: $text,
            terminal: $terminal,
        }
    };
}

fn reserved_words() -> &'static [ReservedWord]
    ensures { map plain result.now ≡ reserved }
{
    &[
        row!(b"protocol", PROTOCOL),
        row!(b"sort", SORT),
        row!(b"subsort", SUBSORT),
        row!(b"op", OP),
        row!(b"comm", COMM),
        row!(b"eq", EQ),
        row!(b"vars", VARS),
        row!(b"fresh", FRESH),
        row!(b"strand", STRAND),
        row!(b"intruder", INTRUDER),
        row!(b"aim", AIM),
        row!(b"grammar", GRAMMAR),
        row!(b"known", KNOWN),
        row!(b"unknown", UNKNOWN),
        row!(b"at", AT),
        row!(b"if", IF),
        row!(b"in", IN),
        row!(b"not", NOT),
        row!(b"and", AND),
        row!(b"use", USE),
        row!(b"do", DO),
        row!(b"reached", REACHED),
        row!(b"unreachable", UNREACHABLE),
        row!(b"pattern", PATTERN),
        row!(b"end", END),
    ]
}

/// The terminal of a word: its own if it is reserved, else that of a name.
pub fn word_kind(word: &[u8]) -> u8
    ensures { result ≡ word_terminal word.now }
{
    for reserved in reserved_words() {
        if reserved.text == word {
            return reserved.terminal;
        }
    }
    NAME
}

/// The terminal of a token of these bytes.
pub fn terminal_kind(bytes: &[u8], token: Token) -> u8
    ensures { result ≡ terminal_of bytes.now token }
{
    match token.kind {
        Kind::Word => word_kind(token_text(bytes, token)),
        Kind::Number => NUMBER,
        Kind::FreshName => FRESH_NAME,
        Kind::VariableMark => VARIABLE_MARK,
        Kind::Open => OPEN,
        Kind::Close => CLOSE,
        Kind::Comma => COMMA,
        Kind::Colon => COLON,
        Kind::Semicolon => SEMICOLON,
        Kind::Equals => EQUALS,
        Kind::Less => LESS,
        Kind::Plus => PLUS,
        Kind::Minus => MINUS,
        Kind::Arrow => ARROW,
    }
}
