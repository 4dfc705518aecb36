ghost use Rattle.std.specs.Prelude.{◌≡◌, ◌≤◌, length};
ghost use Rattle.npa_text.specs.Texts.{text_of, number_of};

use crate::bytes::is_digit;
use crate::numeral::decimal_value;
use crate::place::Place;
use npa_list::List;

/// The greatest number of bytes of a text.
pub const MOST_BYTES: usize = 1_048_576;

/// What a token is. Each mark has a kind of its own.
#[derive(Clone, Copy, Debug, PartialEq, Eq)]
pub enum Kind {
    /// A letter, then letters, digits and `_`.
    Word,
    /// A decimal number without a leading zero.
    Number,
    /// `#` and a number, the name of a fresh value.
    FreshName,
    /// `?` and a number from 1, a variable of a printed text.
    VariableMark,
    /// `(`
    Open,
    /// `)`
    Close,
    /// `,`
    Comma,
    /// `:`
    Colon,
    /// `;`
    Semicolon,
    /// `=`
    Equals,
    /// `<`
    Less,
    /// `+`
    Plus,
    /// `-`
    Minus,
    /// `->`
    Arrow,
}

/// A token of a text: what it is, the bytes of the text from `start` to before `end`, and the
/// place of its first byte.
#[derive(Clone, Copy, Debug, PartialEq, Eq)]
pub struct Token {
    pub kind: Kind,
    pub start: u32,
    pub end: u32,
    pub line: u32,
    pub col: u32,
}

/// The tokens of a text, in its order.
pub type Tokens = List<Token>;

/// What a scan of a text found: the tokens before the first byte at which no token begins, and
/// the place of that byte, if there is one.
#[derive(Debug, Drop)]
pub struct Lexed {
    pub tokens: Tokens,
    pub fault: Option<Place>,
}

/// A term as it stands in a text: its first token, and the terms in the brackets behind it.
#[derive(Debug, Drop)]
pub struct Raw {
    pub head: Token,
    pub args: Raws,
}

/// The terms in a pair of brackets, in order.
pub type Raws = List<Raw>;

/// The bytes of a token. Of a token that isn't one of these bytes it is what there is of its span.
pub fn token_text(bytes: &[u8], token: Token) -> &[u8]
    ensures { result.now ≡ text_of bytes.now token }
{
    let end = (token.end as usize).min(bytes.len());
    let start = (token.start as usize).min(end);
    &bytes[start..end]
}

/// The number in a number, a fresh name or a variable mark. Every such token of a text has one below
/// 2^32; of another span whose digits stand for more it is 2^32 - 1.
pub fn number_of(bytes: &[u8], token: Token) -> u32
    ensures { result ≡ number_of bytes.now token }
{
    let text = token_text(bytes, token);
    let digits = match text {
        [first, rest @ ..] if !is_digit(*first) => rest,
        _ => text,
    };
    decimal_value(digits).min(u32::MAX as u64) as u32
}
