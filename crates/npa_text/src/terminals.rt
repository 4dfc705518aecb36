//! The terminals of the grammars: what a grammar sees of a token. A word that is reserved is a
//! terminal of its own, any other word is a name, and each other kind of token is one terminal.

/// A word that isn't reserved.
pub const NAME: u8 = 0;
/// The word `protocol`.
pub const PROTOCOL: u8 = 1;
/// The word `sort`.
pub const SORT: u8 = 2;
/// The word `subsort`.
pub const SUBSORT: u8 = 3;
/// The word `op`.
pub const OP: u8 = 4;
/// The word `comm`.
pub const COMM: u8 = 5;
/// The word `eq`.
pub const EQ: u8 = 6;
/// The word `vars`.
pub const VARS: u8 = 7;
/// The word `fresh`.
pub const FRESH: u8 = 8;
/// The word `strand`.
pub const STRAND: u8 = 9;
/// The word `intruder`.
pub const INTRUDER: u8 = 10;
/// The word `aim`.
pub const AIM: u8 = 11;
/// The word `grammar`.
pub const GRAMMAR: u8 = 12;
/// The word `known`.
pub const KNOWN: u8 = 13;
/// The word `unknown`.
pub const UNKNOWN: u8 = 14;
/// The word `at`.
pub const AT: u8 = 15;
/// The word `if`.
pub const IF: u8 = 16;
/// The word `in`.
pub const IN: u8 = 17;
/// The word `not`.
pub const NOT: u8 = 18;
/// The word `and`.
pub const AND: u8 = 19;
/// The word `use`.
pub const USE: u8 = 20;
/// The word `do`.
pub const DO: u8 = 21;
/// The word `reached`.
pub const REACHED: u8 = 22;
/// The word `unreachable`.
pub const UNREACHABLE: u8 = 23;
/// The word `pattern`.
pub const PATTERN: u8 = 24;
/// The word `end`.
pub const END: u8 = 25;
/// A number.
pub const NUMBER: u8 = 26;
/// A fresh name.
pub const FRESH_NAME: u8 = 27;
/// A variable mark.
pub const VARIABLE_MARK: u8 = 28;
/// `(`.
pub const OPEN: u8 = 29;
/// `)`.
pub const CLOSE: u8 = 30;
/// `,`.
pub const COMMA: u8 = 31;
/// `:`.
pub const COLON: u8 = 32;
/// `;`.
pub const SEMICOLON: u8 = 33;
/// `=`.
pub const EQUALS: u8 = 34;
/// `<`.
pub const LESS: u8 = 35;
/// `+`.
pub const PLUS: u8 = 36;
/// `-`.
pub const MINUS: u8 = 37;
/// `->`.
pub const ARROW: u8 = 38;
/// How many terminals there are; each is below this number.
pub const COUNT: u8 = 39;
