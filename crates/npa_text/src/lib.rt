//! The texts that the tool reads and writes: the tokens of a text, and the files and outputs
//! outside the program.
#![tactic(auto)]

mod bytes;
mod fault;
mod grammars;
mod memory;
mod name;
mod number;
mod numeral;
mod outside;
mod parser;
mod place;
mod raws;
mod real;
mod scan;
pub mod symbols;
mod term_reader;
pub mod terminals;
mod token;
mod words;

pub use fault::{NoMemory, TextFault};
pub use grammars::{MOST_NESTED, module_grammar, run_grammar, term_grammar};
pub use memory::{Marks, MemEntries, MemEntry, MemFiles, MemSink};
pub use name::{Name, Names, Word, Words};
pub use number::put_number;
pub use numeral::numeral_in;
pub use outside::{Files, PutFail, ReadFail, Sink};
pub use parser::{Parsed, parse};
pub use place::{Place, end_place};
pub use raws::{raw_of, token_at, token_of};
pub use real::{RealFiles, RealOut};
pub use scan::{lex, tokens};
pub use term_reader::raw_term;
pub use token::{Kind, Lexed, MOST_BYTES, Raw, Raws, Token, Tokens, number_of, token_text};
pub use words::{terminal_kind, word_kind};
