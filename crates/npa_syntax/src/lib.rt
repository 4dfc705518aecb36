//! Grammars as tables, and one exact reader for all of them.
//!
//! A grammar is a table of productions, each of which begins with a terminal by whose kind it is
//! known. A text is a list of terminals, its tree a list of nodes. The reader answers a text's one
//! tree, or the first terminal at which no text can go on.
//!
//! A language is a function that makes its [`Grammar`] from a literal table, by the macros
//! `production!`, `one!`, `optional!` and `repeated!`. That one terminal of look-ahead decides in
//! it is computed from the table when the function is checked: a table with a conflict is refused.
#![tactic(auto)]

mod fault;
mod grammar;
mod node;
mod nodes;
mod opening;
mod production;
mod reader;

pub use fault::ReadFault;
pub use grammar::Grammar;
pub use node::{Node, Terminal};
pub use nodes::{child_of, head_of};
pub use production::{Occurrence, Part, Production};
pub use reader::{read_all, read_front};
