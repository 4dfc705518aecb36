//! The answers of the program, by command: the words are read once, a module is judged by its checks in
//! their order, and each command has one relation between its words, what lies outside the program, and
//! the text and status that come of it.
#![tactic(auto)]

mod checking;
mod commands;
mod lines;
mod loading;
mod program;
mod replaying;

pub use commands::{Command, read_command};
pub use program::{Ended, npa_plain};
