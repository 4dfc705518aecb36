//! Calls on the terms of a module that is given by its text, for tables of tests.
#![tactic(auto)]

mod algebra;
mod matching;
mod reading;
mod rewriting;
mod terms;
mod writing;

pub use algebra::{answer_in, first_wrong_in};
