//! One worker's turn on a folding store.
#![tactic(auto)]

mod turn;

pub use turn::{Turn, one};
