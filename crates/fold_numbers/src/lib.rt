//! What the folding store is tried with: rules over numbers, and the store's machine as a plain
//! program over them.
#![tactic(auto)]

mod ladder;
mod numbers;
pub mod replay;

pub use ladder::Ladder;
pub use numbers::Numbers;
