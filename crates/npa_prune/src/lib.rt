//! Patterns that no run meets, told by the pattern alone, and the first rule by which one is dropped
//! from a backwards search (Escobar, Meadows, Meseguer 2009).
#![tactic(auto)]

mod early;
mod fresh;
mod laws;
mod pruning;
mod reducible;
mod rule;

pub use laws::prune_laws;
pub use pruning::pruned;
pub use rule::PruneRule;
