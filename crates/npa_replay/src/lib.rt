//! Replay of runs: whether a run of a protocol reaches an aim, at which step it breaks, or which
//! part of the aim it misses.
#![tactic(auto)]

mod answer;
mod candidates;
mod choice;
mod execution;
mod group;
mod inhabited;
mod links;
mod replaying;
mod room;
mod scene;
mod search;

pub use answer::Replay;
pub use replaying::replay;
