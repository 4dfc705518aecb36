//! The backward steps of a pattern, all of them and in order (Escobar, Meadows, Meseguer 2009, on
//! backward narrowing).
#![tactic(auto)]

mod backward;
mod context;
mod events;
mod introducing;
mod kind;
mod learning;
mod numbers;
mod raising;
mod results;
mod telling;

pub use backward::steps;
