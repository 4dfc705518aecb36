//! The roots of an aim and the backward steps of a pattern: what they are, and the lists of them
//! all, as definitions over the answers of unification (Escobar, Meadows, Meseguer 2009).
#![tactic(auto)]

mod error;
mod laws;
mod step;

pub use error::StepFail;
pub use laws::{root_laws, step_laws};
pub use step::{Chain, Root, Roots, Rule, Step, Steps};
