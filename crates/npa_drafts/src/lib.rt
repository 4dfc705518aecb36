//! What comes of a backward move: the earlier pattern, its instance by a unifier, its measures, and its
//! variables in new numbers (Escobar, Meadows, Meseguer 2009, on backward narrowing).
#![tactic(auto)]

mod drafting;
mod instances;
mod measuring;
mod moving;
mod numbering;
mod results;
mod variables;

pub use drafting::{Draft, draw, keeps_apart};
pub use measuring::excess;
pub use moving::{before_introducing, before_learning, before_receive, before_send, last_message};
pub use numbering::{Numbered, number_anew};
pub use results::results_by;
pub use variables::variables_once;
