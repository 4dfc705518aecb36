//! The rules by which the patterns of a backwards search are folded: which covers which, and which
//! are initial (Escobar, Sasse, Meseguer 2012).
#![tactic(auto)]

mod covering;
mod laws;

pub use covering::covers_item;
pub use laws::{equality_laws, folding_laws};
