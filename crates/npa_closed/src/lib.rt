//! Closed lists of patterns, which no run meets: what shows that an aim is unreachable (Escobar, Meadows,
//! Meseguer 2009).
#![tactic(auto)]

mod laws;

pub use laws::{any_unifier_laws, closed_laws};
