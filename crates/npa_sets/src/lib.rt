//! Sets of facts that one message makes known: each set of a list of facts whose members all unify
//! with the message at once, with the unifiers (Escobar, Meadows, Meseguer 2009, on backward narrowing).
#![tactic(auto)]

mod sets;
mod solving;

pub use sets::{FactSet, FactSets, fact_sets};
