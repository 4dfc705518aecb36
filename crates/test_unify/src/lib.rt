//! Tests of unification, over its public calls.
#![tactic(auto)]

#[cfg(test)]
mod algebra;
#[cfg(test)]
mod laws;
#[cfg(test)]
mod unifying;
