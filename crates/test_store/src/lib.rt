//! Tests of the machine of a folding store, of the store, and of a worker's turn.
#![tactic(auto)]

#[cfg(test)]
mod machine;
#[cfg(test)]
mod pool;
#[cfg(test)]
mod store;
