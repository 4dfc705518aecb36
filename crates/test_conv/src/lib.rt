//! Tests of the check of convergence, over its public call.
#![tactic(auto)]

#[cfg(test)]
mod converging;
#[cfg(test)]
mod verdicts;
