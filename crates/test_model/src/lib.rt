//! Tests of what a run meets, over public calls.
#![tactic(auto)]

#[cfg(test)]
mod meeting;
#[cfg(test)]
mod reading;
#[cfg(test)]
mod rows;
