//! Tests of whether the terms of aims are accepted, over public calls.
#![tactic(auto)]

#[cfg(test)]
mod accepting;
#[cfg(test)]
mod answers;
