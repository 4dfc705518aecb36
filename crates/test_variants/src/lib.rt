//! Tests of the variants of strands, over public calls.
#![tactic(auto)]

#[cfg(test)]
mod counting;
#[cfg(test)]
mod finding;
#[cfg(test)]
mod printing;
#[cfg(test)]
mod readying;
