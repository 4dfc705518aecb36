//! Tests of sorts, signatures, terms, matching, rewriting and laws, over their public calls.
#![tactic(auto)]

#[cfg(test)]
mod laws;
#[cfg(test)]
mod matching;
#[cfg(test)]
mod numbers;
#[cfg(test)]
mod order;
#[cfg(test)]
mod rewriting;
#[cfg(test)]
mod signatures;
#[cfg(test)]
mod terms;
