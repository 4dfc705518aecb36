//! Tests of covers and of the search for choices, over public calls.
#![tactic(auto)]

#[cfg(test)]
mod choices;
#[cfg(test)]
mod covering;
#[cfg(test)]
mod reading;
