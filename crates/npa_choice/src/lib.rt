//! A search for choices: each asker gets one of the offers that are made to it, so that no place is
//! taken twice and the pairs of terms of all of them are matched by one substitution.
#![tactic(auto)]

mod offer;
mod partial;
mod room;
mod search;

pub use offer::{Offer, Offers};
pub use search::{Choice, choose};
