//! Whether a term is accepted in the pattern of an aim: whether each of its instances by normal terms
//! is normal.
#![tactic(auto)]

mod accepted;
mod laws;
mod trying;

pub use accepted::{Unaccepted, first_unaccepted};
pub use laws::accepted_laws;
