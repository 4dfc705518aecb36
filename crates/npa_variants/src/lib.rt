//! Complete variants of terms modulo the equations, and origination of what a strand sends.
#![tactic(auto)]

mod covering;
mod error;
mod fault;
mod finding;
mod kept;
mod making;
mod narrowing;
mod origins;
mod parts;
mod ready;
mod searching;
mod strands;
mod variant;

pub use error::VarFail;
pub use fault::ReadyFail;
pub use finding::variants;
pub use ready::Ready;
pub use variant::{Variant, Variants};
