//! Whether a pattern covers another: one substitution sends it into the other, modulo commutativity.
#![tactic(auto)]

mod askers;
mod cover;
mod early;
mod found;
mod laws;

pub use cover::{Cover, covers, covers_by};
pub use laws::covering_laws;
