//! Whether a theory is convergent: whether each term has one normal form, in whatever order its
//! equations are used.
#![tactic(auto)]

mod convergence;
mod error;
mod pairs;
mod positions;
mod shapes;

pub use convergence::convergent;
pub use error::ConvFail;
