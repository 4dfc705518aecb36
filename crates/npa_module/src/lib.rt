//! Module texts.
#![tactic(auto)]

mod aims;
mod draft;
mod equations;
mod operators;
mod parts;
mod reader;
mod refusals;
mod scopes;
mod sorts;
mod source;
mod strands;
mod terms;

pub use npa_limits::LimitPart;
pub use reader::read;
pub use source::{ReadError, Source};
