//! The limits of a module text, read off its syntax trees, and the items that aren't read so far.
#![tactic(auto)]

mod later;
mod limits;
mod part;

pub use later::later_item;
pub use limits::{
    MOST_AIMS, MOST_ARGS, MOST_EQUATIONS, MOST_EVENTS, MOST_KNOWN_PARTS, MOST_OPS, MOST_PARAMS,
    MOST_SORTS, MOST_STRAND_PARTS, MOST_STRANDS, MOST_SYMBOLS, first_limit,
};
pub use part::LimitPart;
