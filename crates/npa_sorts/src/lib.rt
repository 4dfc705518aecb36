//! The sorts of an order-sorted signature and their order.
#![tactic(auto)]

mod error;
mod sorts;
mod table;

pub use error::{NoMemory, SortFail};
pub use sorts::{FRESH, MSG, SortNums, SortPair, SortPairs, Sorts};
