//! The core of the folding store: the rules that a search is made of, the machine that every run
//! of the store goes through, whatever its workers do, and the facts that hold of the machine
//! after every history.
#![tactic(auto)]

mod error;
mod event;
pub mod facts;
mod folding;

pub use error::{ExpandFail, Large, Measure, NoMemory};
pub use event::{Event, Events, Origin, Placed, PlacedList, Status};
pub use folding::Folding;
