//! The folding store: the entries of a search and its history. Each call on it is one event of the
//! machine of `fold_core`, so whatever its callers do, what holds of the machine holds of it.
#![tactic(auto)]

mod answer;
mod entry;
mod error;
mod forest;
mod journal;
mod ledger;
mod log;
mod store;
mod table;
mod work;

pub use answer::{Places, Taken, Verdict};
pub use error::{InsertFail, StoreFail};
pub use store::Store;
pub use work::Work;
