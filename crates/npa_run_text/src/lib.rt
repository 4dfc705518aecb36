//! Run texts: a run of a protocol as it stands in a file.
#![tactic(auto)]

mod fault;
mod reader;
mod strand_table;

pub use fault::RunTextFail;
pub use reader::{params_at, read_run};
