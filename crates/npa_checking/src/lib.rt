//! The checks of a module that is read, and the line that tells of the first that fails, or that all hold.
#![tactic(auto)]

mod checking;
mod copying;
mod counting;
mod lines;
mod numbers;
mod strand_lines;
mod terms;

pub use checking::{check, check_line};
pub use counting::ok_line;
pub use lines::fail_line;
