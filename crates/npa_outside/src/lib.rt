//! What the program's answers have in common: what is loaded of a file, and the lines that are printed.
#![tactic(auto)]

mod lines;
mod loading;

pub use lines::{Printed, put_counted, put_numbered, put_place, put_word, told};
pub use loading::{Halt, LIMIT_BYTES, Loaded, load};
