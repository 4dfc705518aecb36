//! Tables of rows for tests: in each line what is given, ` => `, and the text that is answered.
#![tactic(auto)]

mod table;

pub use table::{Answers, first_wrong, put_place, put_text};
