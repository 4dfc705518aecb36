//! Tables of names: which names were given, in which order, found again by their bytes.
#![tactic(auto)]

mod table;

pub use table::NameTable;
