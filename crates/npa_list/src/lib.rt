//! The list type of the workspace: a vector that contracts see as the list of its members.
#![tactic(auto)]

mod list;

pub use list::List;
