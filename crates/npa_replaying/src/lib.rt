//! The program's answer about a run: what its file holds, and what comes of its replay.
#![tactic(auto)]

mod answer;
mod lines;

pub use answer::run_answer;
