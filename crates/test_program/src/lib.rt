//! Tests of the program over files in memory.
#![tactic(auto)]

#[cfg(test)]
mod answers;
#[cfg(test)]
mod checks;
#[cfg(test)]
mod commands;
#[cfg(test)]
mod modules;
#[cfg(test)]
mod runs;
#[cfg(test)]
mod strands;
