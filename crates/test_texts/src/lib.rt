//! Tests of lists, tables of names, grammars, tokens, files and printed numbers.
#![tactic(auto)]

#[cfg(test)]
mod lists;
#[cfg(test)]
mod parsing;
#[cfg(test)]
mod syntax;
#[cfg(test)]
mod texts;
