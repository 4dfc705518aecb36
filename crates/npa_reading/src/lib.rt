//! What every reader of a text does with its syntax trees: it looks up nodes, words and terms in them,
//! and answers what it read or the first refusal, in the order of the text.
#![tactic(auto)]

mod trees;

pub use trees::{
    after, all_with, below, child_for, first_token, has, listed, raw_below, word_at, word_of,
};
