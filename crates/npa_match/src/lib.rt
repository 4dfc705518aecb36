//! Matching modulo commutativity: the substitutions that send terms to given terms, up to the order
//! of the arguments of commutative operators.
#![tactic(auto)]

mod error;
mod extension;
mod laws;
mod matchers;
mod matching;
mod search;
mod shape;

pub use error::MatchFail;
pub use extension::{Bindings, extend, match_once};
pub use laws::{matcher_laws, part_laws, test_laws};
pub use matchers::Matchers;
pub use matching::{MAX_MATCHERS, find, find_match, has_match, matches};
