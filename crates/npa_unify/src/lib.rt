//! Unification modulo commutativity with ordered sorts: the substitutions that make pairs of terms
//! equal up to the order of the arguments of commutative operators.
#![tactic(auto)]

mod bindings;
mod clashes;
mod error;
mod fitting;
mod heads;
mod laws;
mod occurrences;
mod order;
mod search;
mod sizes;
mod substs;
mod unifying;

pub use error::UnifyFail;
pub use fitting::are_fit;
pub use laws::{search_laws, unifier_laws};
pub use unifying::{MAX_UNIFIERS, unifiable, unify};
