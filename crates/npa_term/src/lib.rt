//! Terms over a signature with commutative operators: their order, equality modulo
//! commutativity, canonical forms, and substitutions.
#![tactic(auto)]

mod canonical;
mod commuted;
mod composition;
mod equal;
mod error;
mod instances;
mod laws;
mod numbers;
mod order;
mod renaming;
mod size;
mod subst;
mod term;

pub use canonical::{canon, sort_arguments};
pub use commuted::equals;
pub use composition::compose;
pub use equal::same;
pub use error::{NoMemory, TermFail};
pub use instances::{MAX_SYMBOLS, apply, instance, replace, symbols_under};
pub use laws::{
    canonical_laws, equality_cases, equality_laws, ground_laws, instance_laws, numbering_laws,
    order_laws, renaming_laws,
};
pub use numbers::{numbering, renumber};
pub use order::cmp;
pub use renaming::rename;
pub use size::symbols;
pub use subst::{Binding, Subst, Substs};
pub use term::{Op, Term, TermPair, TermPairs, Terms, Var, copy, copy_all, sort_of};
