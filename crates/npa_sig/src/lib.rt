//! Signatures and protocols: the sorts and operators of a module, the terms that are well sorted for them,
//! what a term of a text means, and how a term is printed.
#![tactic(auto)]

mod copying;
mod fault;
mod least;
mod meaning;
mod nameless;
mod printing;
mod protocol;
mod scope;
mod signature;
mod sort_numbers;
mod sorting;

pub use fault::{GroundFault, LeastFail, SigFail, UseFail};
pub use least::MAX_GROUND;
pub use meaning::{Scoped, resolve, sort_at};
pub use npa_sorts::{FRESH, MSG, SortNums};
pub use printing::print_term;
pub use protocol::{Equation, Equations, Event, Events, Protocol, Strand, Strands, copy_equations};
pub use scope::Scope;
pub use signature::{OpDecl, OpDecls, Sig};
pub use sort_numbers::{all_name_sorts, names_sorts};
