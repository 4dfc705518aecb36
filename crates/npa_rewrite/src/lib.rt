//! Rewriting by equations modulo commutativity: single steps and normal forms.
#![tactic(auto)]

mod cancelling;
mod laws;
mod reduction;
mod step;
mod theory;

pub use cancelling::{all_cancel, is_cancelling};
pub use laws::{
    convergence_laws, instance_laws, normal_laws, normalizing_laws, signature_laws, step_laws,
};
pub use reduction::{is_normal, normal_form, reduce};
pub use theory::Theory;
