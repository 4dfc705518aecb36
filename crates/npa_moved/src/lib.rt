//! What comes of moves: the patterns of roots and backward steps fit the protocol again, and each is
//! what its own unifier makes (Escobar, Meadows, Meseguer 2009, on the soundness of the backwards search).
#![tactic(auto)]

mod laws;

pub use laws::{fit_laws, sound_root_laws, sound_step_laws};
