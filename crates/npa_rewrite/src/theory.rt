ghost use Rattle.std.specs.Prelude.{◌≡◌, IfOk};
ghost use Rattle.npa_rewrite.specs.Theories.{theory_of};

use npa_sig::{Equations, Protocol, Sig, copy_equations};
use npa_term::NoMemory;
use std::alloc::Global;

/// Operators and the equations between their terms, each used from left to right (Baader,
/// Nipkow 1998).
#[derive(Debug, Drop)]
pub struct Theory {
    pub sig: Sig,
    pub equations: Equations,
}

impl Theory {
    /// The theory of a protocol: copies of its signature and its equations. It takes memory for
    /// both.
    pub fn of(alloc: Global, protocol: &Protocol) -> Result<Theory, NoMemory>
        ensures theory { IfOk result (λ th. th ≡ theory_of protocol.now) }
        ensures sig { IfOk result (λ th. th.sig ≡ protocol.now.sig) }
        ensures equations { IfOk result (λ th. th.equations ≡ protocol.now.equations) }
    {
        Ok(Theory {
            sig: protocol.sig.copy(alloc).map_err(|_| NoMemory)?,
            equations: copy_equations(alloc, protocol.equations.as_slice())?,
        })
    }
}
