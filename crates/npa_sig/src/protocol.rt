ghost use Rattle.std.specs.Prelude.{◌≡◌, IfOk};

use crate::signature::Sig;
use npa_list::List;
use npa_sorts::SortNums;
use npa_term::{NoMemory, Term, copy};
use npa_text::{Name, Names};
use std::alloc::Global;

/// An equation of a theory, used from left to right.
#[derive(Debug, Drop)]
pub struct Equation {
    pub left: Term,
    pub right: Term,
}

impl Equation {
    /// The same equation. It takes memory for both sides.
    pub fn copy(&self, alloc: Global) -> Result<Equation, NoMemory>
        ensures { IfOk result (λ copy. copy ≡ self.now) }
    {
        Ok(Equation {
            left: copy(alloc, &self.left)?,
            right: copy(alloc, &self.right)?,
        })
    }
}

/// A list of equations, in the order of the module.
pub type Equations = List<Equation>;

/// A copy of equations, in the same order. It takes memory for each of them.
pub fn copy_equations(alloc: Global, equations: &[Equation]) -> Result<Equations, NoMemory>
    ensures { IfOk result (λ copies. copies ≡ equations.now) }
{
    let mut copies = Vec::with_capacity(alloc, equations.len())?;
    for equation in equations {
        copies.push(equation.copy(alloc)?)?;
    }
    Ok(List::from_vec(copies))
}

/// An event of a strand: a message that it sends, or one that it receives.
#[derive(Debug, Drop)]
pub struct Event {
    pub sent: bool,
    pub msg: Term,
}

/// The events of a strand, in their order.
pub type Events = List<Event>;

/// A strand: a role of the protocol or an ability of the intruder, as the list of the messages
/// that it sends and receives (Thayer, Herzog, Guttman 1999). Its parameters are its variables
/// in order, followed by its fresh values; the parameter at place `k` is the variable number `k`.
#[derive(Debug, Drop)]
pub struct Strand {
    pub name: Name,
    /// A label: an intruder's strand runs as an honest one does.
    pub intruder: bool,
    /// The sorts of its variables.
    pub vars: SortNums,
    /// How many fresh values it has.
    pub fresh: u16,
    /// The names of its parameters.
    pub names: Names,
    pub events: Events,
}

/// The strands of a protocol, honest ones and the intruder's, in the order of the module.
pub type Strands = List<Strand>;

/// A protocol: its operators, its equations and its strands.
#[derive(Debug, Drop)]
pub struct Protocol {
    pub sig: Sig,
    pub equations: Equations,
    pub strands: Strands,
}
