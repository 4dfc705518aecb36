ghost use Rattle.std.specs.Prelude.{◌≡◌, [], ◌∷◌, ◌++◌, IfOk, OnOk, OnErr};
ghost use Rattle.std.specs.Option.{option_copied};
ghost use Rattle.npa_term.specs.Bound.{value_of, BindsOnce};

use crate::error::NoMemory;
use crate::term::{Term, Var, copy};
use npa_list::List;
use std::alloc::Global;
use std::marker::Model;

/// A variable with the term that stands for it.
pub type Binding = (Var, Term);

/// A substitution: the variables that it binds, each once and with its term, in the order in
/// which they were bound. Every other variable stands for itself.
#[derive(Debug, Drop)]
pub struct Subst {
    bindings: Vec<Binding>,
}

impl Model for Subst {
    ghost use Rattle.std.specs.Prelude.{List as ListOf};
    ghost use Rattle.npa_term.specs.declared.term.Var.{Var};
    ghost use Rattle.npa_term.specs.declared.term.Term.{Term};
    ghost use Rattle.npa_term.specs.contracts.term.Var as var;
    ghost use Rattle.npa_term.specs.contracts.term.Term as term;
    ghost use Rattle.std.specs.Coded.{coded_list, coded×};

    ghost Value = { ListOf (Var × Term) };

    ghost coded = { coded_list (coded× var.the_row.coded term.the_row.coded) };

    ghost use Rattle.npa_term.specs.Bound.{BindsOnce};

    ghost view = { λ s. s.bindings.items };

    ghost invariant = { λ s. BindsOnce s.bindings.items };
}

/// A list of substitutions.
pub type Substs = List<Subst>;

impl Subst {
    /// The substitution that binds nothing. It takes no memory.
    pub fn new(alloc: Global) -> Subst
        ensures { result ≡ [] }
    {
        Subst {
            bindings: Vec::new(alloc),
        }
    }

    /// Binds a variable that isn't bound yet, behind those that are. Where memory is wanting the
    /// substitution stays as it was and the term is dropped.
    pub fn bind(&mut self, v: Var, t: Term) -> Result<(), NoMemory>
        requires { value_of self.old v ≡ None }
        ensures ok { OnOk result (self.new ≡ self.old ++ (v, t) ∷ []) }
        ensures err { OnErr result (self.new ≡ self.old) }
    {
        self.bindings.push((v, t))?;
        Ok(())
    }

    /// The term of a variable: `None` exactly where the variable isn't bound.
    pub fn get(&self, v: Var) -> Option<&Term>
        ensures { option_copied result ≡ value_of self.now v }
    {
        for (bound, t) in &self.bindings {
            if *bound == v {
                return Some(t);
            }
        }
        None
    }

    /// The bindings, in the order in which they were made.
    pub fn as_slice(&self) -> &[Binding]
        ensures bindings { result.now ≡ self.now }
        ensures once { BindsOnce self.now }
    {
        self.bindings.as_slice()
    }

    /// A copy of the substitution, with the bindings in the same order.
    pub fn copy(&self, alloc: Global) -> Result<Subst, NoMemory>
        ensures { IfOk result (λ s. s ≡ self.now) }
    {
        let mut bindings = Vec::with_capacity(alloc, self.bindings.len())?;
        for (v, t) in &self.bindings {
            bindings.push((*v, copy(alloc, t)?))?;
        }
        Ok(Subst { bindings })
    }

    // The substitution with these bindings.
    pub(crate) fn from_bindings(bindings: Vec<Binding>) -> Subst
        requires { BindsOnce bindings.items }
        ensures { result ≡ bindings.items }
    {
        Subst { bindings }
    }
}
