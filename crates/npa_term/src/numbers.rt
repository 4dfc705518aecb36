ghost use Rattle.std.specs.Prelude.{◌≡◌, [], ◌∷◌, flat_map, map, IfOk, OnOk};
ghost use Rattle.npa_term.specs.Bound.{applied};
ghost use Rattle.npa_term.specs.Canonical.{canonical};
ghost use Rattle.npa_term.specs.Numbering.{
  is_listed,
  once_after,
  numbered,
  numbering as numbering_of,
  renumbered,
};
ghost use Rattle.npa_term.specs.Variables.{variables};

use crate::error::NoMemory;
use crate::instances::instance;
use crate::subst::{Binding, Subst};
use crate::term::{Term, Terms, Var};
use npa_list::List;
use std::alloc::Global;

/// The substitution that numbers the variables of terms anew, from 0 in the order in which they
/// first occur in the terms; each keeps its sort. 2^32 variables and more count as want of memory.
pub fn numbering(alloc: Global, ts: &[Term]) -> Result<Subst, NoMemory>
    ensures { IfOk result (λ s. s ≡ numbering_of ts.now) }
{
    let mut seen = Vec::new(alloc);
    add_variables_of(&mut seen, ts)?;
    let bindings = number(alloc, seen.as_slice())?;
    Ok(Subst::from_bindings(bindings))
}

/// The terms with their variables numbered anew by `numbering`, each canonical.
pub fn renumber(alloc: Global, ts: &[Term]) -> Result<Terms, NoMemory>
    ensures { IfOk result (λ us. us ≡ renumbered ts.now) }
{
    let numbers = numbering(alloc, ts)?;
    instances(alloc, &numbers, ts)
}

// The instances of terms, each canonical.
fn instances(alloc: Global, s: &Subst, ts: &[Term]) -> Result<Terms, NoMemory>
    ensures { IfOk result (λ us. us ≡ map (λ t. canonical (applied s.now t)) ts.now) }
{
    let mut made = Vec::with_capacity(alloc, ts.len())?;
    for t in ts {
        made.push(instance(alloc, s, t)?)?;
    }
    Ok(List::from_vec(made))
}

// The variables, each bound to the one with the number of its place.
fn number(alloc: Global, vars: &[Var]) -> Result<Vec<Binding>, NoMemory>
    ensures { IfOk result (λ bindings. bindings.items ≡ numbered 0 vars.now) }
{
    let mut bindings = Vec::with_capacity(alloc, vars.len())?;
    for i in 0..vars.len() {
        let Ok(num) = u32::try_from(i) else {
            return Err(NoMemory);
        };
        let var = vars[i];
        let numbered = Var {
            num,
            sort: var.sort,
        };
        bindings.push((var, Term::Var(numbered)))?;
    }
    Ok(bindings)
}

// Adds the variables of a term that weren't seen yet.
#[cycle(numbers)]
fn add_variables(seen: &mut Vec<Var>, t: &Term) -> Result<(), NoMemory>
    ensures { OnOk result (seen.new.items ≡ once_after seen.old.items (variables t.now)) }
{
    match t {
        Term::Var(v) => add_variable(seen, *v),
        Term::Name(_) => Ok(()),
        Term::App(_, args) => add_variables_of(seen, args.as_slice()),
    }
}

#[cycle(numbers)]
fn add_variables_of(seen: &mut Vec<Var>, ts: &[Term]) -> Result<(), NoMemory>
    ensures { OnOk result
        (seen.new.items ≡ once_after seen.old.items (flat_map variables ts.now)) }
{
    for t in ts {
        add_variables(seen, t)?;
    }
    Ok(())
}

fn add_variable(seen: &mut Vec<Var>, v: Var) -> Result<(), NoMemory>
    ensures { OnOk result (seen.new.items ≡ once_after seen.old.items (v ∷ [])) }
{
    if !is_among(seen.as_slice(), v) {
        seen.push(v)?;
    }
    Ok(())
}

fn is_among(vars: &[Var], v: Var) -> bool
    ensures { result ≡ is_listed vars.now v }
{
    for var in vars {
        if *var == v {
            return true;
        }
    }
    false
}
