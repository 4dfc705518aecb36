ghost use Rattle.std.specs.Prelude.{◌≡◌, ◌<◌, ◌↔◌, ◌++◌, flat_map, Contains, IsTrue, IfOk, OnOk};
ghost use Rattle.npa_sorts.specs.Subsorts.{IsSort};
ghost use Rattle.npa_term.specs.Variables.{variables};
ghost use Rattle.npa_term.specs.declared.term.Var.{Var as Variable};
ghost use Rattle.npa_unify.specs.Branches.{pair_variables};
ghost use Rattle.npa_unify.specs.Unifiers.{AreFit};

use npa_sorts::Sorts;
use npa_term::{NoMemory, Term, TermPair, TermPairs, Var};
use std::alloc::Global;

// The greatest number from which new variables may be numbered.
const MAX_NEXT: u32 = 2147483648;

/// Whether unification may be asked for these pairs with new variables numbered from `next`. The
/// time is quadratic in the number of variables.
pub fn are_fit(alloc: Global, sorts: &Sorts, pairs: &TermPairs, next: u32) -> Result<bool, NoMemory>
    ensures { IfOk result (λ fit. IsTrue fit ↔ AreFit sorts.now pairs.now next) }
{
    let found = variables_of_pairs(alloc, pairs.as_slice())?;
    let vars = found.as_slice();
    if next > MAX_NEXT || !are_low(sorts, vars, next) {
        return Ok(false);
    }
    Ok(have_one_sort(vars))
}

// The variables of pairs, one for each occurrence.
fn variables_of_pairs(alloc: Global, pairs: &[TermPair]) -> Result<Vec<Var>, NoMemory>
    ensures { IfOk result (λ vars. vars.items ≡ pair_variables pairs.now) }
{
    let mut vars = Vec::new(alloc);
    for (t, u) in pairs {
        add_variables(&mut vars, t)?;
        add_variables(&mut vars, u)?;
    }
    Ok(vars)
}

// Adds the variables of a term.
#[cycle(variables)]
#[tactic(auto, using(npa_term::proofs::Rows::variables_at))]
fn add_variables(vars: &mut Vec<Var>, t: &Term) -> Result<(), NoMemory>
    ensures { OnOk result (vars.new.items ≡ vars.old.items ++ variables t.now) }
{
    match t {
        Term::Var(v) => vars.push(*v)?,
        Term::Name(_) => {}
        Term::App(_, args) => add_all_variables(vars, args.as_slice())?,
    }
    Ok(())
}

// Adds the variables of several terms.
#[cycle(variables)]
fn add_all_variables(vars: &mut Vec<Var>, ts: &[Term]) -> Result<(), NoMemory>
    ensures { OnOk result (vars.new.items ≡ vars.old.items ++ flat_map variables ts.now) }
{
    for t in ts {
        add_variables(vars, t)?;
    }
    Ok(())
}

// Whether variables are of sorts and have numbers below `next`.
fn are_low(sorts: &Sorts, vars: &[Var], next: u32) -> bool
    ensures { IsTrue result ↔ ((v : Variable) → Contains vars.now v
        → IsSort sorts.now v.sort × (v.num < next)) }
{
    for v in vars {
        if !is_low(sorts, *v, next) {
            return false;
        }
    }
    true
}

// Whether a variable is of a sort and has a number below `next`.
fn is_low(sorts: &Sorts, v: Var, next: u32) -> bool
    ensures { IsTrue result ↔ (IsSort sorts.now v.sort × (v.num < next)) }
{
    (v.sort as u32) < sorts.declared() as u32 + 2 && v.num < next
}

// Whether no number stands with two sorts.
fn have_one_sort(vars: &[Var]) -> bool
    ensures { IsTrue result ↔ ((v : Variable) → Contains vars.now v
        → (w : Variable) → Contains vars.now w → v.num ≡ w.num → v ≡ w) }
{
    for v in vars {
        if !has_one_sort(*v, vars) {
            return false;
        }
    }
    true
}

// Whether the number of a variable stands with no other sort.
fn has_one_sort(v: Var, vars: &[Var]) -> bool
    ensures { IsTrue result ↔ ((w : Variable) → Contains vars.now w → v.num ≡ w.num → v ≡ w) }
{
    for w in vars {
        if !is_apart(v, *w) {
            return false;
        }
    }
    true
}

// Whether two variables of one number are the same.
fn is_apart(v: Var, w: Var) -> bool
    ensures { IsTrue result ↔ (v.num ≡ w.num → v ≡ w) }
{
    v.num != w.num || v.sort == w.sort
}
