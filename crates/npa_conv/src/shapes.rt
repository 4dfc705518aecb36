ghost use Rattle.std.specs.Prelude.{◌≡◌, ◌<◌, length};
ghost use Rattle.npa_term.specs.Variables.{variables};
ghost use Rattle.npa_unify.specs.Branches.{has_var};
ghost use Rattle.npa_conv.specs.Verdict.{Tells, are_shaped, first_at, is_app, shape_fault};

use crate::error::ConvFail;
use npa_rewrite::Theory;
use npa_sig::Equation;
use npa_sorts::Sorts;
use npa_term::{Term, Var, sort_of};

/// Refuses the first equation that doesn't cancel. It takes no memory.
pub(crate) fn check_shapes(th: &Theory) -> Result<(), ConvFail>
    requires few { length th.now.equations < 65535 }
    ensures { Tells result (first_at (shape_fault th.now.sig.sorts) 0 th.now.equations) }
{
    let sorts = th.sig.sorts();
    let equations = th.equations.as_slice();
    for at in 0..equations.len() {
        check_shape(sorts, at as u16, &equations[at])?;
    }
    Ok(())
}

// Refuses an equation that doesn't cancel.
fn check_shape(sorts: &Sorts, at: u16, equation: &Equation) -> Result<(), ConvFail>
    ensures { Tells result (shape_fault sorts.now at equation.now) }
{
    if !are_shaped(&equation.left, &equation.right) {
        return Err(ConvFail::Shape(at));
    }
    if !sorts.le(sort_of(&equation.right), sort_of(&equation.left)) {
        return Err(ConvFail::SortUp(at));
    }
    Ok(())
}

// Whether the left side is an application and the right side a variable that occurs in it.
fn are_shaped(left: &Term, right: &Term) -> bool
    ensures { result ≡ are_shaped left.now right.now }
{
    match right {
        Term::Var(v) => is_app(left) && occurs(*v, left),
        Term::Name(_) => false,
        Term::App(_, _) => false,
    }
}

// Whether a term is an application.
fn is_app(t: &Term) -> bool
    ensures { result ≡ is_app t.now }
{
    match t {
        Term::Var(_) => false,
        Term::Name(_) => false,
        Term::App(_, _) => true,
    }
}

// Whether a variable occurs in a term.
#[tactic(auto, using(npa_term::proofs::Rows::variables_at, crate::proofs::Occurrences::has_var_step))]
fn occurs(v: Var, t: &Term) -> bool
    ensures { result ≡ has_var (variables t.now) v }
{
    match t {
        Term::Var(w) => *w == v,
        Term::Name(_) => false,
        Term::App(_, args) => {
            for arg in args.as_slice() {
                if occurs(v, arg) {
                    return true;
                }
            }
            false
        }
    }
}
