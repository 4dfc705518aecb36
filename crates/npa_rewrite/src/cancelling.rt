ghost use Rattle.std.specs.Prelude.{◌↔◌, IsTrue, Contains};
ghost use Rattle.npa_term.specs.Variables.{variables};
ghost use Rattle.npa_rewrite.specs.Rewriting.{AllCancel, IsCancelling};

use crate::theory::Theory;
use npa_sig::Equation;
use npa_sorts::Sorts;
use npa_term::{Term, Var};

/// Whether all equations of the theory cancel. It takes no memory.
pub fn all_cancel(th: &Theory) -> bool
    ensures { IsTrue result ↔ AllCancel th.now }
{
    let sorts = th.sig.sorts();
    for equation in th.equations.as_slice() {
        if !is_cancelling(sorts, equation) {
            return false;
        }
    }
    true
}

/// Whether an equation cancels: its left side isn't a variable, and its right side is a variable
/// that occurs in it, of a sort at or below the left side's. It takes no memory.
pub fn is_cancelling(sorts: &Sorts, equation: &Equation) -> bool
    ensures { IsTrue result ↔ IsCancelling sorts.now equation.now }
{
    match (&equation.left, &equation.right) {
        (Term::App(op, _), Term::Var(v)) => {
            sorts.le(v.sort, op.result) && occurs(*v, &equation.left)
        }
        _ => false,
    }
}

// Whether a variable occurs in a term.
fn occurs(v: Var, t: &Term) -> bool
    ensures { IsTrue result ↔ Contains (variables t.now) v }
{
    match t {
        Term::Var(w) => *w == v,
        Term::Name(_) => false,
        Term::App(_, args) => {
            for arg in args.as_slice() {
                if occurs(v, arg) {
                    return true;
                }
            }
            false
        }
    }
}
