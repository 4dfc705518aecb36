ghost use Rattle.std.specs.Prelude.{◌≡◌, IfOk};
ghost use Rattle.npa_sig.specs.Values.{under};
ghost use Rattle.npa_rewrite.specs.Innermost.{normalized};
ghost use Rattle.npa_rewrite.specs.Rewriting.{AllCancel};

use npa_list::List;
use npa_rewrite::{Theory, normal_form};
use npa_term::{NoMemory, Term, copy};
use std::alloc::Global;

/// The normal form of a message under the values of an instance's parameters: the value at place
/// `k` stands for the variable number `k`. It may have any size.
pub fn message(alloc: Global, th: &Theory, values: &[Term], t: &Term) -> Result<Term, NoMemory>
    requires cancelling { AllCancel th.now }
    ensures { IfOk result (λ u. u ≡ normalized th.now (under values.now t.now)) }
{
    normal_form(alloc, th, &under(alloc, values, t)?)
}

// The term with the values in the places of its variables.
fn under(alloc: Global, values: &[Term], t: &Term) -> Result<Term, NoMemory>
    ensures { IfOk result (λ u. u ≡ under values.now t.now) }
{
    match t {
        Term::Var(v) => match values.get(v.num as usize) {
            Some(value) => copy(alloc, value),
            None => Ok(Term::Var(*v)),
        },
        Term::Name(n) => Ok(Term::Name(*n)),
        Term::App(op, args) => {
            let mut made = Vec::with_capacity(alloc, args.len())?;
            for arg in args.as_slice() {
                made.push(under(alloc, values, arg)?)?;
            }
            Ok(Term::App(*op, List::from_vec(made)))
        }
    }
}
