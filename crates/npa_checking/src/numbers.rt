ghost use Rattle.std.specs.Prelude.{◌≡◌, IfOk};
ghost use Rattle.npa_checking.specs.Lines.{line_numbers};

use npa_term::{NoMemory, Subst, Term, Var, numbering};
use std::alloc::Global;

/// The substitution that numbers the variables in the terms of a line, from 1 in the order in which they
/// first occur.
pub(crate) fn line_numbers(alloc: Global, terms: &[Term]) -> Result<Subst, NoMemory>
    ensures { IfOk result (λ numbers. numbers ≡ line_numbers terms.now) }
{
    let from_zero = numbering(alloc, terms)?;
    let bindings = from_zero.as_slice();
    let mut numbers = Subst::new(alloc);
    for i in 0..bindings.len() {
        let Ok(num) = u32::try_from(i + 1) else {
            return Err(NoMemory);
        };
        let var = bindings[i].0;
        numbers.bind(
            var,
            Term::Var(Var {
                num,
                sort: var.sort,
            }),
        )?;
    }
    Ok(numbers)
}
