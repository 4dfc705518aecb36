ghost use Rattle.std.specs.Prelude.{◌≡◌, IfOk};
ghost use Rattle.npa_variants.specs.Told.{AreDistinct};
ghost use Rattle.npa_moves.specs.Steps.{pattern_once};

use crate::numbering::pattern_terms;
use npa_model::Pattern;
use npa_term::{NoMemory, Var, numbering};
use std::alloc::Global;

/// The variables of a pattern, each once, in the order in which they first occur.
pub fn variables_once(alloc: Global, g: &Pattern) -> Result<Vec<Var>, NoMemory>
    ensures variables { IfOk result (λ vars. vars.items ≡ pattern_once g.now) }
    ensures once { IfOk result (λ vars. AreDistinct vars.items) }
{
    let terms = pattern_terms(alloc, g)?;
    let numbers = numbering(alloc, terms.as_slice())?;
    let mut vars = Vec::new(alloc);
    for (v, _) in numbers.as_slice() {
        vars.push(*v)?;
    }
    Ok(vars)
}
