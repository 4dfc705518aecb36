ghost use Rattle.std.specs.Prelude.{◌≡◌, ◌+◌, ◌++◌, ◌∷◌, ◌<◌, ◌^◌, [], Ok, length, IfOk};
ghost use Rattle.npa_variants.specs.Told.{AreDistinct};
ghost use Rattle.npa_moves.specs.Finishing.{draft_of, excess};
ghost use Rattle.npa_moves.specs.Gathering.{unless_large};
ghost use Rattle.npa_moves.specs.Moves.{each_with};
ghost use Rattle.npa_moves.specs.Steps.{Gives};
ghost use Rattle.npa_drafts.specs.Drafts.{numbered_of, results_of};

use crate::drafting::{draw, keeps_apart};
use crate::measuring::excess;
use crate::numbering::{Numbered, number_anew};
use npa_list::List;
use npa_model::Pattern;
use npa_moves::StepFail;
use npa_term::{NoMemory, Subst, Term, Var};
use std::alloc::Global;

/// The results of a move by these unifiers, in their order: a unifier that makes the message equal to an
/// unknown fact is left out, and each other result is measured and then numbered anew. `at` is the number
/// that the first result has; `Large` tells of the first that is past a limit, by its number.
pub fn results_by(
    alloc: Global,
    vars: &[Var],
    from: &Pattern,
    message: &Term,
    unknown: &[Term],
    unifiers: &[Subst],
    at: u64,
) -> Result<List<Numbered>, StepFail>
    requires once { AreDistinct vars.now }
    requires room { at + length unifiers.now < 2 ^ 64 }
    ensures { Gives result (results_of vars.now from.now (each_with message.now unknown.now) at unifiers.now) }
{
    let mut made = List::new(alloc);
    for s in unifiers {
        if keeps_apart(alloc, message, unknown, s)? {
            made = with_result(alloc, vars, from, s, at, made)?;
        }
    }
    Ok(made)
}

// Adds the result by one unifier.
fn with_result(
    alloc: Global,
    vars: &[Var],
    from: &Pattern,
    s: &Subst,
    at: u64,
    made: List<Numbered>,
) -> Result<List<Numbered>, StepFail>
    requires once { AreDistinct vars.now }
    requires room { at + length made < 2 ^ 64 }
    ensures { Gives result (unless_large (at + length made) (excess (draft_of vars.now from.now s.now).pattern)
        (Ok (made ++ numbered_of vars.now (draft_of vars.now from.now s.now) ∷ []))) }
{
    let d = draw(alloc, vars, from, s)?;
    if let Some((measure, value)) = excess(&d.pattern) {
        let rule = at + made.len() as u64;
        return Err(StepFail::Large {
            rule,
            measure,
            value,
        });
    }
    let one = number_anew(alloc, vars, &d)?;
    Ok(with_one(made, one)?)
}

fn with_one(made: List<Numbered>, one: Numbered) -> Result<List<Numbered>, NoMemory>
    ensures { IfOk result (λ more. more ≡ made ++ one ∷ []) }
{
    let mut made = made;
    made.push(one)?;
    Ok(made)
}
