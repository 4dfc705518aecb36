ghost use Rattle.std.specs.Prelude.{◌≡◌, map, IfOk};
ghost use Rattle.npa_term.specs.declared.term.Term.{Var as VarTree};
ghost use Rattle.npa_moves.specs.Finishing.{draft_of, instance_of, keeps_apart};
ghost use Rattle.npa_moves.specs.Moves.{each_with};
ghost use Rattle.npa_drafts.specs.Drafts.{as_draft};

use crate::instances::{fact_instances, strand_instances};
use npa_list::List;
use npa_model::Pattern;
use npa_term::{NoMemory, Subst, Term, Terms, Var, equals, instance, replace};
use std::alloc::Global;

/// An earlier pattern under a unifier, and the values that the unifier has for some variables, before
/// they are numbered anew.
#[derive(Debug, Drop)]
pub struct Draft {
    pub pattern: Pattern,
    pub values: Terms,
}

/// Whether a unifier makes none of the facts equal to a message, up to the order of commutative arguments.
/// A step whose message becomes equal to an unknown fact is left out.
pub fn keeps_apart(
    alloc: Global,
    message: &Term,
    facts: &[Term],
    s: &Subst,
) -> Result<bool, NoMemory>
    ensures { IfOk result (λ kept. kept ≡ keeps_apart (each_with message.now facts.now) s.now) }
{
    let sent = replace(alloc, s, message)?;
    for fact in facts {
        let made = replace(alloc, s, fact)?;
        if equals(&made, &sent) {
            return Ok(false);
        }
    }
    Ok(true)
}

/// A pattern under a unifier, each term canonical and of equal facts the first alone, and the unifier's
/// values for these variables.
pub fn draw(alloc: Global, vars: &[Var], from: &Pattern, s: &Subst) -> Result<Draft, NoMemory>
    ensures { IfOk result (λ d. as_draft d ≡ draft_of vars.now from.now s.now) }
{
    let pattern = Pattern {
        strands: strand_instances(alloc, s, from.strands.as_slice())?,
        known: fact_instances(alloc, s, from.known.as_slice())?,
        unknown: fact_instances(alloc, s, from.unknown.as_slice())?,
    };
    Ok(Draft {
        pattern,
        values: values(alloc, s, vars)?,
    })
}

fn values(alloc: Global, s: &Subst, vars: &[Var]) -> Result<Terms, NoMemory>
    ensures { IfOk result (λ made. made ≡ map (λ v. instance_of s.now (VarTree v)) vars.now) }
{
    let mut made = Vec::with_capacity(alloc, vars.len())?;
    for v in vars {
        made.push(instance(alloc, s, &Term::Var(*v))?)?;
    }
    Ok(List::from_vec(made))
}
