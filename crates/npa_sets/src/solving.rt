ghost use Rattle.std.specs.Prelude.{◌≡◌, ◌∷◌, ◌++◌, [], false, Contains, IfOk, List as ListOf};
ghost use Rattle.npa_term.specs.declared.term.Term.{Term as Tree};
ghost use Rattle.npa_unify.specs.Seen.{AreNeverEqual};
ghost use Rattle.npa_variants.specs.Told.{seen};
ghost use Rattle.npa_moves.specs.Moves.{each_with};
ghost use Rattle.npa_moves.specs.Steps.{solve_over};
ghost use Rattle.npa_sets.specs.Sets.{IsLow};
ghost use Rattle.npa_sets.specs.Told.{AreCut, GivesUnifiers};

use npa_list::List;
use npa_sorts::Sorts;
use npa_term::{NoMemory, Substs, Term, TermPairs, copy};
use npa_unify::{UnifyFail, are_fit, unify};
use std::alloc::Global;

/// Facts, and a message that may make some of them known. All variables have numbers below `next`.
#[derive(Clone, Copy)]
pub(crate) struct Problem<'a> {
    pub(crate) sorts: &'a Sorts,
    pub(crate) facts: &'a [Term],
    pub(crate) message: &'a Term,
    pub(crate) next: u32,
}

/// The unifiers of facts that are taken, and one more, with the message. Most have none by the operators
/// of the last, and for these nothing is made. A problem that leaves no room for the numbers of new
/// variables counts as want of memory.
pub(crate) fn unifiers_with(
    alloc: Global,
    problem: &Problem<'_>,
    taken: &[&Term],
    fact: &Term,
) -> Result<Substs, UnifyFail>
    requires message { IsLow problem.now.next problem.now.message.now }
    requires taken { (t : Tree) → Contains (seen taken.now) t → IsLow problem.now.next t }
    requires fact { IsLow problem.now.next fact.now }
    ensures gives { GivesUnifiers result (solve_over problem.now.sorts.now problem.now.next
        (each_with problem.now.message.now (seen taken.now ++ fact.now ∷ []))) }
    ensures cut { IfOk result (λ ss. ss ≡ [] → AreCut problem.now.sorts.now problem.now.next
        problem.now.message.now (seen taken.now ++ fact.now ∷ [])) }
{
    problem.sorts.laws();
    let _pairs = problem.sorts.pairs();
    if !may_unify(fact, problem.message) {
        return Ok(List::new(alloc));
    }
    let pairs = pairs_with(alloc, problem.message, taken, fact)?;
    if !are_fit(alloc, problem.sorts, &pairs, problem.next)? {
        return Err(UnifyFail::NoMemory);
    }
    unify(alloc, problem.sorts, &pairs, problem.next)
}

// Each of the facts with the message.
fn pairs_with(
    alloc: Global,
    message: &Term,
    taken: &[&Term],
    fact: &Term,
) -> Result<TermPairs, NoMemory>
    ensures { IfOk result (λ pairs. pairs ≡ each_with message.now (seen taken.now ++ fact.now ∷ [])) }
{
    let mut pairs = List::new(alloc);
    for t in taken {
        pairs.push((copy(alloc, t)?, copy(alloc, message)?))?;
    }
    pairs.push((copy(alloc, fact)?, copy(alloc, message)?))?;
    Ok(pairs)
}

// Whether two terms aren't applications of different operators.
fn may_unify(t: &Term, u: &Term) -> bool
    ensures { result ≡ false → AreNeverEqual t.now u.now }
{
    match (t, u) {
        (Term::App(f, _), Term::App(g, _)) => *f == *g,
        _ => true,
    }
}
