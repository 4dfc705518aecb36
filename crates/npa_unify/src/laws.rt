//! Laws of the notions that the contracts speak of. Each function does nothing: its clauses are
//! the laws, for the proofs of the crates above.

ghost use Rattle.npa_unify.specs.Laws.{Unfolds, AreAnswers, AreComplete, NoneIsNone, AreKept};

/// The search ends: what a branch visits is the branch, and then what the branches visit that it
/// becomes.
pub fn search_laws()
    ensures unfolds { Unfolds }
{}

/// The unifiers of the list are answers and complete, and there are none exactly where no
/// substitution unifies the pairs. A test that instances keep holds of their values where it holds
/// of the members of the pairs.
pub fn unifier_laws()
    ensures answers { AreAnswers }
    ensures complete { AreComplete }
    ensures none { NoneIsNone }
    ensures kept { AreKept }
{}
