//! Laws of what isn't accepted. The function does nothing: its clauses are the laws, for the proofs
//! of the crates above.

ghost use Rattle.std.specs.Prelude.{◌≡◌, ◌↔◌, None, Option, List, Contains};
ghost use Rattle.npa_term.specs.declared.term.Term.{Term};
ghost use Rattle.npa_term.specs.Parts.{IsPart};
ghost use Rattle.npa_rewrite.specs.declared.theory.Theory.{Theory};
ghost use Rattle.npa_rewrite.specs.Accepted.{IsAcceptedTerm};
ghost use Rattle.npa_accept.specs.declared.accepted.Unaccepted.{Unaccepted as Found};
ghost use Rattle.npa_accept.specs.Parts.{parts};
ghost use Rattle.npa_accept.specs.Unaccepted.{IsFirst};

/// A list of terms has one first unaccepted term at most. The list of the parts of a term has just
/// these, and none of them is unaccepted exactly where the term is accepted.
pub fn accepted_laws()
    ensures one { (th : Theory) (us : List Term) (f g : Option Found) → IsFirst th us f
        → IsFirst th us g → f ≡ g }
    ensures parts { (t u : Term) → Contains (parts t) u ↔ IsPart u t }
    ensures none { (th : Theory) (t : Term) → IsFirst th (parts t) None ↔ IsAcceptedTerm th t }
{}
