//! Laws of the tests that compute. The function does nothing: its clauses are the laws, for the
//! proofs of the crates above.

ghost use Rattle.std.specs.Prelude.{◌↔◌, IsTrue};
ghost use Rattle.npa_sorts.specs.Subsorts.{Subsorts};
ghost use Rattle.npa_model.specs.declared.pattern.Pattern.{Pattern};
ghost use Rattle.npa_model.specs.Covering.{Covers};
ghost use Rattle.npa_model.specs.Patterns.{IsInitial};
ghost use Rattle.npa_subsume.specs.Testing.{covers_test, initial_test};

/// The tests say what the relations say, so the test of covers is a preorder, and what covers an
/// initial pattern is initial, over any sorts.
pub fn covering_laws()
    ensures exact { (o : Subsorts) (t s : Pattern) → IsTrue (covers_test o t s) ↔ Covers o t s }
    ensures initial { (g : Pattern) → IsTrue (initial_test g) ↔ IsInitial g }
    ensures reflexive { (o : Subsorts) (t : Pattern) → IsTrue (covers_test o t t) }
    ensures transitive { (o : Subsorts) (t s r : Pattern) → IsTrue (covers_test o t s)
        → IsTrue (covers_test o s r) → IsTrue (covers_test o t r) }
    ensures starts { (o : Subsorts) (t s : Pattern) → IsTrue (covers_test o t s)
        → IsTrue (initial_test s) → IsTrue (initial_test t) }
{}
