//! Laws of the notions that the contracts speak of. Each function does nothing: its clauses are
//! the laws, for the proofs of the crates above.

ghost use Rattle.std.specs.Prelude.{◌≡◌, ◌↔◌, ℕ, List, Some, Contains, IsTrue};
ghost use Rattle.npa_sorts.specs.Subsorts.{Subsorts, IsAtOrBelow, at_or_below};
ghost use Rattle.npa_term.specs.declared.term.Op.{Op};
ghost use Rattle.npa_term.specs.declared.term.Term.{Term};
ghost use Rattle.npa_term.specs.declared.term.Var.{Var as Variable};
ghost use Rattle.npa_term.specs.Agreeing.{Agrees, ValuesAgree};
ghost use Rattle.npa_term.specs.Bound.{applied, value_of};
ghost use Rattle.npa_term.specs.Canonical.{canonical};
ghost use Rattle.npa_term.specs.Computed.{is_same};
ghost use Rattle.npa_term.specs.Parts.{IsPart};
ghost use Rattle.npa_term.specs.Same.{Same};
ghost use Rattle.npa_term.specs.Variables.{IsGround};
ghost use Rattle.npa_match.specs.Matching.{AllSecond, IsMatcher};

/// The tests by which branches are defined say what the relations say.
pub fn test_laws()
    ensures same { (t u : Term) → IsTrue (is_same t u) ↔ Same t u }
    ensures below { (o : Subsorts) (s t : ℕ) → IsTrue (at_or_below o s t) ↔ IsAtOrBelow o s t }
{}

/// A part of a canonical term is canonical, one of a ground term is ground, and one of a term whose
/// operators agree with a declaration has such operators.
pub fn part_laws()
    ensures canonical { (t u : Term) → IsPart t u → canonical u ≡ u → canonical t ≡ t }
    ensures ground { (t u : Term) → IsPart t u → IsGround u → IsGround t }
    ensures agreeing { (decl : ℕ → Op) (t u : Term) → IsPart t u → Agrees decl u
        → Agrees decl t }
{}

/// What a matcher has where the members have it. Its values are canonical, ground, or of operators
/// that agree with a declaration where all second members are so. And where the operators of all
/// members agree with one declaration, the instance of a first member has the canonical form of the
/// second.
pub fn matcher_laws()
    ensures canonical { (o : Subsorts) (pairs : List (Term × Term)) (s : List (Variable × Term))
        → IsMatcher o pairs s → AllSecond (λ u. canonical u ≡ u) pairs
        → (v : Variable) (t : Term) → value_of s v ≡ Some t → canonical t ≡ t }
    ensures ground { (o : Subsorts) (pairs : List (Term × Term)) (s : List (Variable × Term))
        → IsMatcher o pairs s → AllSecond IsGround pairs
        → (v : Variable) (t : Term) → value_of s v ≡ Some t → IsGround t }
    ensures agreeing { (decl : ℕ → Op) (o : Subsorts) (pairs : List (Term × Term))
        (s : List (Variable × Term)) → IsMatcher o pairs s → AllSecond (Agrees decl) pairs
        → ValuesAgree decl s }
    ensures forms { (decl : ℕ → Op) (o : Subsorts) (pairs : List (Term × Term))
        (s : List (Variable × Term)) → IsMatcher o pairs s → AllSecond (Agrees decl) pairs
        → (t u : Term) → Contains pairs (t, u) → Agrees decl t
        → canonical (applied s t) ≡ canonical u }
{}
