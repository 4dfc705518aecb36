//! Laws of the notions that the contracts speak of. Each function does nothing: its clauses are
//! the laws, for the proofs of the crates above.

ghost use Rattle.std.specs.Prelude.{◌≡◌, ◌↔◌, ◌<◌, ℕ, List, [], map, flat_map, length, Contains};
ghost use Rattle.std.specs.Cmp.{IsTotalOrder};
ghost use Rattle.std.specs.declared.cmp.Ordering.TheVariants.{Equal};
ghost use Rattle.npa_term.specs.declared.term.Op.{Op};
ghost use Rattle.npa_term.specs.declared.term.Term.{Term, Var, Name, App};
ghost use Rattle.npa_term.specs.declared.term.Var.{Var as Variable};
ghost use Rattle.npa_term.specs.Agreeing.{Agrees, ValuesAgree};
ghost use Rattle.npa_term.specs.Bound.{applied, value_of};
ghost use Rattle.npa_term.specs.Canonical.{canonical};
ghost use Rattle.npa_term.specs.Numbering.{
  numbering,
  unnumbering,
  renumbered,
  variables_once,
  IsNumbered,
};
ghost use Rattle.npa_term.specs.Order.{term_cmp};
ghost use Rattle.npa_term.specs.Parts.{image, least_sort};
ghost use Rattle.npa_term.specs.Same.{Same, SameAll, SameArguments};
ghost use Rattle.npa_term.specs.Symbols.{symbol_count};
ghost use Rattle.npa_term.specs.Variables.{IsGround, raised_var, renamed, variables};

/// The order of terms is total, and where operators agree with one declaration it tells any two
/// different terms apart.
pub fn order_laws()
    ensures total { IsTotalOrder term_cmp }
    ensures tied { (decl : ℕ → Op) (t u : Term) → Agrees decl t → Agrees decl u
        → term_cmp t u ≡ Equal → t ≡ u }
{}

/// Equality modulo commutativity is an equivalence and a congruence, also under substitutions,
/// and equal terms have as many symbols.
pub fn equality_laws()
    ensures reflexive { (t : Term) → Same t t }
    ensures symmetric { (t u : Term) → Same t u → Same u t }
    ensures transitive { (s t u : Term) → Same s t → Same t u → Same s u }
    ensures congruent { (op : Op) (ts us : List Term) → SameAll ts us
        → Same (App op ts) (App op us) }
    ensures instances { (s : List (Variable × Term)) (t u : Term) → Same t u
        → Same (applied s t) (applied s u) }
    ensures sizes { (t u : Term) → Same t u → symbol_count t ≡ symbol_count u }
{}

/// What equals a variable or a fresh name is that alone, and what equals an application is one of
/// the same operator, with arguments that are equal place by place or crosswise.
pub fn equality_cases()
    ensures variables { (v : Variable) (t : Term) → Same (Var v) t → t ≡ Var v }
    ensures names { (n : ℕ) (t : Term) → Same (Name n) t → t ≡ Name n }
    ensures applications { (op : Op) (ts : List Term) (t : Term) → Same (App op ts) t
        → (us : List Term) × (t ≡ App op us) × SameArguments op ts us }
    ensures arguments { (op : Op) (ts us : List Term) → SameArguments op ts us
        → Same (App op ts) (App op us) }
{}

/// A canonical form is canonical and has as many symbols as the term. Where operators agree with
/// one declaration, two terms have one canonical form exactly where they are equal modulo
/// commutativity.
pub fn canonical_laws()
    ensures settled { (t : Term) → canonical (canonical t) ≡ canonical t }
    ensures sizes { (t : Term) → symbol_count (canonical t) ≡ symbol_count t }
    ensures forms { (decl : ℕ → Op) (t u : Term) → Agrees decl t → Agrees decl u
        → (canonical t ≡ canonical u ↔ Same t u) }
    ensures agreeing { (decl : ℕ → Op) (t : Term) → Agrees decl t
        → Agrees decl (canonical t) }
{}

/// A ground term is its own instance, and its canonical form is ground.
pub fn ground_laws()
    ensures fixed { (s : List (Variable × Term)) (t : Term) → IsGround t → applied s t ≡ t }
    ensures canonical { (t : Term) → IsGround t → IsGround (canonical t) }
{}

/// An instance depends on the values of the term's own variables alone, and the empty
/// substitution changes nothing. Where all operators agree with one declaration, the canonical
/// form of a term may stand in its place.
pub fn instance_laws()
    ensures alike { (s u : List (Variable × Term)) (t : Term)
        → ((v : Variable) → Contains (variables t) v → value_of s v ≡ value_of u v)
        → applied s t ≡ applied u t }
    ensures empty { (t : Term) → applied [] t ≡ t }
    ensures agreeing { (decl : ℕ → Op) (s : List (Variable × Term)) (t : Term)
        → ValuesAgree decl s → Agrees decl t → Agrees decl (applied s t) }
    ensures canonical { (decl : ℕ → Op) (s : List (Variable × Term)) (t : Term)
        → ValuesAgree decl s → Agrees decl t
        → canonical (applied s (canonical t)) ≡ canonical (applied s t) }
{}

/// Renaming changes nothing but the numbers of variables. It keeps terms equal, in their order and
/// canonical.
pub fn renaming_laws()
    ensures variables { (base : ℕ) (t : Term)
        → variables (renamed base t) ≡ map (raised_var base) (variables t) }
    ensures sizes { (base : ℕ) (t : Term) → symbol_count (renamed base t) ≡ symbol_count t }
    ensures same { (base : ℕ) (t u : Term) → Same t u → Same (renamed base t) (renamed base u) }
    ensures order { (base : ℕ) (t u : Term)
        → term_cmp (renamed base t) (renamed base u) ≡ term_cmp t u }
    ensures canonical { (base : ℕ) (t : Term)
        → canonical (renamed base t) ≡ renamed base (canonical t) }
{}

/// Numbering variables anew is one to one and keeps sorts; the new numbers are below the count of
/// the variables. The terms and those that are numbered anew are instances of each other.
pub fn numbering_laws()
    ensures numbered { (ts : List Term) (v : Variable) → Contains (flat_map variables ts) v
        → IsNumbered 0 (variables_once ts) v }
    ensures back { (ts : List Term) (t : Term) → Contains ts t
        → applied (unnumbering ts) (applied (numbering ts) t) ≡ t }
    ensures sorts { (ts : List Term) (v : Variable)
        → (least_sort (image (numbering ts) v) ≡ v.sort)
        × (least_sort (image (unnumbering ts) v) ≡ v.sort) }
    ensures below { (ts : List Term) (v : Variable) → Contains (flat_map variables (renumbered ts)) v
        → v.num < length (variables_once ts) }
    ensures covering { (ts : List Term) → SameAll (map (applied (numbering ts)) ts) (renumbered ts) }
    ensures covered { (ts : List Term)
        → SameAll (map (applied (unnumbering ts)) (renumbered ts)) ts }
{}
