//! Laws of rewriting. Each function does nothing: its clauses are the laws, for the proofs of the
//! crates above.

ghost use Rattle.std.specs.Prelude.{◌≡◌, ◌↔◌, ◌<◌, ℕ, IsTrue, Contains, None, List, [], ◌∷◌, ◌++◌, map};
ghost use Rattle.npa_sorts.specs.Subsorts.{IsAtOrBelow};
ghost use Rattle.npa_term.specs.declared.term.Op.{Op};
ghost use Rattle.npa_term.specs.declared.term.Term.{Term, App};
ghost use Rattle.npa_term.specs.declared.term.Var.{Var as Variable};
ghost use Rattle.npa_term.specs.Agreeing.{Agrees};
ghost use Rattle.npa_term.specs.Bound.{applied};
ghost use Rattle.npa_term.specs.Canonical.{canonical};
ghost use Rattle.npa_term.specs.Parts.{IsPart, image, least_sort};
ghost use Rattle.npa_term.specs.Same.{Same};
ghost use Rattle.npa_term.specs.Symbols.{symbol_count};
ghost use Rattle.npa_term.specs.Variables.{IsGround, variables};
ghost use Rattle.npa_sig.specs.Signature.{Signature, first_op_fault};
ghost use Rattle.npa_sig.specs.Sorting.{well_sorted};
ghost use Rattle.npa_sig.specs.Values.{under};
ghost use Rattle.npa_rewrite.specs.declared.theory.Theory.{Theory};
ghost use Rattle.npa_rewrite.specs.Innermost.{Reductions, normal_values, normalized};
ghost use Rattle.npa_rewrite.specs.Rewriting.{AllCancel, FitsSorts, GivesNormalForms, IsConvergent, IsLeastNormalForm, IsNormal, IsNormalFormOf, Rewrites, Steps};
ghost use Rattle.npa_sig.specs.Operators.{PairsCommute};

/// Terms that are equal modulo commutativity make the same steps, a step of an argument is one of
/// the application, and what a step makes is canonical. Where all equations cancel, it is smaller
/// than the term, of a sort at or below the term's, and ground where the term is. Where commutative
/// operators take two arguments of one sort, it is well sorted where the term is, and so are the
/// terms that a substitution has for the variables of a left side.
pub fn step_laws()
    ensures classes { (th : Theory) (t u v : Term) → Same t u → Rewrites th u v → Rewrites th t v }
    ensures arguments { (th : Theory) (op : Op) (before after : List Term) (t u : Term)
        → Rewrites th t u → Rewrites th (App op (before ++ t ∷ after))
        (canonical (App op (before ++ u ∷ after))) }
    ensures canonical { (th : Theory) (t u : Term) → Rewrites th t u → canonical u ≡ u }
    ensures smaller { (th : Theory) (t u : Term) → AllCancel th → Rewrites th t u
        → symbol_count u < symbol_count t }
    ensures sorts { (th : Theory) (t u : Term) → AllCancel th → Rewrites th t u
        → IsAtOrBelow th.sig.sorts (least_sort u) (least_sort t) }
    ensures sorted { (th : Theory) (t u : Term) → AllCancel th → PairsCommute th.sig
        → Rewrites th t u → IsTrue (well_sorted th.sig t) → IsTrue (well_sorted th.sig u) }
    ensures values { (sig : Signature) (t left : Term) (s : List (Variable × Term)) (v : Variable)
        → PairsCommute sig → Same t (applied s left) → IsTrue (well_sorted sig t)
        → Contains (variables left) v → IsTrue (well_sorted sig (image s v)) }
    ensures groundness { (th : Theory) (t u : Term) → AllCancel th → Rewrites th t u
        → IsGround t → IsGround u }
{}

/// What equals a normal term modulo commutativity is normal, and so is a part of it. It has no
/// normal form but its canonical form. Where all equations cancel, each term has a normal form, and
/// what a ground term rewrites to is ground; a normal form of a well-sorted term is well sorted
/// where commutative operators take two arguments of one sort.
pub fn normal_laws()
    ensures classes { (th : Theory) (t u : Term) → Same t u → IsNormal th t → IsNormal th u }
    ensures parts { (th : Theory) (t u : Term) → IsPart t u → IsNormal th u → IsNormal th t }
    ensures settled { (th : Theory) (t u : Term) → IsNormal th t → Steps th (canonical t) u
        → u ≡ canonical t }
    ensures some { (th : Theory) (t : Term) → AllCancel th → (u : Term) × IsNormalFormOf th t u }
    ensures sorted { (th : Theory) (t u : Term) → AllCancel th → PairsCommute th.sig
        → Steps th (canonical t) u → IsTrue (well_sorted th.sig t) → IsTrue (well_sorted th.sig u) }
    ensures groundness { (th : Theory) (t u : Term) → AllCancel th → Steps th t u → IsGround t
        → IsGround u }
{}

/// In a signature whose operators can all be declared, a commutative one takes two arguments of one
/// sort.
pub fn signature_laws()
    ensures { (sig : Signature) → first_op_fault [] sig.ops ≡ None → PairsCommute sig }
{}

/// In a convergent theory any two normal forms of a well-sorted term are one, and so a normal form
/// is the least one.
pub fn convergence_laws()
    ensures one { (th : Theory) (t u v : Term) → IsConvergent th → IsTrue (well_sorted th.sig t)
        → IsNormalFormOf th t u → IsNormalFormOf th t v → u ≡ v }
    ensures least { (th : Theory) (t u : Term) → IsConvergent th
        → IsTrue (well_sorted th.sig t) → IsNormalFormOf th t u → IsLeastNormalForm th t u }
{}

/// The normal form that is made from the leaves up is one, and canonical, where all equations
/// cancel; a term is normal exactly where it is the canonical form. Where no two operators of the
/// term have one number, steps at the first innermost place reach it. In a convergent theory it is
/// the least one, so there is a function that has for each well-sorted term its normal form, and
/// each such function has this one.
pub fn normalizing_laws()
    ensures form { (th : Theory) (t : Term) → AllCancel th → IsNormalFormOf th t (normalized th t) }
    ensures canonical { (th : Theory) (t : Term) → AllCancel th
        → canonical (normalized th t) ≡ normalized th t }
    ensures normal { (th : Theory) (t : Term) → AllCancel th
        → IsNormal th t ↔ (normalized th t ≡ canonical t) }
    ensures reductions { (th : Theory) (decl : ℕ → Op) (t : Term) → AllCancel th
        → Agrees decl t → Reductions th (canonical t) (normalized th t) }
    ensures gives { (th : Theory) → AllCancel th → IsConvergent th
        → GivesNormalForms th (normalized th) }
    ensures only { (th : Theory) (nf : Term → Term) (t : Term) → AllCancel th → IsConvergent th
        → GivesNormalForms th nf → IsTrue (well_sorted th.sig t) → nf t ≡ normalized th t }
{}

/// A term is normal where an instance of it is, by a substitution that fits the sorts of its
/// variables. Where all equations cancel, the normal forms of arguments, of the values of a
/// substitution and of those of parameters may be taken first. In a convergent theory so may that
/// of a term before a well-sorted instance is made, and terms that are equal modulo commutativity
/// have one normal form. It is of a sort at or below the term's.
pub fn instance_laws()
    ensures normal { (th : Theory) (s : List (Variable × Term)) (t : Term)
        → FitsSorts th.sig.sorts (variables t) s → IsNormal th (applied s t) → IsNormal th t }
    ensures form { (th : Theory) (s : List (Variable × Term)) (t : Term) → AllCancel th
        → PairsCommute th.sig → IsConvergent th → FitsSorts th.sig.sorts (variables t) s
        → IsTrue (well_sorted th.sig (applied s t))
        → normalized th (applied s (normalized th t)) ≡ normalized th (applied s t) }
    ensures arguments { (th : Theory) (op : Op) (ts : List Term) → AllCancel th
        → normalized th (App op (map (normalized th) ts)) ≡ normalized th (App op ts) }
    ensures values { (th : Theory) (s : List (Variable × Term)) (t : Term) → AllCancel th
        → normalized th (applied (normal_values th s) t) ≡ normalized th (applied s t) }
    ensures parameters { (th : Theory) (values : List Term) (t : Term) → AllCancel th
        → normalized th (under (map (normalized th) values) t) ≡ normalized th (under values t) }
    ensures classes { (th : Theory) (t u : Term) → AllCancel th → PairsCommute th.sig
        → IsConvergent th → Same t u → IsTrue (well_sorted th.sig t)
        → normalized th t ≡ normalized th u }
    ensures below { (th : Theory) (t : Term) → AllCancel th
        → IsAtOrBelow th.sig.sorts (least_sort (normalized th t)) (least_sort t) }
{}
