ghost use Rattle.std.specs.Prelude.{◌≡◌, ◌≤◌, [], None, Contains, All, IfOk, IfSome, IsTrue, List as ListOf, length};
ghost use Rattle.npa_sorts.specs.Subsorts.{Subsorts};
ghost use Rattle.npa_term.specs.declared.term.Term.{Term};
ghost use Rattle.npa_term.specs.declared.term.Var.{Var as Variable};
ghost use Rattle.npa_match.specs.Branches.{MatchesOnce, after_pairs};
ghost use Rattle.npa_match.specs.Matching.{bound_pairs, read_pairs};

use crate::search::{next_end, start};
use npa_list::List;
use npa_sorts::Sorts;
use npa_term::{NoMemory, Term, Var};
use smallvec::SmallVec;
use std::alloc::Global;

/// Variables with the terms that are bound to them, borrowed where they lie.
pub type Bindings<'a> = List<(Var, &'a Term)>;

/// The first of the branches that go on from these bindings by the pairs: the bindings of a matcher
/// of other pairs become those of a matcher of both. `None` comes exactly where none goes on to its
/// end. No term is copied.
pub fn extend<'a>(
    alloc: Global,
    sorts: &Sorts,
    bound: &[(Var, &'a Term)],
    pairs: &[(&'a Term, &'a Term)],
) -> Result<Option<Bindings<'a>>, NoMemory>
    ensures found { IfOk result (λ found. IfSome found (λ s. Contains
        (after_pairs sorts.now (read_pairs pairs.now) (bound_pairs bound.now)) (bound_pairs s))) }
    ensures none { IfOk result (λ found. found ≡ None
        → after_pairs sorts.now (read_pairs pairs.now) (bound_pairs bound.now) ≡ []) }
{
    let branch = start(alloc, bound, pairs)?;
    let mut waiting = SmallVec::new(alloc);
    waiting.push(Some(branch))?;
    match next_end(alloc, sorts, &mut waiting)? {
        Some(end) => Ok(Some(List::from_vec(end))),
        None => Ok(None),
    }
}

/// Whether no commutative operator stands in the first members of the pairs. Then they match in one
/// way at most, whatever is bound.
pub fn match_once(pairs: &[(&Term, &Term)]) -> bool
    ensures { IsTrue result → (o : Subsorts) (s : ListOf (Variable × Term))
        → length (after_pairs o (read_pairs pairs.now) s) ≤ 1 }
{
    for (t, _) in pairs {
        if !matches_once(t) {
            return false;
        }
    }
    true
}

// Whether no commutative operator stands in a term.
#[cycle(once)]
fn matches_once(t: &Term) -> bool
    ensures { IsTrue result → MatchesOnce t.now }
{
    match t {
        Term::Var(_) => true,
        Term::Name(_) => true,
        Term::App(op, ts) => !op.com && all_match_once(ts.as_slice()),
    }
}

// Whether none stands in any of the terms.
#[cycle(once)]
fn all_match_once(ts: &[Term]) -> bool
    ensures { IsTrue result → All MatchesOnce ts.now }
{
    for t in ts {
        if !matches_once(t) {
            return false;
        }
    }
    true
}
