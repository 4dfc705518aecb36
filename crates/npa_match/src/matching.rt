ghost use Rattle.std.specs.Prelude.{◌≡◌, ◌≤◌, None, false, length, Contains, All, IfOk, IsErrOf, IfSome, IsTrue, List};
ghost use Rattle.npa_term.specs.declared.term.Term.{Term};
ghost use Rattle.npa_term.specs.declared.term.Var.{Var as Variable};
ghost use Rattle.npa_match.specs.Branches.{branches, first_of};
ghost use Rattle.npa_match.specs.Matching.{Matches, IsMatcher, AgreeOn, AreDifferent, HasMatch, HasMatcher, HasMore, first_variables, read_pairs};

use crate::error::MatchFail;
use crate::matchers::Matchers;
use crate::shape::may_all_match;
use npa_list::List;
use npa_sorts::Sorts;
use npa_term::{NoMemory, Subst, Substs, Term, TermPairs};
use std::alloc::Global;

/// The most matchers that `matches` answers.
pub const MAX_MATCHERS: u64 = 4096;

/// All matchers of the first members onto the second modulo commutativity, each once, in the order
/// of the search. They bind the variables of the first members; the variables of the second members
/// count as constants. `TooMany` comes exactly where there are more than `MAX_MATCHERS`.
pub fn matches(alloc: Global, sorts: &Sorts, pairs: &TermPairs) -> Result<Substs, MatchFail>
    ensures matchers { IfOk result (λ ss. All (IsMatcher sorts.now pairs.now) ss) }
    ensures every { IfOk result (λ ss. (u : List (Variable × Term)) → Matches sorts.now pairs.now u
        → (s : List (Variable × Term)) × Contains ss s
        × AgreeOn (first_variables pairs.now) u s) }
    ensures once { IfOk result (λ ss. AreDifferent (first_variables pairs.now) ss) }
    ensures few { IfOk result (λ ss. (length ss ≤ MAX_MATCHERS)
        × (HasMore MAX_MATCHERS sorts.now pairs.now → ⊥)) }
    ensures many { IsErrOf result MatchFail.TooMany → HasMore MAX_MATCHERS sorts.now pairs.now }
    ensures order { IfOk result (λ ss. ss ≡ branches sorts.now pairs.now) }
{
    let members = borrowed(alloc, pairs.as_slice())?;
    let mut left = Matchers::new(alloc, sorts, members.as_slice())?;
    let mut found = List::new(alloc);
    while let Some(s) = left.next(alloc)? {
        if found.len() as u64 == MAX_MATCHERS {
            return Err(MatchFail::TooMany);
        }
        found.push(s)?;
    }
    Ok(found)
}

/// The first matcher in the order of the search, which takes pairs from the front, puts the pairs
/// of arguments to the front in their order, and for a commutative operator tries the straight
/// pairs before the crossed ones. `None` comes exactly where there is no matcher.
pub fn find(alloc: Global, sorts: &Sorts, pairs: &TermPairs) -> Result<Option<Subst>, NoMemory>
    ensures matcher { IfOk result (λ found. IfSome found (IsMatcher sorts.now pairs.now)) }
    ensures none { IfOk result (λ found. found ≡ None
        → (u : List (Variable × Term)) → Matches sorts.now pairs.now u → ⊥) }
    ensures order { IfOk result (λ found. found ≡ first_of (branches sorts.now pairs.now)) }
{
    let members = borrowed(alloc, pairs.as_slice())?;
    find_match(alloc, sorts, members.as_slice())
}

/// What `find` answers, of terms that are borrowed where they lie. Pairs whose operators alone keep
/// them from matching are told without memory.
pub fn find_match(
    alloc: Global,
    sorts: &Sorts,
    pairs: &[(&Term, &Term)],
) -> Result<Option<Subst>, NoMemory>
    ensures matcher { IfOk result (λ found. IfSome found
        (IsMatcher sorts.now (read_pairs pairs.now))) }
    ensures none { IfOk result (λ found. found ≡ None
        → (u : List (Variable × Term)) → Matches sorts.now (read_pairs pairs.now) u → ⊥) }
    ensures order { IfOk result (λ found.
        found ≡ first_of (branches sorts.now (read_pairs pairs.now))) }
{
    if !may_all_match(pairs) {
        return Ok(None);
    }
    let mut left = Matchers::new(alloc, sorts, pairs)?;
    left.next(alloc)
}

/// Whether there is a matcher: the test of `find_match` alone, which makes none.
pub fn has_match(alloc: Global, sorts: &Sorts, pairs: &[(&Term, &Term)]) -> Result<bool, NoMemory>
    ensures matched { IfOk result (λ b. IsTrue b → HasMatcher sorts.now (read_pairs pairs.now)) }
    ensures none { IfOk result (λ b. b ≡ false → HasMatch sorts.now (read_pairs pairs.now) → ⊥) }
{
    if !may_all_match(pairs) {
        return Ok(false);
    }
    let mut left = Matchers::new(alloc, sorts, pairs)?;
    left.skip(alloc)
}

// The pairs, borrowed.
fn borrowed<'a>(
    alloc: Global,
    pairs: &'a [(Term, Term)],
) -> Result<Vec<(&'a Term, &'a Term)>, NoMemory>
    ensures { IfOk result (λ members. read_pairs members.items ≡ pairs.now) }
{
    let mut members = Vec::with_capacity(alloc, pairs.len())?;
    for (t, u) in pairs {
        members.push((t, u))?;
    }
    Ok(members)
}
