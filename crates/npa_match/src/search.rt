ghost use Rattle.std.specs.Prelude.{◌≡◌, ◌<◌, [], ◌∷◌, ◌++◌, None, cond, length, reverse, zip, IfOk, IfSome, OnOk, OnErr, MatchOption, List};
ghost use Rattle.std.specs.Option.{option_copied};
ghost use Rattle.npa_term.specs.Bound.{value_of, BindsOnce};
ghost use Rattle.npa_term.specs.declared.term.Term.{Term, App};
ghost use Rattle.npa_match.specs.Branches.{at_variable, forks};
ghost use Rattle.npa_match.specs.Matching.{AreLast, bound_pairs, read_pairs};
ghost use Rattle.npa_match.specs.Search.{IsFork, bound_of, ends_of, goal_pairs, outcome_ends, outcome_work, pairs_of, waiting_ends, work};

use npa_sorts::Sorts;
use npa_term::{NoMemory, Op, Subst, Term, Var, copy, equals, sort_of};
use smallvec::SmallVec;
use std::alloc::Global;

/// Pairs that a branch has still to match, the next one last.
type Goals<'a> = Vec<(&'a Term, &'a Term)>;

/// Variables that a branch has bound, each with a part of a second member.
pub(crate) type Bound<'a> = Vec<(Var, &'a Term)>;

/// A branch of the search.
#[derive(Drop)]
pub(crate) struct Branch<'a> {
    goals: Goals<'a>,
    bound: Bound<'a>,
}

/// What a branch comes to: it fails, it is at its end with all that it binds, or it forks into
/// two, the first of which goes first.
#[derive(Drop)]
pub(crate) enum Outcome<'a> {
    Fails,
    Binds(Bound<'a>),
    Forks(Branch<'a>, Branch<'a>),
}

/// Branches that wait, the next one last. A place is an `Option` since a place of a `SmallVec` must
/// have a default.
pub(crate) type Waiting<'a> = SmallVec<Option<Branch<'a>>, 2>;

/// What the first branch that comes to its end has bound. The branches behind it wait on; where
/// memory is wanting, those behind the one that was followed do.
pub(crate) fn next_end<'a>(
    alloc: Global,
    sorts: &Sorts,
    waiting: &mut Waiting<'a>,
) -> Result<Option<Bound<'a>>, NoMemory>
    ensures found { IfOk result (λ found. IfSome found (λ bound.
        waiting_ends sorts.now (reverse waiting.old.items)
        ≡ bound_pairs bound.items ∷ waiting_ends sorts.now (reverse waiting.new.items))) }
    ensures none { IfOk result (λ found. found ≡ None
        → waiting_ends sorts.now (reverse waiting.old.items) ≡ []) }
    ensures empty { IfOk result (λ found. found ≡ None → waiting.new.items ≡ []) }
    ensures lost { OnErr result (AreLast (waiting_ends sorts.now (reverse waiting.old.items))
        (waiting_ends sorts.now (reverse waiting.new.items))) }
{
    while let Some(Some(branch)) = waiting.pop() {
        match advance(alloc, sorts, branch)? {
            Outcome::Fails => {}
            Outcome::Binds(bound) => return Ok(Some(bound)),
            Outcome::Forks(straight, crossed) => {
                waiting.push(Some(crossed))?;
                waiting.push(Some(straight))?;
            }
        }
    }
    waiting.clear();
    Ok(None)
}

/// The branch that has all pairs to match and binds what is bound.
pub(crate) fn start<'a>(
    alloc: Global,
    bound: &[(Var, &'a Term)],
    pairs: &[(&'a Term, &'a Term)],
) -> Result<Branch<'a>, NoMemory>
    ensures pairs { IfOk result (λ branch. pairs_of branch ≡ read_pairs pairs.now) }
    ensures bound { IfOk result (λ branch. bound_of branch ≡ bound_pairs bound.now) }
{
    let mut goals = Vec::from_slice(alloc, pairs)?;
    goals.reverse();
    let bound = Vec::from_slice(alloc, bound)?;
    Ok(Branch { goals, bound })
}

// Follows a branch to where it fails, ends or forks.
#[tactic(auto, using(crate::proofs::Going::work_positive))]
fn advance<'a>(alloc: Global, sorts: &Sorts, branch: Branch<'a>) -> Result<Outcome<'a>, NoMemory>
    ensures ends { IfOk result (λ outcome.
        outcome_ends sorts.now outcome ≡ ends_of sorts.now branch.entry) }
    ensures less { IfOk result (λ outcome. outcome_work outcome < work branch.entry) }
{
    let Branch {
        mut goals,
        mut bound,
    } = branch;
    while let Some((t, u)) = goals.pop() {
        match t {
            Term::Var(v) => {
                if !bind(sorts, &mut bound, *v, u)? {
                    return Ok(Outcome::Fails);
                }
            }
            Term::Name(_) => {
                if !equals(t, u) {
                    return Ok(Outcome::Fails);
                }
            }
            Term::App(op, ts) => {
                let Some(us) = arguments(u, *op) else {
                    return Ok(Outcome::Fails);
                };
                if ts.len() != us.len() {
                    return Ok(Outcome::Fails);
                }
                if is_fork(*op, us) {
                    return fork(alloc, goals, bound, ts.as_slice(), us);
                }
                push_arguments(&mut goals, ts.as_slice(), us)?;
            }
        }
    }
    Ok(Outcome::Binds(bound))
}

// Forks a branch at the arguments of a commutative operator.
fn fork<'a>(
    alloc: Global,
    mut goals: Goals<'a>,
    bound: Bound<'a>,
    ts: &'a [Term],
    us: &'a [Term],
) -> Result<Outcome<'a>, NoMemory>
    requires first { length ts.now ≡ 2 }
    requires second { length us.now ≡ 2 }
    ensures { IfOk result (λ outcome.
        IsFork (goal_pairs goals.entry.items) (bound_pairs bound.entry.items) ts.now us.now outcome) }
{
    let mut crossed = Vec::from_slice(alloc, goals.as_slice())?;
    crossed.push((&ts[1], &us[0]))?;
    crossed.push((&ts[0], &us[1]))?;
    goals.push((&ts[1], &us[1]))?;
    goals.push((&ts[0], &us[0]))?;
    let other = Vec::from_slice(alloc, bound.as_slice())?;
    Ok(Outcome::Forks(
        Branch { goals, bound },
        Branch {
            goals: crossed,
            bound: other,
        },
    ))
}

/// The arguments of a term, where it is one of this operator.
pub(crate) fn arguments<'a>(t: &'a Term, op: Op) -> Option<&'a [Term]>
    ensures { MatchOption result ((us : List Term) → t.now ≡ App op us → ⊥)
        (λ us. t.now ≡ App op us.now) }
{
    match t {
        Term::App(f, ts) => {
            if *f == op {
                return Some(ts.as_slice());
            }
            None
        }
        _ => None,
    }
}

// Whether a branch forks at an operator with these arguments of the second member.
fn is_fork(op: Op, us: &[Term]) -> bool
    ensures { result ≡ forks op us.now }
{
    match us {
        [u, w] => op.com && !equals(u, w),
        _ => false,
    }
}

// Puts the pairs of arguments to the front.
fn push_arguments<'a>(goals: &mut Goals<'a>, ts: &'a [Term], us: &'a [Term]) -> Result<(), NoMemory>
    requires { length ts.now ≡ length us.now }
    ensures { OnOk result
        (goal_pairs goals.new.items ≡ zip ts.now us.now ++ goal_pairs goals.old.items) }
{
    for i in 0..ts.len() {
        let at = ts.len() - 1 - i;
        goals.push((&ts[at], &us[at]))?;
    }
    Ok(())
}

// Binds a variable, or compares with its value where it is bound. Answers whether the branch goes
// on.
fn bind<'a>(sorts: &Sorts, bound: &mut Bound<'a>, v: Var, u: &'a Term) -> Result<bool, NoMemory>
    ensures { let s = bound_pairs bound.old.items in IfOk result (λ goes_on.
        at_variable sorts.now s v u.now (value_of s v)
        ≡ cond goes_on (bound_pairs bound.new.items ∷ []) []) }
{
    match value(bound.as_slice(), v) {
        Some(t) => Ok(equals(t, u)),
        None => {
            if !sorts.le(sort_of(u), v.sort) {
                return Ok(false);
            }
            bound.push((v, u))?;
            Ok(true)
        }
    }
}

// The value of a variable, where it is bound.
fn value<'a>(bound: &[(Var, &'a Term)], v: Var) -> Option<&'a Term>
    ensures { option_copied result ≡ value_of (bound_pairs bound.now) v }
{
    for (w, t) in bound {
        if *w == v {
            return Some(*t);
        }
    }
    None
}

/// What a branch has bound, as a substitution.
pub(crate) fn substitution(alloc: Global, bound: &[(Var, &Term)]) -> Result<Subst, NoMemory>
    requires { BindsOnce (bound_pairs bound.now) }
    ensures { IfOk result (λ s. s ≡ bound_pairs bound.now) }
{
    let mut s = Subst::new(alloc);
    for (v, t) in bound {
        s.bind(*v, copy(alloc, t)?)?;
    }
    Ok(s)
}
