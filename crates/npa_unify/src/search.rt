ghost use Rattle.std.specs.Prelude.{◌≡◌, ◌≤◌, ◌<◌, ◌^◌, ◌++◌, ◌&&◌, cond, nat_eq, [], ◌∷◌, map, reverse, length, flat_map, zip, None, Contains, IfOk, IfSome, OnOk};
ghost use Rattle.npa_sorts.specs.Lowers.{lowers as lowers_of};
ghost use Rattle.npa_sorts.specs.Subsorts.{IsSort};
ghost use Rattle.npa_term.specs.Computed.{same_op, turned};
ghost use Rattle.npa_term.specs.declared.term.Term.{Term as Tree, Var as VarTree};
ghost use Rattle.npa_term.specs.declared.term.Var.{Var as Variable};
ghost use Rattle.npa_unify.specs.Branches.{Branch, are_two, arranged, at_arguments, at_variable, at_variables, ends, fork as forked, is_end, move, moved, put, visited, with_pairs};
ghost use Rattle.npa_unify.specs.Searches.{nexts, splits};
ghost use Rattle.npa_unify.specs.Seen.{AreSound, IsReached, IsSound, IsUnbound, full, full_pairs, goal_pairs, head_term, raw, seen, seen_all};

use crate::heads::{Binding, Head, sort_of_head, walk};
use crate::occurrences::is_in;
use crate::order::order;
use npa_sorts::Sorts;
use npa_term::{NoMemory, Op, Term, TermPairs, Var};
use std::alloc::Global;
use std::cmp::Ordering;

/// Pairs that a branch has still to make equal, the next one last.
pub(crate) type Goals<'a> = Vec<(&'a Term, &'a Term)>;

/// Variables that a branch has bound, each with the head of its value.
pub(crate) type Bound<'a> = Vec<Binding<'a>>;

/// Where a branch of the search stands. Nothing is put into a term: what its goals and its bindings
/// stand for is told by all bindings together. `next` may be 2^32, where no new variable is needed
/// any more.
#[derive(Drop)]
pub(crate) struct State<'a> {
    pub(crate) goals: Goals<'a>,
    pub(crate) bound: Bound<'a>,
    pub(crate) next: u64,
}

/// Branches that wait, the next one last.
pub(crate) type Waiting<'a> = Vec<State<'a>>;

/// The branch that has all pairs to unify and has bound nothing.
pub(crate) fn start<'a>(
    alloc: Global,
    pairs: &'a TermPairs,
    next: u32,
) -> Result<State<'a>, NoMemory>
    ensures goals { IfOk result (λ state. goal_pairs state.goals.items ≡ pairs.now) }
    ensures bound { IfOk result (λ state. state.bound.items ≡ []) }
    ensures next { IfOk result (λ state. state.next ≡ next) }
{
    let mut goals = Vec::with_capacity(alloc, pairs.len())?;
    let members = pairs.as_slice();
    for i in 0..members.len() {
        let (t, u) = &members[members.len() - 1 - i];
        goals.push((t, u))?;
    }
    Ok(State {
        goals,
        bound: Vec::new(alloc),
        next: next as u64,
    })
}

// Binds a variable, behind those that are bound.
fn bind<'a>(mut state: State<'a>, v: Var, value: Head<'a>) -> Result<State<'a>, NoMemory>
    ensures seen { IfOk result (λ s. seen s
        ≡ put v (full (raw state.entry.bound.items) (head_term value.entry)) (seen state.entry)) }
    ensures raw { IfOk result (λ s. raw s.bound.items
        ≡ raw state.entry.bound.items ++ (v, head_term value.entry) ∷ []) }
{
    state.bound.push((v, value))?;
    Ok(state)
}

// Puts a branch in front of those that wait.
fn wait<'a>(state: State<'a>, waiting: &mut Waiting<'a>) -> Result<(), NoMemory>
    ensures all { OnOk result (seen_all waiting.new.items
        ≡ seen state.entry ∷ seen_all waiting.old.items) }
    ensures sound { OnOk result (IsSound (raw state.entry.bound.items)
        → AreSound waiting.old.items → AreSound waiting.new.items) }
{
    waiting.push(state)?;
    Ok(())
}

// The branch of a variable against a term that is none.
fn variable<'a>(
    alloc: Global,
    sorts: &Sorts,
    state: State<'a>,
    v: Var,
    value: Head<'a>,
    waiting: &mut Waiting<'a>,
) -> Result<(), NoMemory>
    requires sound { IsSound (raw state.bound.items) }
    requires var { IsUnbound (raw state.bound.items) (VarTree v) }
    requires value { IsUnbound (raw state.bound.items) (head_term value) }
    ensures all { OnOk result (seen_all waiting.new.items
        ≡ nexts (at_variable sorts.now v (full (raw state.entry.bound.items) (head_term value.entry))
        (seen state.entry)) ++ seen_all waiting.old.items) }
    ensures sound { OnOk result (AreSound waiting.old.items → AreSound waiting.new.items) }
{
    let found = is_in(alloc, state.bound.as_slice(), v, value)?;
    if found {
        return Ok(());
    }
    if !sorts.le(sort_of_head(value), v.sort) {
        return Ok(());
    }
    let next = bind(state, v, value)?;
    wait(next, waiting)
}

// The branches of two variables.
fn variables<'a>(
    alloc: Global,
    sorts: &Sorts,
    state: State<'a>,
    v: Var,
    w: Var,
    waiting: &mut Waiting<'a>,
) -> Result<(), NoMemory>
    requires sound { IsSound (raw state.bound.items) }
    requires first { IsUnbound (raw state.bound.items) (VarTree v) }
    requires second { IsUnbound (raw state.bound.items) (VarTree w) }
    requires sorts { IsSort sorts.now v.sort × IsSort sorts.now w.sort }
    requires low { (x : Variable) → Contains (map (λ b. b.0) (raw state.bound.items)) x
        → x.num < state.next }
    requires own { (v.num < state.next) × (w.num < state.next) }
    requires room { (b : Branch) → Contains (nexts (at_variables sorts.now v w (seen state))) b
        → b.next ≤ 2 ^ 32 }
    ensures all { OnOk result (seen_all waiting.new.items
        ≡ nexts (at_variables sorts.now v w (seen state.entry)) ++ seen_all waiting.old.items) }
    ensures sound { OnOk result (AreSound waiting.old.items → AreSound waiting.new.items) }
{
    if v == w {
        return wait(state, waiting);
    }
    if sorts.le(v.sort, w.sort) {
        return wait(bind(state, w, Head::Var(v))?, waiting);
    }
    if sorts.le(w.sort, v.sort) {
        return wait(bind(state, v, Head::Var(w))?, waiting);
    }
    let Ok(lowers) = sorts.maximal_lower(alloc, v.sort, w.sort) else {
        return Err(NoMemory);
    };
    fork(alloc, &state, v, w, lowers.as_slice(), waiting)
}

// A branch for each of these sorts, in which two variables are bound to a new one of that sort.
fn fork<'a>(
    alloc: Global,
    state: &State<'a>,
    v: Var,
    w: Var,
    lowers: &[u16],
    waiting: &mut Waiting<'a>,
) -> Result<(), NoMemory>
    requires sound { IsSound (raw state.now.bound.items) }
    requires first { IsUnbound (raw state.now.bound.items) (VarTree v) }
    requires second { IsUnbound (raw state.now.bound.items) (VarTree w) }
    requires different { v ≡ w → ⊥ }
    requires low { (x : Variable) → Contains (map (λ b. b.0) (raw state.now.bound.items)) x
        → x.num < state.now.next }
    requires own { (v.num < state.now.next) × (w.num < state.now.next) }
    requires room { 0 < length lowers.now → state.now.next < 2 ^ 32 }
    ensures all { OnOk result (seen_all waiting.new.items
        ≡ map (λ s. forked s v w (seen state.now)) lowers.now ++ seen_all waiting.old.items) }
    ensures sound { OnOk result (AreSound waiting.old.items → AreSound waiting.new.items) }
{
    for i in 0..lowers.len() {
        let at = lowers.len() - 1 - i;
        fork_at(alloc, state, v, w, lowers[at], waiting)?;
    }
    Ok(())
}

// The branch in which two variables are bound to a new one of a sort.
fn fork_at<'a>(
    alloc: Global,
    state: &State<'a>,
    v: Var,
    w: Var,
    sort: u16,
    waiting: &mut Waiting<'a>,
) -> Result<(), NoMemory>
    requires sound { IsSound (raw state.now.bound.items) }
    requires first { IsUnbound (raw state.now.bound.items) (VarTree v) }
    requires second { IsUnbound (raw state.now.bound.items) (VarTree w) }
    requires different { v ≡ w → ⊥ }
    requires low { (x : Variable) → Contains (map (λ b. b.0) (raw state.now.bound.items)) x
        → x.num < state.now.next }
    requires own { (v.num < state.now.next) × (w.num < state.now.next) }
    requires room { state.now.next < 2 ^ 32 }
    ensures all { OnOk result (seen_all waiting.new.items
        ≡ forked sort v w (seen state.now) ∷ seen_all waiting.old.items) }
    ensures sound { OnOk result (AreSound waiting.old.items → AreSound waiting.new.items) }
{
    let new = Var {
        num: state.next as u32,
        sort,
    };
    let copy = State {
        goals: Vec::from_slice(alloc, state.goals.as_slice())?,
        bound: Vec::from_slice(alloc, state.bound.as_slice())?,
        next: state.next + 1,
    };
    let first = bind(copy, v, Head::Var(new))?;
    let second = bind(first, w, Head::Var(new))?;
    wait(second, waiting)
}

// The branches of the arguments of one operator.
fn arguments<'a>(
    alloc: Global,
    mut state: State<'a>,
    op: Op,
    ts: &'a [Term],
    us: &'a [Term],
    waiting: &mut Waiting<'a>,
) -> Result<(), NoMemory>
    requires sound { IsSound (raw state.bound.items) }
    ensures all { let h = full (raw state.entry.bound.items) in OnOk result
        (seen_all waiting.new.items ≡ nexts (at_arguments op (map h ts.now) (map h us.now)
        (seen state.entry)) ++ seen_all waiting.old.items) }
    ensures sound { OnOk result (AreSound waiting.old.items → AreSound waiting.new.items) }
{
    if ts.len() != us.len() {
        return Ok(());
    }
    if is_crossed(op, ts) {
        return cross(alloc, state, ts, us, waiting);
    }
    push_arguments(&mut state.goals, ts, us)?;
    wait(state, waiting)
}

// Whether arguments of an operator are tried in both orders.
fn is_crossed(op: Op, ts: &[Term]) -> bool
    ensures { result ≡ (op.com && are_two ts.now) }
{
    match ts {
        [_, _] => op.com,
        _ => false,
    }
}

// The branches of the two arguments of a commutative operator on each side.
fn cross<'a>(
    alloc: Global,
    mut state: State<'a>,
    ts: &'a [Term],
    us: &'a [Term],
    waiting: &mut Waiting<'a>,
) -> Result<(), NoMemory>
    requires sound { IsSound (raw state.bound.items) }
    requires first { length ts.now ≡ 2 }
    requires second { length us.now ≡ 2 }
    ensures all { let h = full (raw state.entry.bound.items) in OnOk result
        (seen_all waiting.new.items
        ≡ with_pairs (zip (arranged (map h ts.now)) (arranged (map h us.now))) (seen state.entry)
        ∷ with_pairs (zip (arranged (map h ts.now)) (turned (arranged (map h us.now))))
        (seen state.entry) ∷ seen_all waiting.old.items) }
    ensures sound { OnOk result (AreSound waiting.old.items → AreSound waiting.new.items) }
{
    let (a, b) = in_order(state.bound.as_slice(), &ts[0], &ts[1]);
    let (c, d) = in_order(state.bound.as_slice(), &us[0], &us[1]);
    let mut goals = Vec::from_slice(alloc, state.goals.as_slice())?;
    goals.push((b, c))?;
    goals.push((a, d))?;
    let crossed = State {
        goals,
        bound: Vec::from_slice(alloc, state.bound.as_slice())?,
        next: state.next,
    };
    wait(crossed, waiting)?;
    state.goals.push((b, d))?;
    state.goals.push((a, c))?;
    wait(state, waiting)
}

// Two terms in the order of the canonical forms of what they stand for.
fn in_order<'a>(bound: &[Binding<'a>], t: &'a Term, u: &'a Term) -> (&'a Term, &'a Term)
    requires sound { IsSound (raw bound.now) }
    ensures { let h = full (raw bound.now) in
        h result.0.now ∷ h result.1.now ∷ [] ≡ arranged (h t.now ∷ h u.now ∷ []) }
{
    if order(bound, t, u) == Ordering::Greater {
        return (u, t);
    }
    (t, u)
}

// Puts the pairs of arguments to the front.
fn push_arguments<'a>(goals: &mut Goals<'a>, ts: &'a [Term], us: &'a [Term]) -> Result<(), NoMemory>
    requires { length ts.now ≡ length us.now }
    ensures { OnOk result
        (goal_pairs goals.new.items ≡ zip ts.now us.now ++ goal_pairs goals.old.items) }
{
    for i in 0..ts.len() {
        let at = ts.len() - 1 - i;
        goals.push((&ts[at], &us[at]))?;
    }
    Ok(())
}

// Puts the branches that a branch becomes by a pair in front of those that wait.
fn follow<'a>(
    alloc: Global,
    sorts: &Sorts,
    state: State<'a>,
    t: &'a Term,
    u: &'a Term,
    waiting: &mut Waiting<'a>,
) -> Result<(), NoMemory>
    requires sound { IsSound (raw state.bound.items) }
    requires reached { let h = full (raw state.bound.items) in
        IsReached sorts.now (with_pairs ((h t.now, h u.now) ∷ []) (seen state)) }
    ensures all { let h = full (raw state.entry.bound.items) in OnOk result
        (seen_all waiting.new.items ≡ nexts (move sorts.now (h t.now) (h u.now)
        (seen state.entry)) ++ seen_all waiting.old.items) }
    ensures sound { OnOk result (AreSound waiting.old.items → AreSound waiting.new.items) }
{
    let left = walk(state.bound.as_slice(), t);
    let right = walk(state.bound.as_slice(), u);
    match left {
        Head::Var(v) => match right {
            Head::Var(w) => variables(alloc, sorts, state, v, w, waiting),
            Head::Name(_) => variable(alloc, sorts, state, v, right, waiting),
            Head::App(_, _) => variable(alloc, sorts, state, v, right, waiting),
        },
        Head::Name(m) => match right {
            Head::Var(w) => variable(alloc, sorts, state, w, left, waiting),
            Head::Name(n) => names(state, m, n, waiting),
            Head::App(_, _) => Ok(()),
        },
        Head::App(f, ts) => match right {
            Head::Var(w) => variable(alloc, sorts, state, w, left, waiting),
            Head::Name(_) => Ok(()),
            Head::App(g, us) => operators(alloc, state, f, ts, g, us, waiting),
        },
    }
}

// The branch of two fresh names.
fn names<'a>(state: State<'a>, m: u32, n: u32, waiting: &mut Waiting<'a>) -> Result<(), NoMemory>
    requires sound { IsSound (raw state.bound.items) }
    ensures all { OnOk result (seen_all waiting.new.items
        ≡ nexts (cond (nat_eq m n) (splits (seen state.entry ∷ [])) (splits []))
        ++ seen_all waiting.old.items) }
    ensures sound { OnOk result (AreSound waiting.old.items → AreSound waiting.new.items) }
{
    if m == n {
        return wait(state, waiting);
    }
    Ok(())
}

// The branches of two applications.
fn operators<'a>(
    alloc: Global,
    state: State<'a>,
    f: Op,
    ts: &'a [Term],
    g: Op,
    us: &'a [Term],
    waiting: &mut Waiting<'a>,
) -> Result<(), NoMemory>
    requires sound { IsSound (raw state.bound.items) }
    ensures all { let h = full (raw state.entry.bound.items) in OnOk result
        (seen_all waiting.new.items ≡ nexts (cond (same_op f g)
        (at_arguments f (map h ts.now) (map h us.now) (seen state.entry)) (splits []))
        ++ seen_all waiting.old.items) }
    ensures sound { OnOk result (AreSound waiting.old.items → AreSound waiting.new.items) }
{
    if f == g {
        return arguments(alloc, state, f, ts, us, waiting);
    }
    Ok(())
}

/// The first branch that succeeds. The branches behind it wait on.
pub(crate) fn next_end<'a>(
    alloc: Global,
    sorts: &Sorts,
    waiting: &mut Waiting<'a>,
) -> Result<Option<State<'a>>, NoMemory>
    requires sound { AreSound waiting.now.items }
    requires reached { (b : Branch) → Contains (seen_all waiting.now.items) b
        → IsReached sorts.now b }
    ensures found { IfOk result (λ found. IfSome found (λ state.
        flat_map (ends sorts.now) (seen_all waiting.old.items)
        ≡ seen state ∷ flat_map (ends sorts.now) (seen_all waiting.new.items))) }
    ensures none { IfOk result (λ found. found ≡ None
        → flat_map (ends sorts.now) (seen_all waiting.old.items) ≡ []) }
    ensures end { IfOk result (λ found. IfSome found (λ state. IsSound (raw state.bound.items))) }
    ensures sound { IfOk result (λ _. AreSound waiting.new.items) }
    ensures reached { IfOk result (λ _. (b : Branch) → Contains (seen_all waiting.new.items) b
        → IsReached sorts.now b) }
{
    while let Some(state) = waiting.pop() {
        let State {
            mut goals,
            bound,
            next,
        } = state;
        match goals.pop() {
            None => return Ok(Some(State { goals, bound, next })),
            Some((t, u)) => {
                let rest = State { goals, bound, next };
                follow(alloc, sorts, rest, t, u, waiting)?;
            }
        }
    }
    Ok(None)
}
