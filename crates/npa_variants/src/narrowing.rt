ghost use Rattle.std.specs.Prelude.{◌≡◌, ◌+◌, ◌<◌, ◌^◌, false, ℕ, [], ◌∷◌, flat_map, All, IfOk};
ghost use Rattle.npa_sorts.specs.Subsorts.{Subsorts};
ghost use Rattle.npa_term.specs.Variables.{renamed, variables};
ghost use Rattle.npa_unify.specs.Answers.{judged, unifiers};
ghost use Rattle.npa_rewrite.specs.Rewriting.{AllCancel};
ghost use Rattle.npa_variants.specs.Search.{as_stop, by_equation as by_equation_of, by_part as by_part_of, by_row as by_row_of, by_unifier as by_unifier_of, level as level_of, past as past_of, unifiers_at as unifiers_of};
ghost use Rattle.npa_variants.specs.Told.{Gives, GivesUnifiers, as_kept};

use crate::kept::{Kept, Row, Stop, place};
use crate::making::{are_normal, first_large, instances, result};
use crate::parts::{own_parts, split};
use npa_list::List;
use npa_rewrite::Theory;
use npa_sig::Equation;
use npa_sorts::Sorts;
use npa_term::{NoMemory, Subst, Substs, Term, TermPairs, copy, rename};
use npa_unify::{UnifyFail, are_fit, unify};
use std::alloc::Global;

// The greatest number past those of the variables of a row, and of an equation.
const ROOM: u64 = 1073741824;

/// A row that is tried: its first members, `m` of them, are values, and its variables have numbers
/// below `base`.
#[derive(Clone, Copy)]
pub(crate) struct Tried<'a> {
    pub(crate) th: &'a Theory,
    pub(crate) m: usize,
    pub(crate) row: &'a [Term],
    pub(crate) base: u64,
}

/// What is kept after the rows of a level are tried, which are these.
pub(crate) fn level(
    alloc: Global,
    th: &Theory,
    m: usize,
    rows: &[Row],
    kept: Kept,
) -> Result<Kept, Stop>
    requires cancelling { AllCancel th.now }
    ensures { Gives result (level_of 64 th.now m rows.now (as_kept kept)) }
{
    let mut kept = kept;
    for row in rows {
        kept = by_row(alloc, th, m, row.as_slice(), kept)?;
    }
    Ok(kept)
}

// What is kept after a row is tried, at each of its own applications.
fn by_row(alloc: Global, th: &Theory, m: usize, row: &[Term], kept: Kept) -> Result<Kept, Stop>
    requires cancelling { AllCancel th.now }
    ensures { Gives result (by_row_of 64 th.now m row.now (as_kept kept)) }
{
    let (values, terms) = split(row, m);
    let own = own_parts(alloc, values, terms)?;
    let tried = Tried {
        th,
        m,
        row,
        base: past_all(row),
    };
    let mut kept = kept;
    for part in own.as_slice() {
        kept = by_part(alloc, &tried, part, kept)?;
    }
    Ok(kept)
}

// The same after an application is tried, by each equation.
fn by_part(alloc: Global, tried: &Tried<'_>, part: &Term, kept: Kept) -> Result<Kept, Stop>
    requires cancelling { AllCancel tried.now.th.now }
    requires base { tried.now.base ≡ past_of (flat_map variables tried.now.row.now) }
    ensures { Gives result (by_part_of 64 tried.now.th.now tried.now.m tried.now.row.now part.now (as_kept kept)) }
{
    let mut kept = kept;
    for equation in tried.th.equations.as_slice() {
        kept = by_equation(alloc, tried, part, equation, kept)?;
    }
    Ok(kept)
}

// The same after it is tried by one equation, with each unifier.
fn by_equation(
    alloc: Global,
    tried: &Tried<'_>,
    part: &Term,
    equation: &Equation,
    kept: Kept,
) -> Result<Kept, Stop>
    requires cancelling { AllCancel tried.now.th.now }
    requires base { tried.now.base ≡ past_of (flat_map variables tried.now.row.now) }
    ensures { Gives result (by_equation_of 64 tried.now.th.now tried.now.m tried.now.row.now part.now equation.now (as_kept kept)) }
{
    let found = unifiers_at(alloc, tried, part, equation)?;
    let mut kept = kept;
    for s in found.as_slice() {
        kept = by_unifier(alloc, tried, s, kept)?;
    }
    Ok(kept)
}

// The unifiers of an application with the left side of an equation, whose variables are numbered
// past those of the row. Most have none by their operators, and for these nothing is made.
fn unifiers_at(
    alloc: Global,
    tried: &Tried<'_>,
    part: &Term,
    equation: &Equation,
) -> Result<Substs, Stop>
    requires base { tried.now.base ≡ past_of (flat_map variables tried.now.row.now) }
    ensures { GivesUnifiers result (unifiers_of tried.now.th.now tried.now.row.now part.now equation.now) }
{
    if !may_unify(part, &equation.left) {
        return Ok(List::new(alloc));
    }
    let more = past(&equation.left);
    if more > ROOM || tried.base > ROOM {
        return Err(Stop::NoMemory);
    }
    let base = tried.base as u32;
    let pairs = problem(alloc, part, &equation.left, base)?;
    unified(alloc, tried.th.sig.sorts(), &pairs, base + more as u32)
}

// What has to be unified: an application with a left side, to whose variables a number is added.
fn problem(alloc: Global, part: &Term, left: &Term, base: u32) -> Result<TermPairs, NoMemory>
    requires fits { All (λ v. v.num + base < 2 ^ 32) (variables left.now) }
    ensures { IfOk result (λ pairs. pairs ≡ (part.now, renamed base left.now) ∷ []) }
{
    let mut pairs = List::new(alloc);
    pairs.push((copy(alloc, part)?, rename(alloc, left, base)?))?;
    Ok(pairs)
}

// The unifiers of pairs for which `unify` may be asked. A problem that leaves no room for the numbers
// of new variables counts as want of memory.
fn unified(alloc: Global, sorts: &Sorts, pairs: &TermPairs, next: u32) -> Result<Substs, Stop>
    ensures { GivesUnifiers result (as_stop (judged (unifiers sorts.now pairs.now next))) }
{
    if !are_fit(alloc, sorts, pairs, next)? {
        return Err(Stop::NoMemory);
    }
    match unify(alloc, sorts, pairs, next) {
        Ok(found) => Ok(found),
        Err(UnifyFail::TooMany) => Err(Stop::Unifiers),
        Err(UnifyFail::TooLarge(count)) => Err(Stop::Symbols(count)),
        Err(UnifyFail::NoMemory) => Err(Stop::NoMemory),
    }
}

// Whether two terms aren't applications of different operators.
fn may_unify(t: &Term, u: &Term) -> bool
    ensures { result ≡ false → (o : Subsorts) (base next : ℕ)
        → unifiers o ((t.now, renamed base u.now) ∷ []) next ≡ [] }
{
    match (t, u) {
        (Term::App(f, _), Term::App(g, _)) => *f == *g,
        _ => true,
    }
}

// What is kept after one unifier: a result whose values aren't normal isn't, and the instances are
// measured before anything is made.
fn by_unifier(alloc: Global, tried: &Tried<'_>, s: &Subst, kept: Kept) -> Result<Kept, Stop>
    requires cancelling { AllCancel tried.now.th.now }
    ensures { Gives result (by_unifier_of 64 tried.now.th.now tried.now.m tried.now.row.now s.now (as_kept kept)) }
{
    if let Some(count) = first_large(s, tried.row) {
        return Err(Stop::Symbols(count));
    }
    let (values, terms) = split(tried.row, tried.m);
    let values = instances(alloc, s, values)?;
    if !are_normal(alloc, tried.th, values.as_slice())? {
        return Ok(kept);
    }
    let row = result(alloc, tried.th, values, s, terms)?;
    place(alloc, tried.th.sig.sorts(), row, kept)
}

// The first number past those of a term's variables.
#[cycle(past)]
fn past(t: &Term) -> u64
    ensures { result ≡ past_of (variables t.now) }
{
    match t {
        Term::Var(v) => v.num as u64 + 1,
        Term::Name(_) => 0,
        Term::App(_, args) => past_all(args.as_slice()),
    }
}

// The first number past those of the variables of terms.
#[cycle(past)]
fn past_all(ts: &[Term]) -> u64
    ensures { result ≡ past_of (flat_map variables ts.now) }
{
    let mut most = 0;
    for t in ts {
        most = past(t).max(most);
    }
    most
}
