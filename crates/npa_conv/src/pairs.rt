ghost use Rattle.std.specs.Prelude.{◌≡◌, ◌+◌, ◌<◌, ◌^◌, ℕ, List as ListOf, [], ◌∷◌, All, Contains, false, IfOk};
ghost use Rattle.npa_sorts.specs.Subsorts.{Subsorts};
ghost use Rattle.npa_term.specs.Variables.{renamed, variables};
ghost use Rattle.npa_unify.specs.Answers.{unifiers};
ghost use Rattle.npa_rewrite.specs.Rewriting.{AllCancel};
ghost use Rattle.npa_conv.specs.Overlaps.{base_of, overlap as overlap_of, past};
ghost use Rattle.npa_conv.specs.Places.{hole_at};
ghost use Rattle.npa_conv.specs.Theories.{IsPlaced, IsPlainTheory};
ghost use Rattle.npa_conv.specs.Verdict.{Tells, crossing, first_at, first_fault, overlap_fault, pair_fault, pairs_fault};

use crate::error::ConvFail;
use crate::positions::{applications, exchange};
use npa_list::List;
use npa_rewrite::{Theory, normal_form};
use npa_sig::Equation;
use npa_term::{
    MAX_SYMBOLS, NoMemory, Subst, Substs, Term, TermPairs, copy, instance, rename, same,
    symbols_under,
};
use npa_unify::{UnifyFail, unify};
use std::alloc::Global;

/// A part of an equation's left side: the application at a place in the order of the text, of the
/// equation of a number, whose variables have numbers below `base`.
#[derive(Clone, Copy)]
pub(crate) struct Part<'a> {
    pub(crate) number: u16,
    pub(crate) equation: &'a Equation,
    pub(crate) base: u32,
    pub(crate) place: usize,
    pub(crate) term: &'a Term,
}

/// Refuses the first critical pair that isn't joined or can't be made.
pub(crate) fn check_pairs(alloc: Global, th: &Theory) -> Result<(), ConvFail>
    requires plain { IsPlainTheory th.now }
    requires cancelling { AllCancel th.now }
    ensures { Tells result (first_at (pairs_fault th.now) 0 th.now.equations) }
{
    let equations = th.equations.as_slice();
    for at in 0..equations.len() {
        check_equation(alloc, th, at as u16, &equations[at])?;
    }
    Ok(())
}

// The critical pairs of an equation's parts.
fn check_equation(
    alloc: Global,
    th: &Theory,
    number: u16,
    equation: &Equation,
) -> Result<(), ConvFail>
    requires plain { IsPlainTheory th.now }
    requires cancelling { AllCancel th.now }
    requires listed { Contains th.now.equations equation.now }
    ensures { Tells result (pairs_fault th.now number equation.now) }
{
    let base = past(&equation.left) as u32;
    let terms = applications(alloc, &equation.left)?;
    for place in 0..terms.len() {
        let part = Part {
            number,
            equation,
            base,
            place,
            term: terms[place],
        };
        check_part(alloc, th, &part)?;
    }
    Ok(())
}

// The critical pairs of a part.
fn check_part(alloc: Global, th: &Theory, part: &Part<'_>) -> Result<(), ConvFail>
    requires plain { IsPlainTheory th.now }
    requires cancelling { AllCancel th.now }
    requires placed { IsPlaced th.now part.now }
    ensures { Tells result (first_at (overlap_fault th.now part.now.number part.now.equation.now
        (hole_at part.now.equation.now.left part.now.place)) 0 th.now.equations) }
{
    let equations = th.equations.as_slice();
    for at in 0..equations.len() {
        check_overlap(alloc, th, part, at as u16, &equations[at])?;
    }
    Ok(())
}

// The critical pairs of a part with an equation.
fn check_overlap(
    alloc: Global,
    th: &Theory,
    part: &Part<'_>,
    at: u16,
    second: &Equation,
) -> Result<(), ConvFail>
    requires plain { IsPlainTheory th.now }
    requires cancelling { AllCancel th.now }
    requires placed { IsPlaced th.now part.now }
    requires listed { Contains th.now.equations second.now }
    ensures { Tells result (overlap_fault th.now part.now.number part.now.equation.now
        (hole_at part.now.equation.now.left part.now.place) at second.now) }
{
    if !may_unify(part.term, &second.left) {
        return Ok(());
    }
    let next = past(&second.left) as u32 + part.base;
    let pairs = overlap(alloc, part, second)?;
    match unify(alloc, th.sig.sorts(), &pairs, next) {
        Ok(found) => check_unifiers(alloc, th, part, second, &found),
        Err(UnifyFail::TooMany) => Err(ConvFail::Unifiers(part.number, at)),
        Err(UnifyFail::TooLarge(count)) => Err(ConvFail::Symbols(count)),
        Err(UnifyFail::NoMemory) => Err(ConvFail::NoMemory),
    }
}

// Whether two terms aren't applications of different operators.
fn may_unify(t: &Term, u: &Term) -> bool
    ensures { result ≡ false → (o : Subsorts) (base next : ℕ)
        → unifiers o ((t.now, renamed base u.now) ∷ []) next ≡ [] }
{
    match (t, u) {
        (Term::App(f, _), Term::App(g, _)) => *f == *g,
        _ => true,
    }
}

// What has to be unified: the part with the left side of the second equation, whose variables are
// numbered behind those of the first one.
fn overlap(alloc: Global, part: &Part<'_>, second: &Equation) -> Result<TermPairs, NoMemory>
    requires base { part.now.base ≡ base_of part.now.equation.now }
    requires fits { All (λ v. v.num + part.now.base < 2 ^ 32) (variables second.now.left) }
    ensures { IfOk result (λ pairs. pairs
        ≡ overlap_of part.now.equation.now part.now.term.now second.now) }
{
    let mut pairs = List::new(alloc);
    pairs.push((
        copy(alloc, part.term)?,
        rename(alloc, &second.left, part.base)?,
    ))?;
    Ok(pairs)
}

// The critical pairs of an overlap.
fn check_unifiers(
    alloc: Global,
    th: &Theory,
    part: &Part<'_>,
    second: &Equation,
    found: &Substs,
) -> Result<(), ConvFail>
    requires plain { IsPlainTheory th.now }
    requires cancelling { AllCancel th.now }
    requires placed { IsPlaced th.now part.now }
    requires listed { Contains th.now.equations second.now }
    ensures { Tells result (first_fault (pair_fault th.now part.now.equation.now
        (crossing part.now.equation.now second.now
        (hole_at part.now.equation.now.left part.now.place).1)) found.now) }
{
    if found.is_empty() {
        return Ok(());
    }
    let right = rename(alloc, &second.right, part.base)?;
    let crossed = exchange(alloc, &part.equation.left, &mut Some(part.place), &right)?;
    check_all(alloc, th, part.equation, &crossed, found)
}

// The critical pairs of an overlap, whose first left side with the second right side in the place of
// the part is given.
fn check_all(
    alloc: Global,
    th: &Theory,
    first: &Equation,
    crossed: &Term,
    found: &Substs,
) -> Result<(), ConvFail>
    requires cancelling { AllCancel th.now }
    ensures { Tells result (first_fault (pair_fault th.now first.now crossed.now) found.now) }
{
    for s in found.as_slice() {
        check_pair(alloc, th, first, crossed, s)?;
    }
    Ok(())
}

// A critical pair: the instance of the first left side, which rewrites to the instances of the
// first right side and of the first left side where the second equation was used.
fn check_pair(
    alloc: Global,
    th: &Theory,
    first: &Equation,
    crossed: &Term,
    s: &Subst,
) -> Result<(), ConvFail>
    requires cancelling { AllCancel th.now }
    ensures { Tells result (pair_fault th.now first.now crossed.now s.now) }
{
    let count = symbols_under(s, &first.left);
    if count > MAX_SYMBOLS {
        return Err(ConvFail::Symbols(count));
    }
    let one = instance(alloc, s, &first.right)?;
    let two = instance(alloc, s, crossed)?;
    if same(&one, &two) {
        return Ok(());
    }
    let left = normal_form(alloc, th, &one)?;
    let right = normal_form(alloc, th, &two)?;
    if same(&left, &right) {
        return Ok(());
    }
    let from = instance(alloc, s, &first.left)?;
    Err(ConvFail::Pair { from, left, right })
}

// The first number past those of a term's variables.
#[tactic(auto, using(npa_term::proofs::Rows::variables_at, crate::proofs::Occurrences::past_step))]
fn past(t: &Term) -> u64
    ensures { result ≡ past (variables t.now) }
{
    match t {
        Term::Var(v) => v.num as u64 + 1,
        Term::Name(_) => 0,
        Term::App(_, args) => {
            let mut most = 0;
            for arg in args.as_slice() {
                most = past(arg).max(most);
            }
            most
        }
    }
}
