ghost use Rattle.std.specs.Prelude.{◌≡◌, ◌↔◌, ◌≤◌, ◌++◌, ℕ, [], ◌∷◌, None, false, true, length, Contains, List as ListOf, IsTrue, IfOk, IfSome, OnOk};
ghost use Rattle.npa_term.specs.declared.term.Term.{Term as TermOf};
ghost use Rattle.npa_term.specs.declared.term.Var.{Var as Variable};
ghost use Rattle.npa_match.specs.Branches.{after_pairs, branches};
ghost use Rattle.npa_match.specs.Matching.{HasMatch, bound_pairs, read_pairs};
ghost use Rattle.npa_replay.specs.Choices.{AreFree, IsOpen, taken, target_pairs};
ghost use Rattle.npa_sorts.specs.Subsorts.{Subsorts};
ghost use Rattle.npa_replay.specs.Held.{IsHeld};

use crate::scene::{Scene, pairs_at};
use npa_list::List;
use npa_match::{Bindings, extend, match_once};
use npa_model::Part;
use npa_sorts::Sorts;
use npa_term::{NoMemory, Term};
use std::alloc::Global;

/// The targets that are taken for parts, one after another: the instances among them, and the
/// pairs of terms that are to be equal, with a matcher of all of them as a witness.
#[derive(Drop)]
pub(crate) struct Choice<'a> {
    pub used: List<usize>,
    pub pairs: List<(&'a Term, &'a Term)>,
    pub bound: Bindings<'a>,
    /// No commutative operator stands in the parts: there is no other matcher.
    pub once: bool,
}

impl<'a> Choice<'a> {
    /// Nothing is taken.
    pub(crate) fn new(alloc: Global) -> Choice<'a>
        ensures used { result.used ≡ [] }
        ensures pairs { read_pairs result.pairs ≡ [] }
        ensures held { (o : Subsorts) → IsHeld o result }
    {
        Choice {
            used: List::new(alloc),
            pairs: List::new(alloc),
            bound: List::new(alloc),
            once: true,
        }
    }
}

/// What comes of a choice by a further target for a part, where that is free and its pairs can be
/// matched beside those that are there.
pub(crate) fn take_target<'a>(
    alloc: Global,
    scene: &Scene<'a>,
    part: &'a Part,
    place: usize,
    choice: &Choice<'a>,
) -> Result<Option<Choice<'a>>, NoMemory>
    requires held { IsHeld scene.now.sorts.now choice.now }
    ensures used { IfOk result (λ found. IfSome found (λ more. more.used ≡ choice.now.used ++ taken part.now place)) }
    ensures pairs { IfOk result (λ found. IfSome found (λ more. read_pairs more.pairs ≡ read_pairs choice.now.pairs ++ target_pairs scene.now.instances.now scene.now.state.now part.now place)) }
    ensures free { IfOk result (λ found. IfSome found (λ more. AreFree choice.now.used (taken part.now place))) }
    ensures held { IfOk result (λ found. IfSome found (λ more. IsHeld scene.now.sorts.now more)) }
    ensures closed { IfOk result (λ found. found ≡ None → IsOpen scene.now.instances.now scene.now.state.now scene.now.sorts.now choice.now.used (read_pairs choice.now.pairs) part.now place → ⊥) }
{
    if !is_free(choice.used.as_slice(), part, place) {
        return Ok(None);
    }
    let more = pairs_at(alloc, scene, part, place)?;
    let Some(bound) = witness(alloc, scene.sorts, choice, more.as_slice())? else {
        return Ok(None);
    };
    let mut used = List::from_slice(alloc, choice.used.as_slice())?;
    take_instance(&mut used, part, place)?;
    let mut pairs = List::from_slice(alloc, choice.pairs.as_slice())?;
    pairs.extend_from_slice(more.as_slice())?;
    let once = stays_once(choice.once, more.as_slice());
    Ok(Some(Choice {
        used,
        pairs,
        bound,
        once,
    }))
}

// Whether no commutative operator stood in the parts, nor stands in more of them.
fn stays_once(once: bool, more: &[(&Term, &Term)]) -> bool
    ensures { IsTrue result → (once ≡ true) × ((o : Subsorts) (s : ListOf (Variable × TermOf)) → length (after_pairs o (read_pairs more.now) s) ≤ 1) }
{
    once && match_once(more)
}

/// Whether a target is free and its pairs can be matched beside those of a choice.
pub(crate) fn is_open<'a>(
    alloc: Global,
    scene: &Scene<'a>,
    part: &'a Part,
    place: usize,
    choice: &Choice<'a>,
) -> Result<bool, NoMemory>
    requires held { IsHeld scene.now.sorts.now choice.now }
    ensures closed { IfOk result (λ b. b ≡ false → IsOpen scene.now.instances.now scene.now.state.now scene.now.sorts.now choice.now.used (read_pairs choice.now.pairs) part.now place → ⊥) }
{
    if !is_free(choice.used.as_slice(), part, place) {
        return Ok(false);
    }
    let more = pairs_at(alloc, scene, part, place)?;
    Ok(witness(alloc, scene.sorts, choice, more.as_slice())?.is_some())
}

// A matcher of the pairs of a choice and of more. The choice's own is extended where it can be; all
// pairs are matched anew only where that fails and there may be others.
fn witness<'a>(
    alloc: Global,
    sorts: &Sorts,
    choice: &Choice<'a>,
    more: &[(&'a Term, &'a Term)],
) -> Result<Option<Bindings<'a>>, NoMemory>
    requires { IsHeld sorts.now choice.now }
    ensures found { IfOk result (λ found. IfSome found (λ s. Contains (branches sorts.now (read_pairs choice.now.pairs ++ read_pairs more.now)) (bound_pairs s))) }
    ensures none { IfOk result (λ found. found ≡ None → HasMatch sorts.now (read_pairs choice.now.pairs ++ read_pairs more.now) → ⊥) }
{
    if let Some(bound) = extend(alloc, sorts, choice.bound.as_slice(), more)? {
        return Ok(Some(bound));
    }
    if choice.once {
        return Ok(None);
    }
    let mut pairs = List::from_slice(alloc, choice.pairs.as_slice())?;
    pairs.extend_from_slice(more)?;
    extend(alloc, sorts, &[], pairs.as_slice())
}

// Whether the part takes no instance that is used.
fn is_free(used: &[usize], part: &Part, place: usize) -> bool
    ensures free { IsTrue result → AreFree used.now (taken part.now place) }
    ensures used { result ≡ false → AreFree used.now (taken part.now place) → ⊥ }
{
    match part {
        Part::Known(_) => true,
        Part::Strand { .. } => !holds(used, place),
    }
}

/// Whether the number is among these.
pub(crate) fn holds(numbers: &[usize], number: usize) -> bool
    ensures { IsTrue result ↔ Contains numbers.now number }
{
    numbers.contains(&number)
}

// Takes the instance of a strand part.
fn take_instance(used: &mut List<usize>, part: &Part, place: usize) -> Result<(), NoMemory>
    ensures { OnOk result (used.new ≡ used.old ++ taken part.now place) }
{
    match part {
        Part::Known(_) => {}
        Part::Strand { .. } => used.push(place)?,
    }
    Ok(())
}
