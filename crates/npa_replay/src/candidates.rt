ghost use Rattle.std.specs.Prelude.{◌≡◌, ◌<◌, ◌^◌, ℕ, [], ◌∷◌, false, List, length, IsTrue, IfOk};
ghost use Rattle.npa_sorts.specs.Subsorts.{Subsorts};
ghost use Rattle.npa_term.specs.declared.term.Term.{Term, App};
ghost use Rattle.npa_match.specs.Matching.{HasMatch};
ghost use Rattle.npa_replay.specs.Choices.{AreAllCandidates, AreCandidates, IsTarget, target_pairs};

use crate::scene::{Scene, is_target, pairs_at};
use npa_list::List;
use npa_match::has_match;
use npa_model::Part;
use npa_term::{NoMemory, Op, Term};
use std::alloc::Global;

/// For each part of an aim the targets that its terms match by themselves.
pub(crate) fn all_candidates(alloc: Global, scene: &Scene<'_>) -> Result<Vec<List<usize>>, NoMemory>
    requires few { length scene.now.instances.now < 2 ^ 32 }
    requires counted { length scene.now.state.now.executed ≡ length scene.now.instances.now }
    ensures { IfOk result (λ all. AreAllCandidates scene.now.instances.now scene.now.state.now scene.now.sorts.now scene.now.parts.now all.items) }
{
    let mut all = Vec::with_capacity(alloc, scene.parts.len())?;
    for part in scene.parts {
        all.push(candidates(alloc, scene, part)?)?;
    }
    Ok(all)
}

// The targets that the part's terms match.
fn candidates<'a>(alloc: Global, scene: &Scene<'a>, part: &'a Part) -> Result<List<usize>, NoMemory>
    requires few { length scene.now.instances.now < 2 ^ 32 }
    requires counted { length scene.now.state.now.executed ≡ length scene.now.instances.now }
    ensures { IfOk result (λ found. AreCandidates scene.now.instances.now scene.now.state.now scene.now.sorts.now part.now found) }
{
    let mut found = List::new(alloc);
    for place in 0..numbers(scene, part) {
        if is_candidate(alloc, scene, part, place)? {
            found.push(place)?;
        }
    }
    Ok(found)
}

// Past the numbers of a part's targets.
fn numbers(scene: &Scene<'_>, part: &Part) -> usize
    ensures { (n : ℕ) → IsTarget scene.now.instances.now scene.now.state.now part.now n → n < result }
{
    match part {
        Part::Known(_) => scene.state.sent().len(),
        Part::Strand { .. } => scene.instances.len(),
    }
}

// Whether the number is that of a target that the part's terms match.
fn is_candidate<'a>(
    alloc: Global,
    scene: &Scene<'a>,
    part: &'a Part,
    place: usize,
) -> Result<bool, NoMemory>
    requires few { length scene.now.instances.now < 2 ^ 32 }
    requires counted { length scene.now.state.now.executed ≡ length scene.now.instances.now }
    ensures target { IfOk result (λ b. IsTrue b → IsTarget scene.now.instances.now scene.now.state.now part.now place) }
    ensures other { IfOk result (λ b. b ≡ false → IsTarget scene.now.instances.now scene.now.state.now part.now place → HasMatch scene.now.sorts.now (target_pairs scene.now.instances.now scene.now.state.now part.now place) → ⊥) }
{
    if !is_target(scene, part, place) || !may_match(scene, part, place) {
        return Ok(false);
    }
    let pairs = pairs_at(alloc, scene, part, place)?;
    has_match(alloc, scene.sorts, pairs.as_slice())
}

// A test without memory: a known part is matched by terms of its own operator alone.
fn may_match(scene: &Scene<'_>, part: &Part, place: usize) -> bool
    ensures { result ≡ false → HasMatch scene.now.sorts.now (target_pairs scene.now.instances.now scene.now.state.now part.now place) → ⊥ }
{
    match part {
        Part::Known(t) => match scene.state.sent().get(place) {
            Some(u) => heads_agree(t, u),
            None => true,
        },
        Part::Strand { .. } => true,
    }
}

// Whether the first term is a variable or a name, or both are of one operator.
fn heads_agree(t: &Term, u: &Term) -> bool
    ensures { result ≡ false → (o : Subsorts) → HasMatch o ((t.now, u.now) ∷ []) → ⊥ }
{
    match t {
        Term::App(op, _) => is_of(u, *op),
        _ => true,
    }
}

// Whether the term is one of this operator.
fn is_of(t: &Term, op: Op) -> bool
    ensures { result ≡ false → (ts : List Term) → t.now ≡ App op ts → ⊥ }
{
    match t {
        Term::App(f, _) => *f == op,
        _ => false,
    }
}
