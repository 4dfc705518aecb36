//! Laws of the results of moves. Each public function answers nothing: its clauses are the laws, for the
//! proofs of the crates above.

ghost use Rattle.std.specs.Prelude.{◌≡◌, ℕ, Contains, List as ListOf, Ok, Some, map, slice_get};
ghost use Rattle.npa_sig.specs.declared.protocol.Strand.{Strand as Role};
ghost use Rattle.npa_rewrite.specs.Theories.{theory_of};
ghost use Rattle.npa_variants.specs.Ready.{IsFound};
ghost use Rattle.npa_model.specs.declared.aim.Aim.{Aim as Goal};
ghost use Rattle.npa_model.specs.declared.pattern.Pattern.{Pattern as State};
ghost use Rattle.npa_model.specs.Fitting.{IsFit};
ghost use Rattle.npa_model.specs.WellFormed.{IsPlainAim, IsWellFormedAim};
ghost use Rattle.npa_moves.specs.declared.step.Root.{Root as Begin};
ghost use Rattle.npa_moves.specs.declared.step.Step.{Step as Narrowing};
ghost use Rattle.npa_moves.specs.Leading.{FitsPattern, FitsVariables, IsStepBy};
ghost use Rattle.npa_moves.specs.RootLeading.{IsRootBy, aim_variables};
ghost use Rattle.npa_moves.specs.Roots.{aim_once, roots_in};
ghost use Rattle.npa_moves.specs.Steps.{found_variants, pattern_once, steps_in};

use npa_variants::Ready;

/// The steps of a pattern that fits lead to patterns that fit, and so do the roots of an aim without
/// fresh names.
pub fn fit_laws(ready: &Ready)
    ensures steps { (g : State) (list : ListOf Narrowing) (step : Narrowing) → IsFit ready.now g
        → steps_in ready.now g ≡ Ok list → Contains list step → IsFit ready.now step.pattern }
    ensures roots { (aim : Goal) (list : ListOf Begin) (root : Begin)
        → IsWellFormedAim ready.now.sig ready.now.strands aim → IsPlainAim aim
        → roots_in ready.now aim ≡ Ok list → Contains list root → IsFit ready.now root.pattern }
{
    let sorts = ready.protocol().sig.sorts();
    sorts.laws();
    let _pairs = sorts.pairs();
    ready.laws();
    look_up(ready);
}

/// Each step of a pattern that fits is a step by its own unifier, which binds each variable of the pattern
/// once, in the order in which they first occur there, and respects their sorts.
pub fn sound_step_laws(ready: &Ready)
    ensures binds { (g : State) (list : ListOf Narrowing) (step : Narrowing)
        → steps_in ready.now g ≡ Ok list → Contains list step
        → map (λ b. b.0) step.unifier ≡ pattern_once g }
    ensures respects { (g : State) (list : ListOf Narrowing) (step : Narrowing) → IsFit ready.now g
        → steps_in ready.now g ≡ Ok list → Contains list step
        → FitsPattern ready.now.sig.sorts g step.unifier }
    ensures sound { (g : State) (list : ListOf Narrowing) (step : Narrowing) → IsFit ready.now g
        → steps_in ready.now g ≡ Ok list → Contains list step
        → IsStepBy ready.now.strands (found_variants ready.now) ready.now.sig.sorts step.unifier g
        step.pattern }
{
    let sorts = ready.protocol().sig.sorts();
    sorts.laws();
    let _pairs = sorts.pairs();
    ready.laws();
    look_up(ready);
}

/// Each root of an aim without fresh names is a root by its own unifier, which binds each variable of the
/// aim's parts once, in the order in which they first occur there, and respects their sorts.
pub fn sound_root_laws(ready: &Ready)
    ensures binds { (aim : Goal) (list : ListOf Begin) (root : Begin) → roots_in ready.now aim ≡ Ok list
        → Contains list root → map (λ b. b.0) root.unifier ≡ aim_once aim }
    ensures respects { (aim : Goal) (list : ListOf Begin) (root : Begin)
        → IsWellFormedAim ready.now.sig ready.now.strands aim → IsPlainAim aim
        → roots_in ready.now aim ≡ Ok list → Contains list root
        → FitsVariables ready.now.sig.sorts (aim_variables aim) root.unifier }
    ensures sound { (aim : Goal) (list : ListOf Begin) (root : Begin)
        → IsWellFormedAim ready.now.sig ready.now.strands aim → IsPlainAim aim
        → roots_in ready.now aim ≡ Ok list → Contains list root
        → IsRootBy ready.now.strands (found_variants ready.now) ready.now.sig.sorts root.unifier aim
        root.pattern }
{
    let sorts = ready.protocol().sig.sorts();
    sorts.laws();
    let _pairs = sorts.pairs();
    ready.laws();
    look_up(ready);
}

// Looks up the variants of each strand, so that they are known to be found.
fn look_up(ready: &Ready)
    ensures { (s : ℕ) (strand : Role) → slice_get ready.now.strands s ≡ Some strand
        → IsFound (theory_of ready.now) strand (found_variants ready.now strand) }
{
    ready.laws();
    let count = ready.protocol().strands.len() as u16;
    for s in 0..count {
        let _list = ready.strand_variants(s);
    }
}
