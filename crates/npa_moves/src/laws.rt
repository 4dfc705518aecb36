//! Laws of roots and backward steps. Each public function answers nothing: its clauses are the laws,
//! for the proofs of the crates above.

ghost use Rattle.std.specs.Prelude.{◌≡◌, ◌<◌, ℕ, List as ListOf, Ok, Some, slice_get};
ghost use Rattle.npa_term.specs.declared.term.Term.{Term as Tree};
ghost use Rattle.npa_term.specs.declared.term.Var.{Var as Variable};
ghost use Rattle.npa_sig.specs.declared.protocol.Strand.{Strand as Role};
ghost use Rattle.npa_rewrite.specs.Innermost.{normalized};
ghost use Rattle.npa_rewrite.specs.Theories.{theory_of};
ghost use Rattle.npa_variants.specs.Ready.{IsFound};
ghost use Rattle.npa_model.specs.declared.aim.Aim.{Aim as Goal};
ghost use Rattle.npa_model.specs.declared.pattern.Pattern.{Pattern as State};
ghost use Rattle.npa_model.specs.declared.pattern.Standing.TheVariants.{Exactly};
ghost use Rattle.npa_model.specs.declared.run.Instance.{Instance};
ghost use Rattle.npa_model.specs.declared.run.Run.{Run};
ghost use Rattle.npa_model.specs.Aims.{Assigns, IsRun, Meets};
ghost use Rattle.npa_model.specs.Fitting.{IsFit};
ghost use Rattle.npa_model.specs.Instances.{AreInstances};
ghost use Rattle.npa_model.specs.Meeting.{MeetsBy};
ghost use Rattle.npa_model.specs.Patterns.{IsInitial};
ghost use Rattle.npa_model.specs.Runs.{Executes};
ghost use Rattle.npa_model.specs.WellFormed.{IsWellFormedAim};
ghost use Rattle.npa_moves.specs.declared.step.Root.{Root as Begin};
ghost use Rattle.npa_moves.specs.declared.step.Step.{Step as Narrowing};
ghost use Rattle.npa_moves.specs.GoingBack.{AreNormalUnder, GoesBack, MeetsRoot};
ghost use Rattle.npa_moves.specs.Leading.{FitsPattern, FitsVariables, IsAmong, IsStepBy};
ghost use Rattle.npa_moves.specs.RootLeading.{IsAmongRoots, IsRootBy, aim_variables};
ghost use Rattle.npa_moves.specs.Roots.{roots_in};
ghost use Rattle.npa_moves.specs.Steps.{found_variants, steps_in};

use npa_rewrite::normalizing_laws;
use npa_unify::unifier_laws;
use npa_variants::Ready;

/// Each step from a pattern by a substitution that respects sorts is an instance of a step of the
/// list, whose unifier agrees with the substitution. So a run that meets a pattern that isn't initial
/// has one with a step less that meets the same pattern by the same assignment, or the pattern of a
/// step by one that agrees with it.
pub fn step_laws(ready: &Ready)
    ensures complete { (a : ListOf (Variable × Tree)) (g q : State) (list : ListOf Narrowing)
        → IsFit ready.now g → FitsPattern ready.now.sig.sorts g a
        → steps_in ready.now g ≡ Ok list
        → IsStepBy ready.now.strands (found_variants ready.now) ready.now.sig.sorts a g q
        → IsAmong ready.now.sig.sorts list a g q }
    ensures back { let nf = normalized (theory_of ready.now) in (a : ListOf (Variable × Tree)) (g : State)
        (list : ListOf Narrowing) (instances : ListOf Instance) (schedule : ListOf ℕ)
        (sent : ListOf Tree) → IsFit ready.now g → steps_in ready.now g ≡ Ok list
        → AreInstances nf ready.now.sig ready.now.strands instances
        → Executes nf ready.now.strands instances schedule sent
        → MeetsBy nf ready.now.strands instances schedule Exactly ready.now.sig sent g a
        → (IsInitial g → ⊥)
        → GoesBack nf ready.now.sig ready.now.strands instances list a g schedule sent }
{
    let sorts = ready.protocol().sig.sorts();
    sorts.laws();
    let _pairs = sorts.pairs();
    unifier_laws();
    normalizing_laws();
    ready.laws();
    look_up(ready);
}

/// Each root of an aim by a substitution that respects sorts is an instance of a root of the list,
/// whose unifier agrees with the substitution. So a run that meets an aim's parts by values under
/// which the aim's terms are normal meets the pattern of a root, by an assignment that agrees.
pub fn root_laws(ready: &Ready)
    ensures complete { (a : ListOf (Variable × Tree)) (aim : Goal) (q : State) (list : ListOf Begin)
        → IsWellFormedAim ready.now.sig ready.now.strands aim
        → FitsVariables ready.now.sig.sorts (aim_variables aim) a
        → roots_in ready.now aim ≡ Ok list
        → IsRootBy ready.now.strands (found_variants ready.now) ready.now.sig.sorts a aim q
        → IsAmongRoots ready.now.sig.sorts list a aim q }
    ensures met { let nf = normalized (theory_of ready.now) in (aim : Goal) (list : ListOf Begin) (run : Run)
        (sent values : ListOf Tree) (chosen : ListOf ℕ)
        → IsWellFormedAim ready.now.sig ready.now.strands aim → roots_in ready.now aim ≡ Ok list
        → IsRun nf ready.now run sent → Assigns nf ready.now.sig aim.sorts values
        → AreNormalUnder nf ready.now.sig aim values → Meets nf run sent values aim.parts chosen
        → MeetsRoot nf ready.now.sig ready.now.strands run.instances list aim values run.schedule sent }
{
    let sorts = ready.protocol().sig.sorts();
    sorts.laws();
    let _pairs = sorts.pairs();
    unifier_laws();
    normalizing_laws();
    ready.laws();
    look_up(ready);
}

// Looks up the variants of each strand, so that they are known to be found.
fn look_up(ready: &Ready)
    ensures { (s : ℕ) (strand : Role) → slice_get ready.now.strands s ≡ Some strand
        → IsFound (theory_of ready.now) strand (found_variants ready.now strand) }
{
    ready.laws();
    let count = ready.protocol().strands.len() as u16;
    for s in 0..count {
        let _list = ready.strand_variants(s);
    }
}
