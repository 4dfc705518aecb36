//! Laws of closed lists of patterns, for the proofs of the crates above.

ghost use Rattle.std.specs.Prelude.{◌≡◌, ◌↔◌, Contains, List as ListOf, Ok};
ghost use Rattle.npa_term.specs.declared.term.Term.{Term as Tree};
ghost use Rattle.npa_term.specs.declared.term.Var.{Var as Variable};
ghost use Rattle.npa_rewrite.specs.Rewriting.{GivesNormalForms};
ghost use Rattle.npa_rewrite.specs.Theories.{theory_of};
ghost use Rattle.npa_model.specs.declared.aim.Aim.{Aim as Goal};
ghost use Rattle.npa_model.specs.declared.pattern.Pattern.{Pattern as State};
ghost use Rattle.npa_model.specs.declared.pattern.Standing.TheVariants.{Exactly};
ghost use Rattle.npa_model.specs.declared.run.Run.{Run};
ghost use Rattle.npa_model.specs.Accepted.{IsAccepted};
ghost use Rattle.npa_model.specs.Aims.{IsRun, Reaches};
ghost use Rattle.npa_model.specs.Meeting.{MeetsBy};
ghost use Rattle.npa_model.specs.WellFormed.{IsPlainAim, IsWellFormedAim};
ghost use Rattle.npa_moves.specs.declared.step.Root.{Root as Begin};
ghost use Rattle.npa_moves.specs.Roots.{roots_in};
ghost use Rattle.npa_closed.specs.Closed.{HasLists, IsClosed, IsListClosed};

use npa_moved::{fit_laws, sound_root_laws, sound_step_laws};
use npa_moves::{root_laws, step_laws};
use npa_prune::prune_laws;
use npa_rewrite::normalizing_laws;
use npa_variants::Ready;

/// Does nothing: where a list of patterns is closed for an aim, no run meets a member of it, none meets
/// a root of the aim, and none reaches the aim where it is accepted, whatever function has the normal
/// forms.
pub fn closed_laws(ready: &Ready)
    ensures members { (nf : Tree → Tree) (aim : Goal) (members : ListOf State) (m : State) (run : Run)
        (sent : ListOf Tree) (a : ListOf (Variable × Tree)) → GivesNormalForms (theory_of ready.now) nf
        → IsListClosed ready.now aim members → Contains members m → IsRun nf ready.now run sent
        → MeetsBy nf ready.now.strands run.instances run.schedule Exactly ready.now.sig sent m a → ⊥ }
    ensures roots { (nf : Tree → Tree) (aim : Goal) (members : ListOf State) (list : ListOf Begin)
        (root : Begin) (run : Run) (sent : ListOf Tree) (a : ListOf (Variable × Tree))
        → GivesNormalForms (theory_of ready.now) nf
        → IsWellFormedAim ready.now.sig ready.now.strands aim → IsPlainAim aim
        → IsListClosed ready.now aim members → roots_in ready.now aim ≡ Ok list → Contains list root
        → IsRun nf ready.now run sent
        → MeetsBy nf ready.now.strands run.instances run.schedule Exactly ready.now.sig sent root.pattern a → ⊥ }
    ensures unreached { (nf : Tree → Tree) (aim : Goal) (members : ListOf State) (run : Run)
        → GivesNormalForms (theory_of ready.now) nf
        → IsWellFormedAim ready.now.sig ready.now.strands aim → IsPlainAim aim
        → IsAccepted (theory_of ready.now) aim → IsListClosed ready.now aim members
        → Reaches nf ready.now aim run → ⊥ }
{
    ready.laws();
    normalizing_laws();
    prune_laws(ready);
    fit_laws(ready);
    root_laws(ready);
    step_laws(ready);
}

/// Does nothing: a list is closed for a well-formed aim without fresh names exactly where it is closed
/// whatever a search for unifiers finds, and no list of roots or of a member's steps is too large.
pub fn any_unifier_laws(ready: &Ready)
    ensures { (aim : Goal) (members : ListOf State)
        → IsWellFormedAim ready.now.sig ready.now.strands aim → IsPlainAim aim
        → IsListClosed ready.now aim members
        ↔ (IsClosed ready.now aim members × HasLists ready.now aim members) }
{
    prune_laws(ready);
    fit_laws(ready);
    sound_root_laws(ready);
    sound_step_laws(ready);
    root_laws(ready);
    step_laws(ready);
}
