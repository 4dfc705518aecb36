//! Laws of pruned patterns, for the proofs of the crates above.

ghost use Rattle.std.specs.Prelude.{IsTrue, List};
ghost use Rattle.npa_term.specs.declared.term.Term.{Term};
ghost use Rattle.npa_term.specs.declared.term.Var.{Var as Variable};
ghost use Rattle.npa_sig.specs.Sorting.{well_sorted};
ghost use Rattle.npa_rewrite.specs.Rewriting.{GivesNormalForms};
ghost use Rattle.npa_rewrite.specs.Theories.{theory_of};
ghost use Rattle.npa_model.specs.declared.pattern.Pattern.{Pattern};
ghost use Rattle.npa_model.specs.declared.pattern.Standing.TheVariants.{Exactly};
ghost use Rattle.npa_model.specs.declared.run.Run.{Run};
ghost use Rattle.npa_model.specs.Aims.{IsRun};
ghost use Rattle.npa_model.specs.Covering.{Covers};
ghost use Rattle.npa_model.specs.Fitting.{IsFit};
ghost use Rattle.npa_model.specs.Meeting.{MeetsBy};
ghost use Rattle.npa_model.specs.Patterns.{IsTermOf};
ghost use Rattle.npa_prune.specs.declared.rule.PruneRule.{PruneRule as Rule};
ghost use Rattle.npa_prune.specs.Pruned.{IsPruned, Prunes};

use npa_close::fresh_laws;
use npa_variants::Ready;

/// Does nothing: no run meets a pruned pattern, whatever function has the normal forms. A rule that
/// prunes a pattern prunes each well-sorted pattern that it covers.
pub fn prune_laws(ready: &Ready)
    ensures unmet { (nf : Term → Term) (run : Run) (sent : List Term) (g : Pattern)
        (a : List (Variable × Term)) → GivesNormalForms (theory_of ready.now) nf
        → IsRun nf ready.now run sent → IsFit ready.now g → IsPruned ready.now g
        → MeetsBy nf ready.now.strands run.instances run.schedule Exactly ready.now.sig sent g a → ⊥ }
    ensures covered { (t s : Pattern) (rule : Rule) → IsFit ready.now t
        → ((u : Term) → IsTermOf s u → IsTrue (well_sorted ready.now.sig u))
        → Covers ready.now.sig.sorts t s → Prunes ready.now rule t → Prunes ready.now rule s }
{
    let sorts = ready.protocol().sig.sorts();
    sorts.laws();
    ready.laws();
    fresh_laws(ready);
}
