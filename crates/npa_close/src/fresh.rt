ghost use Rattle.std.specs.Prelude.{List};
ghost use Rattle.npa_term.specs.declared.term.Term.{Term};
ghost use Rattle.npa_rewrite.specs.Rewriting.{GivesNormalForms};
ghost use Rattle.npa_rewrite.specs.Theories.{theory_of};
ghost use Rattle.npa_model.specs.declared.run.Instance.{Instance};
ghost use Rattle.npa_model.specs.Freshness.{AreOriginating};
ghost use Rattle.npa_model.specs.Instances.{AreInstances};
ghost use Rattle.npa_close.specs.Fresh.{IsUnheard, IsUnsent};

use npa_model::freshness_laws;
use npa_variants::Ready;

/// Does nothing: its clauses say where fresh names come from in the runs of a protocol that is ready,
/// whatever function has the normal forms. Every instance originates; so while an instance has sent
/// nothing, its fresh names are nowhere else.
pub fn fresh_laws(ready: &Ready)
    ensures originating { (nf : Term → Term) (instances : List Instance)
        → GivesNormalForms (theory_of ready.now) nf
        → AreInstances nf ready.now.sig ready.now.strands instances
        → AreOriginating nf ready.now.strands instances }
    ensures unsent { (nf : Term → Term) (instances : List Instance)
        → GivesNormalForms (theory_of ready.now) nf
        → AreInstances nf ready.now.sig ready.now.strands instances
        → IsUnsent nf ready.now.strands instances }
    ensures unheard { (nf : Term → Term) (instances : List Instance)
        → GivesNormalForms (theory_of ready.now) nf
        → AreInstances nf ready.now.sig ready.now.strands instances
        → IsUnheard nf ready.now.strands instances }
{
    ready.laws();
    freshness_laws();
}
