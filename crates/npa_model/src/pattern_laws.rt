//! Laws of runs that meet patterns. Each function does nothing: its clauses are the laws, for the
//! proofs of the crates above.

ghost use Rattle.std.specs.Prelude.{◌≡◌, ◌↔◌, ◌+◌, ◌<◌, ℕ, false, List, [], Some, Contains, slice_get};
ghost use Rattle.npa_sorts.specs.Subsorts.{Subsorts};
ghost use Rattle.npa_term.specs.declared.term.Term.{Term, Name};
ghost use Rattle.npa_term.specs.declared.term.Var.{Var as Variable};
ghost use Rattle.npa_term.specs.Parts.{IsPart};
ghost use Rattle.npa_sig.specs.declared.protocol.Event.{Event};
ghost use Rattle.npa_sig.specs.declared.protocol.Strand.{Strand};
ghost use Rattle.npa_sig.specs.Operators.{PairsCommute};
ghost use Rattle.npa_sig.specs.Signature.{Signature};
ghost use Rattle.npa_rewrite.specs.declared.theory.Theory.{Theory};
ghost use Rattle.npa_rewrite.specs.Innermost.{normalized};
ghost use Rattle.npa_rewrite.specs.Rewriting.{AllCancel};
ghost use Rattle.npa_model.specs.declared.aim.Part.{Part};
ghost use Rattle.npa_model.specs.declared.pattern.PStrand.{PStrand};
ghost use Rattle.npa_model.specs.declared.pattern.Pattern.{Pattern};
ghost use Rattle.npa_model.specs.declared.pattern.Standing.{Standing};
ghost use Rattle.npa_model.specs.declared.pattern.Standing.TheVariants.{AtLeast, Exactly};
ghost use Rattle.npa_model.specs.declared.run.Instance.{Instance};
ghost use Rattle.npa_model.specs.declared.run.Run.{Run};
ghost use Rattle.npa_model.specs.Aims.{Meets};
ghost use Rattle.npa_model.specs.Asking.{asked};
ghost use Rattle.npa_model.specs.Backward.{BeforeReceive, IsShorter, LastStep, NoReceive, Without};
ghost use Rattle.npa_model.specs.Covering.{Covers, DoesBoth, IsCover};
ghost use Rattle.npa_model.specs.Freshness.{AreOriginating, HasSent, fresh_of};
ghost use Rattle.npa_model.specs.Instances.{AreApart, AreInstances, fresh_names};
ghost use Rattle.npa_model.specs.Meeting.{MeetsBy, MeetsGround};
ghost use Rattle.npa_model.specs.Patterns.{IsInitial, events_at};
ghost use Rattle.npa_model.specs.Runs.{Executes, Next, executions, message_of};

/// The message of an event that was executed was sent. The last event of an instance can be left
/// out of a schedule where it received: nothing else depends on it.
pub fn schedule_laws()
    ensures executed { (nf : Term → Term) (strands : List Strand) (instances : List Instance)
        (schedule : List ℕ) (sent : List Term) (n place : ℕ) (instance : Instance) (event : Event)
        → Executes nf strands instances schedule sent → place < executions n schedule
        → Next nf strands instances place n instance event
        → Contains sent (message_of nf strands instances instance event) }
    ensures without { (nf : Term → Term) (strands : List Strand) (instances : List Instance)
        (schedule : List ℕ) (sent : List Term) (n done : ℕ) (instance : Instance) (event : Event)
        → Executes nf strands instances schedule sent → executions n schedule ≡ done + 1
        → Next nf strands instances done n instance event → event.sent ≡ false
        → Without nf strands instances schedule sent n done }
{}

/// A run that meets a ground pattern has a run with one step less that meets an earlier one. Where
/// the last event of a strand received, it is the pattern before this receive. Where no strand
/// received last and the pattern isn't initial, it is the pattern before the run's last step: the
/// same one, or the one before a strand sent, or the one that another instance's send adds to.
pub fn backward_laws()
    ensures receive { (nf : Term → Term) (strands : List Strand) (instances : List Instance)
        (schedule : List ℕ) (sent : List Term) (g : Pattern) (chosen : List ℕ)
        (k bar : ℕ) (p : PStrand) (event : Event) (m : Term)
        → Executes nf strands instances schedule sent
        → MeetsGround nf strands instances schedule Exactly sent g chosen
        → slice_get g.strands k ≡ Some p → p.bar ≡ bar + 1
        → slice_get (events_at strands p.strand) bar ≡ Some event → event.sent ≡ false
        → slice_get p.msgs bar ≡ Some m
        → BeforeReceive nf strands instances schedule sent g chosen k p bar m }
    ensures last { (nf : Term → Term) (strands : List Strand) (instances : List Instance)
        (schedule : List ℕ) (sent : List Term) (g : Pattern) (chosen : List ℕ)
        → NoReceive strands g → Executes nf strands instances schedule sent
        → MeetsGround nf strands instances schedule Exactly sent g chosen → (IsInitial g → ⊥)
        → LastStep nf strands instances schedule sent g chosen }
    ensures at_least { (nf : Term → Term) (strands : List Strand) (instances : List Instance)
        (schedule : List ℕ) (sent : List Term) (g : Pattern) (chosen : List ℕ)
        → MeetsGround nf strands instances schedule Exactly sent g chosen
        → MeetsGround nf strands instances schedule AtLeast sent g chosen }
    ensures longer { (nf : Term → Term) (strands : List Strand) (instances : List Instance)
        (schedule rest : List ℕ) (sent told : List Term) (g : Pattern) (chosen : List ℕ)
        → IsShorter schedule rest sent told → g.unknown ≡ []
        → MeetsGround nf strands instances rest AtLeast told g chosen
        → MeetsGround nf strands instances schedule AtLeast sent g chosen }
{}

/// A fresh name is the value of one fresh parameter of one instance of a run. Where every instance
/// originates, and the instance that declares a name has sent nothing, the name stands in no term
/// that was sent and in no message of an executed event.
pub fn freshness_laws()
    ensures apart { (strands : List Strand) (instances : List Instance) (i j k l n : ℕ)
        (a b : Instance) → AreApart (fresh_names strands instances)
        → slice_get instances i ≡ Some a → slice_get instances j ≡ Some b
        → slice_get (fresh_of strands a) k ≡ Some (Name n)
        → slice_get (fresh_of strands b) l ≡ Some (Name n) → (i ≡ j) × (k ≡ l) }
    ensures unsent { (nf : Term → Term) (strands : List Strand) (instances : List Instance)
        (schedule : List ℕ) (sent : List Term) (k n : ℕ) (instance : Instance) (t : Term)
        → AreOriginating nf strands instances → AreApart (fresh_names strands instances)
        → Executes nf strands instances schedule sent → slice_get instances k ≡ Some instance
        → (HasSent nf strands instances schedule k → ⊥)
        → Contains (fresh_of strands instance) (Name n) → Contains sent t → IsPart (Name n) t → ⊥ }
    ensures unheard { (nf : Term → Term) (strands : List Strand) (instances : List Instance)
        (schedule : List ℕ) (sent : List Term) (k n : ℕ) (instance : Instance)
        (m place : ℕ) (other : Instance) (event : Event)
        → AreOriginating nf strands instances → AreApart (fresh_names strands instances)
        → Executes nf strands instances schedule sent → slice_get instances k ≡ Some instance
        → (HasSent nf strands instances schedule k → ⊥)
        → Contains (fresh_of strands instance) (Name n) → place < executions m schedule
        → Next nf strands instances place m other event
        → IsPart (Name n) (message_of nf strands instances other event) → ⊥ }
{}

/// Covers is reflexive and transitive, and what covers an initial pattern is initial. A run that
/// meets a pattern meets each pattern that covers it, by each substitution that does to its
/// variables what the cover's and the assignment do one after the other.
pub fn cover_laws()
    ensures reflexive { (o : Subsorts) (t : Pattern) → Covers o t t }
    ensures transitive { (o : Subsorts) (t s r : Pattern) → Covers o t s → Covers o s r
        → Covers o t r }
    ensures initial { (o : Subsorts) (t s : Pattern) → Covers o t s → IsInitial s → IsInitial t }
    ensures meets { (th : Theory) (strands : List Strand) (instances : List Instance)
        (schedule : List ℕ) (standing : Standing) (sent : List Term) (t s : Pattern)
        (u a w : List (Variable × Term)) (at : List ℕ) → AllCancel th → PairsCommute th.sig
        → IsCover th.sig.sorts t s u at → DoesBoth t u a w
        → MeetsBy (normalized th) strands instances schedule standing th.sig sent s a
        → MeetsBy (normalized th) strands instances schedule standing th.sig sent t w }
{}

/// A run meets the parts of an aim by an assignment exactly where it meets the ground pattern that
/// they ask for, with the same instances.
pub fn asking_laws()
    ensures { (th : Theory) (sig : Signature) (strands : List Strand) (run : Run)
        (sent values : List Term) (parts : List Part) (chosen : List ℕ) → AllCancel th
        → AreInstances (normalized th) sig strands run.instances
        → Meets (normalized th) run sent values parts chosen
        ↔ MeetsGround (normalized th) strands run.instances run.schedule Exactly sent
        (asked (normalized th) strands values parts) chosen }
{}
