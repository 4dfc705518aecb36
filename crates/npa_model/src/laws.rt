//! Laws of runs. Each function does nothing: its clauses are the laws, for the proofs of the
//! crates above.

ghost use Rattle.std.specs.Prelude.{◌≡◌, ◌↔◌, ℕ, true, [], None, List, Result, Contains, map};
ghost use Rattle.npa_term.specs.declared.term.Term.{Term};
ghost use Rattle.npa_term.specs.Parts.{least_sort};
ghost use Rattle.npa_sig.specs.declared.protocol.Strand.{Strand};
ghost use Rattle.npa_sig.specs.declared.protocol.Protocol.{Protocol};
ghost use Rattle.npa_sig.specs.Signature.{Signature};
ghost use Rattle.npa_model.specs.declared.aim.Aim.{Aim};
ghost use Rattle.npa_model.specs.declared.run.Instance.{Instance};
ghost use Rattle.npa_model.specs.declared.run.Run.{Run};
ghost use Rattle.npa_model.specs.declared.run.Cause.{Cause};
ghost use Rattle.npa_model.specs.declared.run.RunFail.{RunFail};
ghost use Rattle.npa_model.specs.Runs.{Happens, Executes, BreaksAt};
ghost use Rattle.npa_model.specs.WellFormed.{IsWellFormedAim};
ghost use Rattle.npa_sig.specs.Sorting.{IsGroundTerm, all_below};
ghost use Rattle.npa_sig.specs.Values.{under};
ghost use Rattle.npa_sig.specs.WellFormed.{IsTermOver, IsWellFormedProtocol};
ghost use Rattle.npa_rewrite.specs.declared.theory.Theory.{Theory};
ghost use Rattle.npa_rewrite.specs.Innermost.{normalized};
ghost use Rattle.npa_rewrite.specs.Rewriting.{AllCancel, GivesNormalForms, IsConvergent};
ghost use Rattle.npa_model.specs.Instances.{AreApart, AreGroundTerms, AreInstances, Starts, first_again, start_fault};
ghost use Rattle.npa_model.specs.State.{State, Steps};
ghost use Rattle.npa_model.specs.Aims.{IsRun, Reaches, Misses, Breaks};

/// A step has one outcome, and a schedule that is executed sends one list of terms.
pub fn execution_laws()
    ensures one_outcome { (nf : Term → Term) (strands : List Strand) (instances : List Instance) (done : ℕ) (sent : List Term) (i : ℕ) (r s : Result (List Term) Cause) → Happens nf strands instances done sent i r → Happens nf strands instances done sent i s → r ≡ s }
    ensures one_list { (nf : Term → Term) (strands : List Strand) (instances : List Instance) (schedule : List ℕ) (sent told : List Term) → Executes nf strands instances schedule sent → Executes nf strands instances schedule told → sent ≡ told }
{}

/// A schedule breaks at one step at most, for one cause, and not where it is executed whole.
pub fn break_laws()
    ensures one_break { (nf : Term → Term) (strands : List Strand) (instances : List Instance) (schedule : List ℕ) (j k : ℕ) (why because : Cause) → BreaksAt nf strands instances schedule j why → BreaksAt nf strands instances schedule k because → (j ≡ k) × (why ≡ because) }
    ensures whole { (nf : Term → Term) (strands : List Strand) (instances : List Instance) (schedule : List ℕ) (sent : List Term) (j : ℕ) (why : Cause) → Executes nf strands instances schedule sent → BreaksAt nf strands instances schedule j why → ⊥ }
{}

/// A run begins with its instances where these have no fault, and only there.
pub fn instance_laws()
    ensures apart { (names : List ℕ) → AreApart names ↔ (first_again [] names ≡ None) }
    ensures faultless { (nf : Term → Term) (sig : Signature) (strands : List Strand) (instances : List Instance) → AreInstances nf sig strands instances → start_fault nf sig strands instances ≡ None }
    ensures instances { (nf : Term → Term) (sig : Signature) (strands : List Strand) (instances : List Instance) → AreGroundTerms sig instances → start_fault nf sig strands instances ≡ None → AreInstances nf sig strands instances }
{}

/// A run reaches an aim, breaks or misses a part, and no two of these. It breaks at one step, for
/// one cause, and misses one part.
pub fn outcome_laws()
    ensures runs_or_breaks { (nf : Term → Term) (protocol : Protocol) (run : Run) (sent : List Term) (j : ℕ) (why : Cause) → IsRun nf protocol run sent → Breaks nf protocol run j why → ⊥ }
    ensures reaches_or_misses { (nf : Term → Term) (protocol : Protocol) (aim : Aim) (run : Run) (k : ℕ) → Reaches nf protocol aim run → Misses nf protocol aim run k → ⊥ }
    ensures breaks_once { (nf : Term → Term) (protocol : Protocol) (run : Run) (j k : ℕ) (why because : Cause) → Breaks nf protocol run j why → Breaks nf protocol run k because → (j ≡ k) × (why ≡ because) }
    ensures misses_once { (nf : Term → Term) (protocol : Protocol) (aim : Aim) (run : Run) (j k : ℕ) → Misses nf protocol aim run j → Misses nf protocol aim run k → j ≡ k }
{}

/// Functions that have the same normal forms of ground terms make the same runs of a well-formed
/// protocol, which break at the same steps and reach or miss the same aims.
pub fn form_laws()
    ensures runs { (protocol : Protocol) (nf mf : Term → Term) (run : Run) (sent : List Term) → IsWellFormedProtocol protocol → ((t : Term) → IsGroundTerm protocol.sig t → nf t ≡ mf t) → IsRun nf protocol run sent → IsRun mf protocol run sent }
    ensures breaks { (protocol : Protocol) (nf mf : Term → Term) (run : Run) (j : ℕ) (why : Cause) → IsWellFormedProtocol protocol → ((t : Term) → IsGroundTerm protocol.sig t → nf t ≡ mf t) → AreGroundTerms protocol.sig run.instances → Breaks nf protocol run j why → Breaks mf protocol run j why }
    ensures reaches { (protocol : Protocol) (nf mf : Term → Term) (aim : Aim) (run : Run) → IsWellFormedProtocol protocol → ((t : Term) → IsGroundTerm protocol.sig t → nf t ≡ mf t) → IsWellFormedAim protocol.sig protocol.strands aim → Reaches nf protocol aim run → Reaches mf protocol aim run }
    ensures misses { (protocol : Protocol) (nf mf : Term → Term) (aim : Aim) (run : Run) (k : ℕ) → IsWellFormedProtocol protocol → ((t : Term) → IsGroundTerm protocol.sig t → nf t ≡ mf t) → IsWellFormedAim protocol.sig protocol.strands aim → Misses nf protocol aim run k → Misses mf protocol aim run k }
{}

/// What `start`, `step_run` and `message` answer is so by each function that has the normal forms: where
/// two functions have the same normal forms of ground terms, a run of a well-formed protocol begins
/// alike by both, a step of it does the same, and a message under ground values of the right sorts has
/// one normal form. In a convergent theory whose equations cancel, each function that has the normal
/// forms has the one that is made.
pub fn state_laws()
    ensures starts { (protocol : Protocol) (nf mf : Term → Term) (instances : List Instance) (result : Result State RunFail) → ((t : Term) → IsGroundTerm protocol.sig t → nf t ≡ mf t) → AreGroundTerms protocol.sig instances → Starts nf protocol.sig protocol.strands instances result → Starts mf protocol.sig protocol.strands instances result }
    ensures steps { (protocol : Protocol) (nf mf : Term → Term) (instances : List Instance) (old new : State) (i : ℕ) (result : Result (Unit {0}) RunFail) → IsWellFormedProtocol protocol → ((t : Term) → IsGroundTerm protocol.sig t → nf t ≡ mf t) → AreInstances nf protocol.sig protocol.strands instances → Steps nf protocol.strands instances old new i result → Steps mf protocol.strands instances old new i result }
    ensures messages { (sig : Signature) (nf mf : Term → Term) (sorts : List ℕ) (values : List Term) (t : Term) → ((u : Term) → IsGroundTerm sig u → nf u ≡ mf u) → all_below sig (map least_sort values) sorts ≡ true → ((u : Term) → Contains values u → IsGroundTerm sig u) → IsTermOver sig sorts t → nf (under values t) ≡ mf (under values t) }
    ensures made { (th : Theory) (nf : Term → Term) (t : Term) → AllCancel th → IsConvergent th → GivesNormalForms th nf → IsGroundTerm th.sig t → normalized th t ≡ nf t }
{}
