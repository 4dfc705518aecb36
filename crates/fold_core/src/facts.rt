//! What holds of the machine after every history, whatever the rules are. The functions do
//! nothing: the contract of each is the fact.

ghost use Rattle.fold_core.specs.Facts.{Always, Pointers, Chains, NoDouble, Origins, Handled, Counts, FindsInitial, FoldsInitial, DoneIsClosed, OneState};

use crate::folding::Folding;

/// A history leads to one state, so each event says what becomes of the state before it.
pub fn one_state<F: Folding>()
    ensures { (f : F) → Always (F.rules f) (λ roots budget history core. OneState (F.rules f) roots budget history core) }
{}

/// Each retired entry points to a later entry, which covers it and is live or was retired at the
/// same event or a later one.
pub fn pointers<F: Folding>()
    ensures { (f : F) → Always (F.rules f) (λ roots budget history core. Pointers (F.rules f) core.entries) }
{}

/// Each chain of pointers ends in a live entry that covers its start, so no pruning is circular.
pub fn chains<F: Folding>()
    ensures { (f : F) → Always (F.rules f) (λ roots budget history core. Chains (F.rules f) core.entries) }
{}

/// No live entry covers another live entry.
pub fn no_double<F: Folding>()
    ensures { (f : F) → Always (F.rules f) (λ roots budget history core. NoDouble (F.rules f) core.entries) }
{}

/// Each entry's item is a root or a child of its parent's expansion.
pub fn origins<F: Folding>()
    ensures { (f : F) → Always (F.rules f) (λ roots budget history core. Origins (F.rules f) roots core.entries) }
{}

/// Each child of a live finished entry is covered by a live entry, also where a cover was retired
/// between two inserts of one expansion, and where an entry was retired while it was taken.
pub fn handled<F: Folding>()
    ensures { (f : F) → Always (F.rules f) (λ roots budget history core. Handled (F.rules f) core.entries) }
{}

/// Finished is the number of finish events, which are on different entries, and at most the budget.
pub fn counts<F: Folding>()
    ensures { (f : F) → Always (F.rules f) (λ roots budget history core. Counts budget history core) }
{}

/// Found is set exactly where an initial item was kept, to the first such, and an initial item
/// that is folded is folded into an initial entry.
pub fn found<F: Folding>()
    ensures kept { (f : F) → Always (F.rules f) (λ roots budget history core. FindsInitial (F.rules f) core) }
    ensures folded { (f : F) → FoldsInitial (F.rules f) }
{}

/// Where all roots were placed, nothing was found, the search isn't halted and every live entry is
/// finished, each root and each child of a live entry is covered by a live entry, and no live
/// entry is initial.
pub fn done<F: Folding>()
    ensures { (f : F) → Always (F.rules f) (λ roots budget history core. DoneIsClosed (F.rules f) roots history core) }
{}
