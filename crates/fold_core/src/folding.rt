ghost use Rattle.std.specs.Prelude.{◌≡◌, ◌↔◌, IsTrue, IfOk};
ghost use Rattle.fold_core.specs.Rules.{Rules, Lawful, Expands};

use crate::error::{ExpandFail, NoMemory};
use npa_list::List;
use std::alloc::Global;

/// The rules of a search: what its items are, when one covers another, when one is initial, and
/// which items one expands to. Two values of rules that are `same` have the same meaning.
pub trait Folding: Sized {
    type Item: Drop;

    // What the calls below mean: covers, initial and expansion.
    ghost rules: { Self → Rules Self.Item };

    /// The same rules once more.
    fn copy(&self, alloc: Global) -> Result<Self, NoMemory>
        ensures { IfOk result (λ made. made ≡ self.now) };

    /// Whether both are exactly equal.
    fn same(&self, other: &Self) -> bool
        ensures { IsTrue result ↔ (self.now ≡ other.now) };

    /// The same item once more.
    fn copy_item(alloc: Global, item: &Self::Item) -> Result<Self::Item, NoMemory>
        ensures { IfOk result (λ made. made ≡ item.now) };

    /// Whether both items are exactly equal.
    fn same_item(a: &Self::Item, b: &Self::Item) -> bool
        ensures { IsTrue result ↔ (a.now ≡ b.now) };

    /// Whether `t` covers `s`.
    fn covers(&self, alloc: Global, t: &Self::Item, s: &Self::Item) -> Result<bool, NoMemory>
        ensures { IfOk result (λ b. b ≡ (rules self.now).covers t.now s.now) };

    /// Whether the search is at its goal with this item.
    fn initial(&self, item: &Self::Item) -> bool
        ensures { result ≡ (rules self.now).initial item.now };

    /// The children of the item, in order, or the first that is past a limit.
    fn expand(&self, alloc: Global, item: &Self::Item) -> Result<List<Self::Item>, ExpandFail>
        ensures { Expands result ((rules self.now).expansion item.now) };

    // Covers is reflexive and transitive, and what covers an initial item is initial.
    ghost lawful: { (f : Self) → Lawful (rules f) };
}
