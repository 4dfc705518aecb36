ghost use Rattle.std.specs.Prelude.{◌≡◌, ◌<◌, length, Ok, Err, IfOk};
ghost use Rattle.fold_core.specs.Rules.{Expands};
ghost use Rattle.fold_core.specs.Machine.{Stands};
ghost use Rattle.fold_store.specs.Work.{Expansion, MadeOf};

use fold_core::{ExpandFail, Folding};
use npa_list::List;
use std::alloc::Global;
use std::marker::Model;

/// An item's expansion: the rules, the item and its children. It is made apart from the store, so
/// that no lock is held meanwhile.
#[derive(Drop)]
pub struct Work<'a, F: Folding> {
    rules: &'a F,
    item: F::Item,
    children: List<F::Item>,
}

impl<'a, F: Folding> Model for Work<'a, F> {
    ghost use Rattle.std.specs.Prelude.{◌≡◌, Ok};
    ghost use Rattle.fold_store.specs.Work.{Expansion};

    ghost Value = { Expansion F F.Item };

    ghost view = { λ w. record { rules = w.rules.now; item = w.item; children = w.children } };

    ghost invariant = { λ w. (F.rules w.rules.now).expansion w.item ≡ Ok w.children };
}

impl<'a, F: Folding> Work<'a, F> {
    /// The expansion of an item. It is refused as `expand` refuses it.
    pub fn make(alloc: Global, rules: &'a F, item: F::Item) -> Result<Work<'a, F>, ExpandFail>
        ensures { MadeOf (F.rules rules.now) rules.now item result }
    {
        let children = rules.expand(alloc, &item)?;
        Ok(Work {
            rules,
            item,
            children,
        })
    }

    /// How many children the item has.
    pub fn children(&self) -> u64
        ensures number { result ≡ length self.now.children }
        ensures expands { (F.rules self.now.rules).expansion self.now.item ≡ Ok self.now.children }
    {
        self.children.len() as u64
    }

    /// The rules by which it was made.
    pub(crate) fn rules(&self) -> &F
        ensures { result.now ≡ self.now.rules }
    {
        self.rules
    }

    /// The item that is expanded.
    pub(crate) fn item(&self) -> &F::Item
        ensures { result.now ≡ self.now.item }
    {
        &self.item
    }

    /// The child of this number.
    pub(crate) fn child(&self, number: u64) -> &F::Item
        requires { number < length self.now.children }
        ensures stands { Stands self.now.children number result.now }
        ensures expands { (F.rules self.now.rules).expansion self.now.item ≡ Ok self.now.children }
    {
        &self.children.as_slice()[number as usize]
    }
}
