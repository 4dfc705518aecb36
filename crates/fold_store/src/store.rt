ghost use Rattle.std.specs.Prelude.{◌≡◌, ◌<◌, ◌≤◌, ◌↔◌, ℕ, length, None, IsSome, IfOk, OnOk, OnErr};
ghost use Rattle.std.specs.Option.{option_copied};
ghost use Rattle.std.specs.Result.{IsErrOf};
ghost use Rattle.fold_core.specs.declared.event.Event.TheVariants.{Insert, Halt, Reset};
ghost use Rattle.fold_core.specs.Machine.{Entry, Stands, LiveCover, Overflowing, After, roots_placed};
ghost use Rattle.fold_core.specs.Facts.{Leads};
ghost use Rattle.fold_store.specs.Table.{most_entries, live_numbers};
ghost use Rattle.fold_store.specs.Store.{State, Next, Takes, item_at, IsFor, NoRoomFor, NoRoomForOne, HasVerdict, Finishes, Inserts, InsertsOnce, Opens, OpensFull, Opened};

use crate::answer::{Places, Taken, Verdict};
use crate::error::{InsertFail, StoreFail};
use crate::ledger::Ledger;
use crate::work::Work;
use fold_core::{Folding, Large, NoMemory, Origin, Placed};
use npa_list::List;
use std::alloc::Global;
use std::marker::Model;

/// A search's store: its rules, roots and budget, its entries by number from 0, and its history.
/// Entries are never removed. Contracts see all of it as a `State`, whose history begins with one
/// event for each root and has led the machine of `fold_core` to its state.
#[derive(Drop)]
pub struct Store<F: Folding> {
    ledger: Ledger<F>,
}

impl<F: Folding> Model for Store<F> {
    ghost use Rattle.fold_store.specs.Store.{State, Opens};

    ghost Value = { State F F.Item };

    ghost view = { λ s. s.ledger };

    ghost invariant = { λ s. Opens s.ledger.roots s.ledger.history };
}

impl<F: Folding> Store<F> {
    /// The store in which each root is placed, in order. It is full where a root must be kept and
    /// there are as many entries as a store may have.
    pub fn open(
        alloc: Global,
        rules: F,
        roots: List<F::Item>,
        budget: u32,
    ) -> Result<Store<F>, StoreFail>
    where
        F: Drop,
        requires { length roots < u32.MAX }
        ensures ok { IfOk result (Opened rules roots budget) }
        ensures full { IsErrOf result StoreFail.Full → OpensFull (F.rules rules) roots budget }
    {
        let mut ledger = Ledger::new(alloc, rules, roots, budget)?;
        for number in 0..ledger.roots() {
            ledger.place_root(alloc, number as u32)?;
        }
        Ok(Store { ledger })
    }

    /// The rules that the store owns.
    pub fn rules(&self) -> &F
        ensures { result.now ≡ self.now.rules }
    {
        self.ledger.rules()
    }

    /// Takes the least entry that waits, where nothing was found, the search isn't halted, and the
    /// taken and the finished entries together are fewer than the budget.
    pub fn take(&mut self) -> Taken
        ensures { Takes (F.rules self.old.rules) self.old result self.new }
    {
        self.ledger.take()
    }

    /// The item of an entry: `None` exactly where there is no such entry.
    pub fn item(&self, id: u32) -> Option<&F::Item>
        ensures { option_copied result ≡ item_at self.now.core.entries id }
    {
        self.ledger.item(id)
    }

    /// Places a child of the entry: it is folded into the least live entry that covers it, and
    /// where there is none it is kept under the next number, and retires the live entries that it
    /// covers. After a refusal the store is unchanged.
    pub fn insert(
        &mut self,
        alloc: Global,
        id: u32,
        work: &Work<'_, F>,
        child: u64,
    ) -> Result<Placed, InsertFail>
        requires { child < length work.now.children }
        ensures ok { IfOk result (λ p. Next (F.rules self.old.rules) self.old (Insert id child p) self.new) }
        ensures stranger { IsErrOf result InsertFail.Stranger ↔ (IsFor self.old id work.now → ⊥) }
        ensures full { IsErrOf result InsertFail.Full → NoRoomFor (F.rules self.old.rules) self.old work.now child }
        ensures err { OnErr result (self.new ≡ self.old) }
    {
        self.ledger.insert(alloc, id, work, child)
    }

    /// Finishes a taken entry by one event. A child is folded into the live entry that the hint of
    /// the same place leads to, where that covers it; any other child is inserted in the same
    /// event. After a refusal the entry is taken still, and the inserts that were made stand in
    /// the history, no child twice; a stranger changes nothing.
    pub fn finish(
        &mut self,
        alloc: Global,
        id: u32,
        work: &Work<'_, F>,
        hints: &Places,
    ) -> Result<(), InsertFail>
        ensures ok { OnOk result (Finishes (F.rules self.old.rules) id work.now.children hints.now self.old self.new) }
        ensures stranger { IsErrOf result InsertFail.Stranger ↔ (IsFor self.old id work.now → ⊥) }
        ensures full { IsErrOf result InsertFail.Full → NoRoomForOne (F.rules self.old.rules) self.new work.now }
        ensures kept { OnErr result (Inserts F.rules id self.old self.new) }
        ensures once { OnErr result (InsertsOnce F.rules id self.old self.new) }
        ensures same { IsErrOf result InsertFail.Stranger → self.new ≡ self.old }
    {
        self.ledger.finish(alloc, id, work, hints)
    }

    /// Halts the search, since the expansion of the taken entry is large as `why` says. Where it
    /// is halted already nothing changes.
    pub fn halt(&mut self, id: u32, why: Large)
        requires { Overflowing (F.rules self.old.rules) id why self.old.core }
        ensures first { self.old.core.halted ≡ None → Next (F.rules self.old.rules) self.old (Halt id why) self.new }
        ensures again { IsSome self.old.core.halted → self.new ≡ self.old }
    {
        self.ledger.halt(id, why);
    }

    /// Every taken live entry waits again; a retired one isn't taken any more.
    pub fn reset(&mut self) -> Result<(), NoMemory>
        ensures ok { OnOk result (Next (F.rules self.old.rules) self.old Reset self.new) }
        ensures err { OnErr result (self.new ≡ self.old) }
    {
        self.ledger.reset()
    }

    /// The live entry at the end of the pointers. It covers the item of the entry.
    pub fn follow(&self, id: u32) -> u32
        requires { id < length self.now.core.entries }
        ensures leads { Leads self.now.core.entries id result }
        ensures covers { (e : Entry F.Item) → Stands self.now.core.entries id e → LiveCover (F.rules self.now.rules) e.item result self.now.core.entries }
    {
        self.ledger.follow(id)
    }

    /// Where the item of an entry comes from.
    pub fn origin(&self, id: u32) -> Origin
        requires { id < length self.now.core.entries }
        ensures { (e : Entry F.Item) → Stands self.now.core.entries id e → result ≡ e.origin }
    {
        self.ledger.origin(id)
    }

    /// The numbers of the live entries, ascending.
    pub fn live(&self, alloc: Global) -> Result<Places, NoMemory>
        ensures { IfOk result (λ numbers. numbers ≡ live_numbers self.now.core.entries) }
    {
        Ok(List::from_slice(alloc, self.ledger.table().live())?)
    }

    /// How many entries there are.
    pub fn entries(&self) -> u32
        ensures { result ≡ length self.now.core.entries }
    {
        self.ledger.table().len()
    }

    /// How many expansions are finished.
    pub fn finished(&self) -> u32
        ensures { result ≡ self.now.core.finished }
    {
        self.ledger.finished()
    }

    /// How the search stands.
    pub fn verdict(&self) -> Verdict
        ensures { HasVerdict self.now.budget self.now.core result }
    {
        self.ledger.verdict()
    }

    /// What the type keeps: the history begins with one event for each root, and has led the
    /// machine to the state; so all that `fold_core` says of every history holds of it. It does
    /// nothing.
    pub fn runs(&self)
        ensures after { After (F.rules self.now.rules) self.now.roots self.now.budget self.now.history self.now.core }
        ensures opens { Opens self.now.roots self.now.history }
        ensures placed { roots_placed self.now.history ≡ length self.now.roots }
        ensures few { length self.now.core.entries ≤ most_entries }
    {
        self.ledger.runs();
    }
}
