ghost use Rattle.std.specs.Prelude.{◌≡◌, ◌≢◌, ◌<◌, ◌≤◌, ◌+◌, ◌↔◌, ℕ, [], ◌∷◌, ◌++◌, length, map, take, None, Some, IsTrue, IsSome, IfOk, IfSome, OnOk, OnErr};
ghost use Rattle.std.specs.Option.{option_copied};
ghost use Rattle.std.specs.Result.{IsErrOf};
ghost use Rattle.fold_core.specs.declared.event.Event.TheVariants.{Insert, Halt, Reset};
ghost use Rattle.fold_core.specs.Machine.{Entry, Core, Stands, LiveCover, Overflowing, empty, first_found, kept, placed, place_of, Step, After};
ghost use Rattle.fold_core.specs.Facts.{Leads};
ghost use Rattle.fold_store.specs.Table.{most_entries, clip_entry, TicksWithin};
ghost use Rattle.fold_store.specs.Store.{State, Next, event_of, MayPlace, NoRoom, Takes, item_at, IsFor, NoRoomFor, NoRoomForOne, HasVerdict, ChildOf, Settled, Closing, closed, Finishes, Inserts, InsertsOnce, RootsAlone, PlacesRoot, OpensFull};
ghost use Rattle.fold_store.specs.Hints.{HintSays};

use crate::answer::{Places, Taken, Verdict};
use crate::error::{InsertFail, StoreFail};
use crate::journal::Journal;
use crate::table;
use crate::table::Table;
use crate::work::Work;
use fold_core::{Event, Folding, Large, NoMemory, Origin, Placed, PlacedList};
use npa_list::List;
use std::alloc::Global;
use std::marker::Model;

/// A run of the machine: what the search began with, its events so far, and the state that they
/// led to.
#[derive(Drop)]
pub(crate) struct Ledger<F: Folding> {
    rules: F,
    roots: List<F::Item>,
    budget: u32,
    table: Table<F::Item>,
    /// The first entry whose item is initial.
    found: Option<u32>,
    /// What was past a limit, where the search was halted.
    halted: Option<Large>,
    /// How many expansions are finished.
    finished: u32,
    journal: Journal,
}

impl<F: Folding> Model for Ledger<F> {
    ghost use Rattle.fold_store.specs.Store.{State, Sound};

    ghost Value = { State F F.Item };

    ghost view = { λ l. record {
      rules = l.rules;
      roots = l.roots;
      budget = l.budget;
      history = l.journal.events;
      core = record { entries = l.table; found = l.found; halted = l.halted; finished = l.finished };
    } };

    ghost invariant = { λ l. Sound (F.rules l.rules) l.roots l.budget l.journal.events
        (record { entries = l.table; found = l.found; halted = l.halted; finished = l.finished }) l.journal.due };
}

/// The event by which an item of this origin is placed.
fn event_of(origin: Origin, placed: Placed) -> Event
    ensures { result ≡ event_of origin placed }
{
    match origin {
        Origin::Root(number) => Event::Root { number, placed },
        Origin::Child { parent, child } => Event::Insert {
            parent,
            child,
            placed,
        },
    }
}

/// What was found first, once entry `number` is kept.
fn first_found(found: Option<u32>, initial: bool, number: u32) -> Option<u32>
    ensures { result ≡ first_found found initial number }
{
    if found.is_none() && initial {
        Some(number)
    } else {
        found
    }
}

/// Forgets the events since the start, and brings the ticks down to it. Where there are none, no
/// entry is walked.
fn bring_down<I>(table: &mut Table<I>, journal: &mut Journal, start: usize)
    requires { TicksWithin (length journal.old.events) table.old }
    ensures table { table.new ≡ map (clip_entry start) table.old }
    ensures events { journal.new.events ≡ take start journal.old.events }
    ensures due { journal.new.due ≡ journal.old.due }
{
    if start < journal.len() {
        journal.truncate(start);
        table.clip(start as u64);
    }
}

impl<F: Folding> Ledger<F> {
    /// The beginning: no event yet.
    pub(crate) fn new(
        alloc: Global,
        rules: F,
        roots: List<F::Item>,
        budget: u32,
    ) -> Result<Ledger<F>, NoMemory>
    where
        F: Drop,
        ensures { IfOk result (λ l. l ≡ record { rules = rules; roots = roots; budget = budget; history = []; core = empty }) }
    {
        let mut journal = Journal::new(alloc);
        journal.promise(1)?;
        Ok(Ledger {
            rules,
            roots,
            budget,
            table: Table::new(alloc),
            found: None,
            halted: None,
            finished: 0,
            journal,
        })
    }

    /// The rules.
    pub(crate) fn rules(&self) -> &F
        ensures { result.now ≡ self.now.rules }
    {
        &self.rules
    }

    /// The entries.
    pub(crate) fn table(&self) -> &Table<F::Item>
        ensures { result.now ≡ self.now.core.entries }
    {
        &self.table
    }

    /// The item of an entry: `None` exactly where there is no such entry.
    pub(crate) fn item(&self, id: u32) -> Option<&F::Item>
        ensures { option_copied result ≡ item_at self.now.core.entries id }
    {
        match self.table.get(id) {
            Some(kept) => Some(kept.item()),
            None => None,
        }
    }

    /// How many expansions are finished.
    pub(crate) fn finished(&self) -> u32
        ensures { result ≡ self.now.core.finished }
    {
        self.finished
    }

    /// Takes the least entry that waits, where the search goes on and the budget allows it.
    pub(crate) fn take(&mut self) -> Taken
        ensures { Takes (F.rules self.old.rules) self.old result self.new }
    {
        if self.found.is_some() || self.halted.is_some() {
            return Taken::Stopped;
        }
        let Some(number) = self.table.first_waiting() else {
            return Taken::Nothing;
        };
        let left = (self.budget - self.finished) as usize;
        if self.table.taken() >= left {
            return Taken::Spent;
        }
        self.table.take(number);
        self.journal.note(Event::Take { entry: number });
        Taken::Got(number)
    }

    /// Writes an event that changes nothing else.
    fn write(&mut self, event: Event) -> Result<(), NoMemory>
        requires { Step (F.rules self.old.rules) self.old.roots self.old.budget self.old.history self.old.core event self.old.core }
        ensures ok { OnOk result (Next (F.rules self.old.rules) self.old event self.new) }
        ensures err { OnErr result (self.new ≡ self.old) }
    {
        self.journal.promise(1)?;
        self.journal.note(event);
        Ok(())
    }

    /// How many roots there are.
    pub(crate) fn roots(&self) -> usize
        ensures { result ≡ length self.now.roots }
    {
        self.roots.len()
    }

    /// Places the next root.
    pub(crate) fn place_root(&mut self, alloc: Global, number: u32) -> Result<(), StoreFail>
        requires within { number < length self.old.roots }
        requires alone { RootsAlone number self.old.history }
        ensures ok { OnOk result (PlacesRoot (F.rules self.old.rules) number self.old self.new) }
        ensures full { IsErrOf result StoreFail.Full → OpensFull (F.rules self.old.rules) self.old.roots self.old.budget }
    {
        let item = F::copy_item(alloc, &self.roots.as_slice()[number as usize])?;
        self.place(alloc, &item, Origin::Root(number))?;
        Ok(())
    }

    /// Keeps an item by the event.
    fn keep(
        &mut self,
        alloc: Global,
        item: &F::Item,
        origin: Origin,
        event: Event,
    ) -> Result<(), NoMemory>
        requires room { length self.old.core.entries < most_entries }
        requires step { Step (F.rules self.old.rules) self.old.roots self.old.budget self.old.history self.old.core event
            (kept (F.rules self.old.rules) (length self.old.history) item.now origin self.old.core) }
        ensures ok { OnOk result (Next (F.rules self.old.rules) self.old event self.new) }
        ensures err { OnErr result (self.new ≡ self.old) }
    {
        let copy = F::copy_item(alloc, item)?;
        let number = self.table.len();
        let tick = self.journal.len() as u64;
        self.journal.promise(3)?;
        match table::keep(alloc, &self.rules, &mut self.table, copy, origin, tick) {
            Ok(()) => {}
            Err(fail) => {
                self.journal.withdraw(3);
                return Err(fail);
            }
        }
        self.found = first_found(self.found, self.rules.initial(item), number);
        self.journal.note(event);
        Ok(())
    }

    /// Places an item by an event of its own.
    pub(crate) fn place(
        &mut self,
        alloc: Global,
        item: &F::Item,
        origin: Origin,
    ) -> Result<Placed, StoreFail>
        requires { MayPlace (F.rules self.old.rules) self.old origin item.now }
        ensures ok { IfOk result (λ p. Next (F.rules self.old.rules) self.old (event_of origin p) self.new) }
        ensures placed { IfOk result (λ p. (p ≡ place_of (F.rules self.old.rules) item.now self.old.core)
            × (self.new.core ≡ placed (F.rules self.old.rules) (length self.old.history) item.now origin p self.old.core)) }
        ensures full { IsErrOf result StoreFail.Full → NoRoom (F.rules self.old.rules) item.now self.old.core }
        ensures err { OnErr result (self.new ≡ self.old) }
    {
        if let Some(cover) = table::least_cover(alloc, &self.rules, &self.table, item)? {
            let placed = Placed::Folded(cover);
            self.write(event_of(origin, placed))?;
            return Ok(placed);
        }
        if self.table.is_full() {
            return Err(StoreFail::Full);
        }
        let placed = Placed::Kept(self.table.len());
        self.keep(alloc, item, origin, event_of(origin, placed))?;
        Ok(placed)
    }

    /// Whether the work is that of the entry, which is taken.
    fn is_for(&self, id: u32, work: &Work<'_, F>) -> bool
        ensures { IsTrue result ↔ IsFor self.now id work.now }
    {
        let Some(kept) = self.table.get(id) else {
            return false;
        };
        if !kept.status().is_taken() {
            return false;
        }
        if !F::same_item(kept.item(), work.item()) {
            return false;
        }
        self.rules.same(work.rules())
    }

    /// Places a child of a taken entry.
    pub(crate) fn insert(
        &mut self,
        alloc: Global,
        id: u32,
        work: &Work<'_, F>,
        child: u64,
    ) -> Result<Placed, InsertFail>
        requires { child < length work.now.children }
        ensures ok { IfOk result (λ p. Next (F.rules self.old.rules) self.old (Insert id child p) self.new) }
        ensures stranger { IsErrOf result InsertFail.Stranger ↔ (IsFor self.old id work.now → ⊥) }
        ensures full { IsErrOf result InsertFail.Full → NoRoomFor (F.rules self.old.rules) self.old work.now child }
        ensures err { OnErr result (self.new ≡ self.old) }
    {
        if !self.is_for(id, work) {
            return Err(InsertFail::Stranger);
        }
        let origin = Origin::Child { parent: id, child };
        let placed = self.place(alloc, work.child(child), origin)?;
        Ok(placed)
    }

    /// The live entry that the hint leads to, where it covers the item.
    fn hinted(
        &self,
        alloc: Global,
        item: &F::Item,
        hint: Option<u32>,
    ) -> Result<Option<u32>, NoMemory>
        ensures { IfOk result (HintSays (F.rules self.now.rules) item.now hint self.now.core.entries) }
    {
        let Some(number) = hint else {
            return Ok(None);
        };
        if number >= self.table.len() {
            return Ok(None);
        }
        let end = self.follow(number);
        let Some(kept) = self.table.get(end) else {
            return Ok(None);
        };
        if self.rules.covers(alloc, kept.item(), item)? {
            Ok(Some(end))
        } else {
            Ok(None)
        }
    }

    /// Places a child of a taken entry: where its hint is right nothing changes, else it is
    /// inserted.
    fn settle(
        &mut self,
        alloc: Global,
        item: &F::Item,
        parent: u32,
        child: u64,
        hint: Option<u32>,
    ) -> Result<Placed, StoreFail>
        requires { ChildOf (F.rules self.old.rules) self.old.core parent child item.now }
        ensures ok { IfOk result (λ p. Settled (F.rules self.old.rules) parent child item.now hint self.old p self.new) }
        ensures full { IsErrOf result StoreFail.Full → NoRoom (F.rules self.old.rules) item.now self.old.core }
        ensures err { OnErr result (self.new ≡ self.old) }
    {
        if let Some(into) = self.hinted(alloc, item, hint)? {
            return Ok(Placed::Folded(into));
        }
        self.place(alloc, item, Origin::Child { parent, child })
    }

    /// How many events there are.
    fn events(&self) -> usize
        ensures number { result ≡ length self.now.history }
        ensures after { After (F.rules self.now.rules) self.now.roots self.now.budget self.now.history self.now.core }
    {
        self.journal.len()
    }

    /// Lets the entry go by one event, which stands in place of those since the start.
    fn close(&mut self, id: u32, start: usize, places: PlacedList)
        requires { Closing (F.rules self.old.rules) self.old start id places }
        ensures { (e : Entry F.Item) → Stands self.old.core.entries id e → self.new ≡ closed self.old start id places e }
    {
        bring_down(&mut self.table, &mut self.journal, start);
        self.table.let_go(id);
        self.finished += 1;
        self.journal.note(Event::Finish { entry: id, places });
    }

    /// Finishes a taken entry, by one event that places its children: where the hint of a child
    /// is right it is folded, else it is inserted.
    pub(crate) fn finish(
        &mut self,
        alloc: Global,
        id: u32,
        work: &Work<'_, F>,
        hints: &Places,
    ) -> Result<(), InsertFail>
        ensures ok { OnOk result (Finishes (F.rules self.old.rules) id work.now.children hints.now self.old self.new) }
        ensures stranger { IsErrOf result InsertFail.Stranger ↔ (IsFor self.old id work.now → ⊥) }
        ensures full { IsErrOf result InsertFail.Full → NoRoomForOne (F.rules self.old.rules) self.new work.now }
        ensures kept { OnErr result (Inserts F.rules id self.old self.new) }
        ensures once { OnErr result (InsertsOnce F.rules id self.old self.new) }
        ensures same { IsErrOf result InsertFail.Stranger → self.new ≡ self.old }
    {
        if !self.is_for(id, work) {
            return Err(InsertFail::Stranger);
        }
        let start = self.events();
        let mut places = List::new(alloc);
        for child in 0..work.children() {
            let hint = hints.get(child as usize).copied();
            let placed = self.settle(alloc, work.child(child), id, child, hint)?;
            places.push(placed)?;
        }
        self.close(id, start, places);
        Ok(())
    }

    /// Halts the search, since the expansion of the entry is large as `why` says. Where it is
    /// halted already nothing changes.
    pub(crate) fn halt(&mut self, id: u32, why: Large)
        requires { Overflowing (F.rules self.old.rules) id why self.old.core }
        ensures first { self.old.core.halted ≡ None → Next (F.rules self.old.rules) self.old (Halt id why) self.new }
        ensures again { IsSome self.old.core.halted → self.new ≡ self.old }
    {
        if self.halted.is_some() {
            return;
        }
        self.halted = Some(why);
        self.journal.note(Event::Halt { entry: id, why });
    }

    /// What is taken waits again, or isn't taken any more where it is retired.
    pub(crate) fn reset(&mut self) -> Result<(), NoMemory>
        ensures ok { OnOk result (Next (F.rules self.old.rules) self.old Reset self.new) }
        ensures err { OnErr result (self.new ≡ self.old) }
    {
        self.journal.promise(self.table.taken() + 1)?;
        self.table.put_back();
        self.journal.note(Event::Reset);
        Ok(())
    }

    /// How the search stands.
    pub(crate) fn verdict(&self) -> Verdict
        ensures { HasVerdict self.now.budget self.now.core result }
    {
        if let Some(id) = self.found {
            return Verdict::Found(id);
        }
        if let Some(why) = self.halted {
            return Verdict::Halted(why);
        }
        if self.table.all_finished() {
            return Verdict::Done;
        }
        if self.finished == self.budget {
            return Verdict::Open;
        }
        Verdict::Running
    }

    /// The live entry at the end of the pointers.
    pub(crate) fn follow(&self, id: u32) -> u32
        requires { id < length self.now.core.entries }
        ensures leads { Leads self.now.core.entries id result }
        ensures covers { (e : Entry F.Item) → Stands self.now.core.entries id e → LiveCover (F.rules self.now.rules) e.item result self.now.core.entries }
    {
        self.table.follow(id)
    }

    /// Where the item of an entry comes from.
    pub(crate) fn origin(&self, id: u32) -> Origin
        requires { id < length self.now.core.entries }
        ensures { (e : Entry F.Item) → Stands self.now.core.entries id e → result ≡ e.origin }
    {
        match self.table.get(id) {
            Some(kept) => kept.origin(),
            None => unreachable!(),
        }
    }

    /// The rules, roots, budget, history and state are those of a run of the machine.
    pub(crate) fn runs(&self)
        ensures after { After (F.rules self.now.rules) self.now.roots self.now.budget self.now.history self.now.core }
        ensures few { length self.now.core.entries ≤ most_entries }
    {
        let _journal = &self.journal;
    }
}
