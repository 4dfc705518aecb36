//! The machine as a plain program over numbers: it runs a history event by event, and says where
//! an event isn't allowed. It is slow and simple, for small histories.

ghost use Rattle.std.specs.Prelude.{◌≡◌, ◌≢◌, ℕ, ◌+◌, ◌<◌, ◌≤◌, ◌↔◌, true, false, List, map, [], ◌∷◌, ◌++◌, length, slice_set, IsTrue, IfOk, IfSome, IfNone, OnOk, OnErr, MatchOption, slice_get};
ghost use Rattle.std.specs.Option.{option_copied};
ghost use Rattle.fold_core.specs.declared.event.Status.TheVariants.{Waiting};
ghost use Rattle.fold_core.specs.declared.event.Event.TheVariants.{Root, Take, Insert, Finish, Halt, Reset};
ghost use Rattle.fold_numbers.specs.Numbers.{numbers};
ghost use Rattle.fold_core.specs.Machine.{Entry, Core, Stands, LiveCover, empty, is_live, is_taken, least_cover, least_waiting, taken_count, overtaken, kept, placed, place_of, Accepts, Expanding, Overflowing, let_go, put_back_entry, roots_placed};
ghost use Rattle.fold_numbers.specs.Replay.{TakenItem, RanIn, RanAll, Puts, AfterIn};

use crate::numbers::{Numbers, covers_number};
use fold_core::{
    Event, Events, ExpandFail, Folding, Large, NoMemory, Origin, Placed, PlacedList, Status,
};
use npa_list::List;
use std::alloc::Global;
use std::marker::Model;

/// A kept number, where it comes from and how far it has come.
#[derive(Debug, Drop)]
pub struct Kept {
    item: u64,
    origin: Origin,
    status: Status,
}

impl Model for Kept {
    ghost use Rattle.std.specs.Prelude.{ℕ};
    ghost use Rattle.fold_core.specs.Machine.{Entry};

    ghost Value = { Entry ℕ };

    ghost view = { λ k. record { item = k.item; origin = k.origin; status = k.status } };
}

impl Kept {
    /// The kept number.
    pub fn item(&self) -> u64
        ensures { result ≡ self.now.item }
    {
        self.item
    }

    /// Where it comes from.
    pub fn origin(&self) -> Origin
        ensures { result ≡ self.now.origin }
    {
        self.origin
    }

    /// How far it has come.
    pub fn status(&self) -> Status
        ensures { result ≡ self.now.status }
    {
        self.status
    }

    /// The entry once `item` was kept as entry `to` by the event at the tick.
    fn overtaken(&self, rules: &Numbers, item: u64, to: u32, tick: u64) -> Kept
        ensures { result ≡ overtaken (numbers rules.now) item to tick self.now }
    {
        let status = if self.status.is_live() && covers_number(item, self.item) {
            Status::Retired {
                to,
                tick,
                taken: self.status.is_taken(),
            }
        } else {
            self.status
        };
        Kept {
            item: self.item,
            origin: self.origin,
            status,
        }
    }
}

/// What a search over numbers begins with.
#[derive(Debug, Drop)]
pub struct Problem {
    pub rules: Numbers,
    pub roots: List<u64>,
    pub budget: u32,
}

/// The state of the machine over numbers.
#[derive(Debug, Drop)]
pub struct State {
    entries: Vec<Kept>,
    found: Option<usize>,
    halted: Option<Large>,
    finished: usize,
}

impl Model for State {
    ghost use Rattle.std.specs.Prelude.{ℕ};
    ghost use Rattle.fold_core.specs.Machine.{Core};

    ghost Value = { Core ℕ };

    ghost view = { λ s. record { entries = s.entries.items; found = s.found; halted = s.halted; finished = s.finished } };
}

/// The least live entry that covers the item.
fn cover_of(rules: &Numbers, entries: &[Kept], item: u64) -> Option<usize>
    ensures { result ≡ least_cover (numbers rules.now) item entries.now }
{
    let mut at: usize = 0;
    for kept in entries {
        if kept.status.is_live() && covers_number(kept.item, item) {
            return Some(at);
        }
        at += 1;
    }
    None
}

/// Whether the entry is live and covers the item.
fn covers_live(rules: &Numbers, entries: &[Kept], number: u32, item: u64) -> bool
    ensures { IsTrue result ↔ LiveCover (numbers rules.now) item number entries.now }
{
    match entries.get(number as usize) {
        Some(kept) => kept.status.is_live() && covers_number(kept.item, item),
        None => false,
    }
}

/// The least entry that waits.
fn first_waiting(entries: &[Kept]) -> Option<usize>
    ensures { result ≡ least_waiting entries.now }
{
    let mut at: usize = 0;
    for kept in entries {
        if kept.status.is_waiting() {
            return Some(at);
        }
        at += 1;
    }
    None
}

/// How many entries are taken.
fn count_taken(entries: &[Kept]) -> usize
    ensures { result ≡ taken_count entries.now }
{
    let mut count: usize = 0;
    for kept in entries {
        if kept.status.is_taken() {
            count += 1;
        }
    }
    count
}

/// Gives entry `number` the status.
fn set_status(entries: &mut Vec<Kept>, number: u32, status: Status)
    requires { number < length entries.old.items }
    ensures { (e : Entry ℕ) → Stands entries.old.items number e
        → entries.new.items ≡ slice_set entries.old.items number (record e { status = status }) }
{
    let kept = &entries[number as usize];
    let turned = Kept {
        item: kept.item,
        origin: kept.origin,
        status,
    };
    entries[number as usize] = turned;
}

/// The status once the children of the entry are placed.
fn let_go(status: Status) -> Status
    ensures { result ≡ let_go status }
{
    match status {
        Status::Waiting | Status::Taken | Status::Finished => Status::Finished,
        Status::Retired { to, tick, .. } => Status::Retired {
            to,
            tick,
            taken: false,
        },
    }
}

/// The entry after a reset.
fn put_back(kept: &Kept) -> Kept
    ensures { result ≡ put_back_entry kept.now }
{
    let status = match kept.status {
        Status::Waiting | Status::Taken => Status::Waiting,
        Status::Finished => Status::Finished,
        Status::Retired { to, tick, .. } => Status::Retired {
            to,
            tick,
            taken: false,
        },
    };
    Kept {
        item: kept.item,
        origin: kept.origin,
        status,
    }
}

/// The entries after a reset.
fn all_put_back(alloc: Global, entries: &[Kept]) -> Result<Vec<Kept>, NoMemory>
    ensures { IfOk result (λ next. next.items ≡ map put_back_entry entries.now) }
{
    let mut next = Vec::new(alloc);
    for kept in entries {
        next.push(put_back(kept))?;
    }
    Ok(next)
}

/// The entries once `item` was kept as entry `to` by the event at the tick.
fn with_kept(
    alloc: Global,
    rules: &Numbers,
    entries: &[Kept],
    item: u64,
    origin: Origin,
    to: u32,
    tick: u64,
) -> Result<Vec<Kept>, NoMemory>
    ensures { IfOk result (λ next. next.items ≡ map (overtaken (numbers rules.now) item to tick) entries.now
        ++ record { item = item; origin = origin; status = Waiting } ∷ []) }
{
    let mut next = Vec::new(alloc);
    for kept in entries {
        next.push(kept.overtaken(rules, item, to, tick))?;
    }
    next.push(Kept {
        item,
        origin,
        status: Status::Waiting,
    })?;
    Ok(next)
}

impl State {
    /// The entries, by their numbers.
    pub fn entries(&self) -> &[Kept]
        ensures { result.now ≡ self.now.entries }
    {
        self.entries.as_slice()
    }

    /// The number of the first entry that is initial.
    pub fn found(&self) -> Option<usize>
        ensures { result ≡ self.now.found }
    {
        self.found
    }

    /// What was past a limit, where the search was halted.
    pub fn halted(&self) -> Option<Large>
        ensures { result ≡ self.now.halted }
    {
        self.halted
    }

    /// How many expansions are finished.
    pub fn finished(&self) -> usize
        ensures { result ≡ self.now.finished }
    {
        self.finished
    }

    /// The state before the first event.
    fn new(alloc: Global) -> State
        ensures { result ≡ empty }
    {
        State {
            entries: Vec::new(alloc),
            found: None,
            halted: None,
            finished: 0,
        }
    }

    /// Keeps the item as entry `to`, the next, by the event at the tick.
    fn keep(
        &mut self,
        alloc: Global,
        rules: &Numbers,
        item: u64,
        origin: Origin,
        to: u32,
        tick: u64,
    ) -> Result<(), NoMemory>
        requires { to ≡ length self.old.entries }
        ensures ok { OnOk result (self.new ≡ kept (numbers rules.now) tick item origin self.old) }
        ensures err { OnErr result (self.new ≡ self.old) }
    {
        let entries = with_kept(
            alloc,
            rules,
            self.entries.as_slice(),
            item,
            origin,
            to,
            tick,
        )?;
        self.entries = entries;
        if self.found.is_none() && rules.initial(&item) {
            self.found = Some(to as usize);
        }
        Ok(())
    }

    /// Whether an item may be placed so while the children of an entry are placed.
    fn accepts(&self, rules: &Numbers, item: u64, place: Placed) -> bool
        ensures { IsTrue result ↔ Accepts (numbers rules.now) item place self.now }
    {
        match place {
            Placed::Kept(number) => {
                number as usize == self.entries.len()
                    && cover_of(rules, self.entries.as_slice(), item).is_none()
            }
            Placed::Folded(number) => covers_live(rules, self.entries.as_slice(), number, item),
        }
    }

    /// Whether an item is placed so by an event of its own.
    fn is_place(&self, rules: &Numbers, item: u64, place: Placed) -> bool
        ensures { IsTrue result ↔ (place ≡ place_of (numbers rules.now) item self.now) }
    {
        match (cover_of(rules, self.entries.as_slice(), item), place) {
            (Some(least), Placed::Folded(number)) => number as usize == least,
            (None, Placed::Kept(number)) => number as usize == self.entries.len(),
            _ => false,
        }
    }

    /// Places the item so, by the event at the tick.
    fn put(
        &mut self,
        alloc: Global,
        rules: &Numbers,
        item: u64,
        origin: Origin,
        place: Placed,
        tick: u64,
    ) -> Result<(), NoMemory>
        requires { Accepts (numbers rules.now) item place self.old }
        ensures { OnOk result (self.new ≡ placed (numbers rules.now) tick item origin place self.old) }
    {
        match place {
            Placed::Kept(number) => self.keep(alloc, rules, item, origin, number, tick),
            Placed::Folded(_) => Ok(()),
        }
    }

    /// Places the item by an event of its own, where it is placed so.
    fn place(
        &mut self,
        alloc: Global,
        rules: &Numbers,
        item: u64,
        origin: Origin,
        place: Placed,
        tick: u64,
    ) -> Result<bool, NoMemory>
        ensures { IfOk result (λ b. Puts (numbers rules.now) tick item origin place self.old b self.new) }
    {
        if !self.is_place(rules, item, place) {
            return Ok(false);
        }
        self.put(alloc, rules, item, origin, place, tick)?;
        Ok(true)
    }

    /// The number that entry `entry` has, where it is taken.
    fn taken_item(&self, entry: u32) -> Option<u64>
        ensures some { IfSome result (TakenItem self.now entry) }
        ensures none { IfNone result ((x : ℕ) → TakenItem self.now entry x → ⊥) }
    {
        match self.entries.get(entry as usize) {
            Some(kept) if kept.status.is_taken() => Some(kept.item),
            _ => None,
        }
    }

    /// The children of entry `entry`, where it is taken and they are a list.
    fn children(
        &self,
        alloc: Global,
        rules: &Numbers,
        entry: u32,
    ) -> Result<Option<List<u64>>, NoMemory>
        ensures some { IfOk result (λ o. IfSome o (λ xs. Expanding (numbers rules.now) entry xs self.now)) }
        ensures none { IfOk result (λ o. IfNone o ((xs : List ℕ) → Expanding (numbers rules.now) entry xs self.now → ⊥)) }
    {
        let Some(item) = self.taken_item(entry) else {
            return Ok(None);
        };
        match rules.expand(alloc, &item) {
            Ok(children) => Ok(Some(children)),
            Err(ExpandFail::Large(_)) => Ok(None),
            Err(ExpandFail::NoMemory) => Err(NoMemory),
        }
    }

    /// What is past a limit in the expansion of entry `entry`, where it is taken and something is.
    fn overflow(
        &self,
        alloc: Global,
        rules: &Numbers,
        entry: u32,
    ) -> Result<Option<Large>, NoMemory>
        ensures some { IfOk result (λ o. IfSome o (λ why. Overflowing (numbers rules.now) entry why self.now)) }
        ensures none { IfOk result (λ o. IfNone o ((why : Large) → Overflowing (numbers rules.now) entry why self.now → ⊥)) }
    {
        let Some(item) = self.taken_item(entry) else {
            return Ok(None);
        };
        match rules.expand(alloc, &item) {
            Ok(_) => Ok(None),
            Err(ExpandFail::Large(why)) => Ok(Some(why)),
            Err(ExpandFail::NoMemory) => Err(NoMemory),
        }
    }

    /// The root of this number is placed, where `placed` roots were placed before.
    fn root(
        &mut self,
        alloc: Global,
        problem: &Problem,
        placed: usize,
        before: &[Event],
        number: u32,
        place: Placed,
    ) -> Result<bool, NoMemory>
        requires { placed ≡ roots_placed before.now }
        ensures { IfOk result (λ b. RanIn problem.now before.now self.old (Root number place) b self.new) }
    {
        if number as usize != placed || placed != before.len() {
            return Ok(false);
        }
        let Some(item) = problem.roots.get(number as usize) else {
            return Ok(false);
        };
        let tick = before.len() as u64;
        self.place(
            alloc,
            &problem.rules,
            *item,
            Origin::Root(number),
            place,
            tick,
        )
    }

    /// Entry `entry` is taken.
    fn take(&mut self, problem: &Problem, before: &[Event], entry: u32) -> bool
        requires { self.old.finished ≤ problem.now.budget }
        ensures { RanIn problem.now before.now self.old (Take entry) result self.new }
    {
        if self.found.is_some() || self.halted.is_some() {
            return false;
        }
        let left = problem.budget as usize - self.finished;
        if count_taken(self.entries.as_slice()) >= left {
            return false;
        }
        match first_waiting(self.entries.as_slice()) {
            Some(least) if least == entry as usize => {
                set_status(&mut self.entries, entry, Status::Taken);
                true
            }
            _ => false,
        }
    }

    /// The child of this number of the parent's expansion is placed.
    fn insert(
        &mut self,
        alloc: Global,
        problem: &Problem,
        before: &[Event],
        parent: u32,
        child: u64,
        place: Placed,
    ) -> Result<bool, NoMemory>
        ensures { IfOk result (λ b. RanIn problem.now before.now self.old (Insert parent child place) b self.new) }
    {
        let Some(children) = self.children(alloc, &problem.rules, parent)? else {
            return Ok(false);
        };
        let Some(item) = children.get(child as usize) else {
            return Ok(false);
        };
        let tick = before.len() as u64;
        self.place(
            alloc,
            &problem.rules,
            *item,
            Origin::Child { parent, child },
            place,
            tick,
        )
    }

    /// The expansion of entry `entry` is past a limit.
    fn halt(
        &mut self,
        alloc: Global,
        problem: &Problem,
        before: &[Event],
        entry: u32,
        why: Large,
    ) -> Result<bool, NoMemory>
        ensures { IfOk result (λ b. RanIn problem.now before.now self.old (Halt entry why) b self.new) }
    {
        if self.halted.is_some() {
            return Ok(false);
        }
        let Some(large) = self.overflow(alloc, &problem.rules, entry)? else {
            return Ok(false);
        };
        if large != why {
            return Ok(false);
        }
        self.halted = Some(why);
        Ok(true)
    }

    /// What is taken waits again.
    fn reset(&mut self, alloc: Global, problem: &Problem, before: &[Event]) -> Result<(), NoMemory>
        ensures { OnOk result (RanIn problem.now before.now self.old Reset true self.new) }
    {
        let entries = all_put_back(alloc, self.entries.as_slice())?;
        self.entries = entries;
        Ok(())
    }

    /// Places the children of entry `parent` in order, by the event at the tick.
    fn settle(
        &mut self,
        alloc: Global,
        rules: &Numbers,
        parent: u32,
        children: &[u64],
        places: &[Placed],
        tick: u64,
    ) -> Result<bool, NoMemory>
        requires { length children.now ≡ length places.now }
        ensures { IfOk result (λ b. RanAll (numbers rules.now) tick parent 0 children.now places.now self.old b self.new) }
    {
        for child in 0..children.len() {
            let item = children[child];
            let place = places[child];
            if !self.accepts(rules, item, place) {
                return Ok(false);
            }
            let origin = Origin::Child {
                parent,
                child: child as u64,
            };
            self.put(alloc, rules, item, origin, place, tick)?;
        }
        Ok(true)
    }

    /// Lets the entry go, once its children are placed.
    fn close(&mut self, budget: u32, entry: u32)
        requires within { entry < length self.old.entries }
        requires few { self.old.finished ≤ budget }
        ensures { (e : Entry ℕ) → Stands self.old.entries entry e → self.new ≡ record self.old {
          entries = slice_set self.old.entries entry (record e { status = let_go e.status });
          finished = self.old.finished + 1;
        } }
    {
        let status = let_go(self.entries[entry as usize].status);
        set_status(&mut self.entries, entry, status);
        self.finished += 1;
    }

    /// Each child of entry `entry` is placed, and it is let go.
    fn finish(
        &mut self,
        alloc: Global,
        problem: &Problem,
        before: &[Event],
        entry: u32,
        places: &PlacedList,
    ) -> Result<bool, NoMemory>
        requires { self.old.finished ≤ problem.now.budget }
        ensures { IfOk result (λ b. RanIn problem.now before.now self.old (Finish entry places.now) b self.new) }
    {
        let Some(children) = self.children(alloc, &problem.rules, entry)? else {
            return Ok(false);
        };
        if children.len() != places.len() {
            return Ok(false);
        }
        let tick = before.len() as u64;
        if !self.settle(
            alloc,
            &problem.rules,
            entry,
            children.as_slice(),
            places.as_slice(),
            tick,
        )? {
            return Ok(false);
        }
        self.close(problem.budget, entry);
        Ok(true)
    }

    /// Whether the event is allowed after those before it, of which `placed` placed a root. Where
    /// it is, the state is the one that it leads to; where it isn't, the state is no use any more.
    fn step(
        &mut self,
        alloc: Global,
        problem: &Problem,
        placed: usize,
        before: &[Event],
        event: &Event,
    ) -> Result<bool, NoMemory>
        requires roots { placed ≡ roots_placed before.now }
        requires in_budget { self.old.finished ≤ problem.now.budget }
        ensures { IfOk result (λ b. RanIn problem.now before.now self.old event.now b self.new) }
    {
        match event {
            Event::Root {
                number,
                placed: place,
            } => self.root(alloc, problem, placed, before, *number, *place),
            Event::Take { entry } => Ok(self.take(problem, before, *entry)),
            Event::Insert {
                parent,
                child,
                placed: place,
            } => self.insert(alloc, problem, before, *parent, *child, *place),
            Event::Finish { entry, places } => self.finish(alloc, problem, before, *entry, places),
            Event::Halt { entry, why } => self.halt(alloc, problem, before, *entry, *why),
            Event::Reset => {
                self.reset(alloc, problem, before)?;
                Ok(true)
            }
        }
    }
}

/// The state that the history leads to, or `None` exactly where an event in it isn't allowed.
pub fn after(alloc: Global, problem: &Problem, events: &Events) -> Result<Option<State>, NoMemory>
    ensures reached { IfOk result (λ o. IfSome o (λ c. AfterIn problem.now events.now c)) }
    ensures refused { IfOk result (λ o. IfNone o ((c : Core ℕ) → AfterIn problem.now events.now c → ⊥)) }
{
    let events = events.as_slice();
    let mut state = State::new(alloc);
    let mut placed: usize = 0;
    for tick in 0..events.len() {
        let event = &events[tick];
        if !state.step(alloc, problem, placed, &events[..tick], event)? {
            return Ok(None);
        }
        if event.is_root() {
            placed += 1;
        }
    }
    Ok(Some(state))
}
