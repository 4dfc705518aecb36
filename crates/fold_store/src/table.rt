ghost use Rattle.std.specs.Prelude.{◌≡◌, ◌<◌, ◌≤◌, ◌+◌, ◌↔◌, ℕ, not, [], ◌∷◌, ◌++◌, length, None, map, slice_get, slice_set, IsTrue, IfOk, OnOk, OnErr, IfSome};
ghost use Rattle.std.specs.Option.{option_copied};
ghost use Rattle.std.specs.List.{filter};
ghost use Rattle.std.specs.Vec.{vec_capacity};
ghost use Rattle.fold_core.specs.declared.event.Status.TheVariants.{Waiting, Taken};
ghost use Rattle.fold_core.specs.Machine.{Entry, Stands, is_waiting, taken_count, least_cover, least_waiting, overtaken, let_go, put_back_entry};
ghost use Rattle.fold_store.specs.Table.{most_entries, live_numbers, covers_at, covered_at, first_passing, retire_option, retire_each, NoneWaits, TakenEntry, SplitsLive, with_kept, unfinished_at, AllFinished, PointsForward, clip_entry, clip_option, ClipsMarked};
ghost use Rattle.fold_core.specs.Facts.{Leads};

use crate::entry::Kept;
use crate::forest::Forest;
use crate::log::{Log, Mark};
use fold_core::{Folding, NoMemory, Origin, Status};
use std::alloc::Global;
use std::marker::Model;

/// The most entries that a store has.
const MOST_ENTRIES: usize = 100_000;

/// The entries by their numbers, with what is needed so that no call walks the retired ones.
#[derive(Drop)]
pub(crate) struct Table<I> {
    entries: Vec<Kept<I>>,
    /// In a class are the entries whose pointers lead to the same live one, which is its last.
    forest: Forest,
    /// Which entries were retired, so that the last are found.
    log: Log,
    /// The numbers of the live entries, ascending.
    live: Vec<u32>,
    /// No entry below this number waits.
    first: usize,
    /// How many entries are taken, retired ones included.
    taken: usize,
}

impl<I> Model for Table<I> {
    ghost use Rattle.std.specs.Prelude.{List};
    ghost use Rattle.fold_core.specs.Machine.{Entry};
    ghost use Rattle.fold_store.specs.Table.{Indexed, Joined, Logged};

    ghost Value = { List (Entry I) };

    ghost view = { λ t. t.entries.items };

    ghost invariant = { λ t. Indexed t.entries.items t.live.items t.first t.taken × Joined t.entries.items t.forest × Logged t.entries.items t.log };
}

/// The live entries once an item is known: those that it covers, and the others.
#[derive(Drop)]
pub(crate) struct Split {
    pub(crate) covered: Vec<u32>,
    pub(crate) others: Vec<u32>,
}

/// Whether the item of entry `number` covers the item.
fn covers_number<F: Folding>(
    alloc: Global,
    rules: &F,
    entries: &[Kept<F::Item>],
    number: u32,
    item: &F::Item,
) -> Result<bool, NoMemory>
    ensures { IfOk result (λ b. b ≡ covers_at (F.rules rules.now) item.now entries.now number) }
{
    match entries.get(number as usize) {
        Some(kept) => rules.covers(alloc, kept.item(), item),
        None => Ok(false),
    }
}

/// Whether the item covers that of entry `number`.
fn number_covered<F: Folding>(
    alloc: Global,
    rules: &F,
    entries: &[Kept<F::Item>],
    number: u32,
    item: &F::Item,
) -> Result<bool, NoMemory>
    ensures { IfOk result (λ b. b ≡ covered_at (F.rules rules.now) item.now entries.now number) }
{
    match entries.get(number as usize) {
        Some(kept) => rules.covers(alloc, item, kept.item()),
        None => Ok(false),
    }
}

/// The first of the numbers whose entry covers the item.
#[tactic(auto, using(crate::proofs::Numbers::first_steps))]
fn first_cover<F: Folding>(
    alloc: Global,
    rules: &F,
    entries: &[Kept<F::Item>],
    live: &[u32],
    item: &F::Item,
) -> Result<Option<u32>, NoMemory>
    ensures { IfOk result (λ o. o ≡ first_passing (covers_at (F.rules rules.now) item.now entries.now) live.now) }
{
    for number in live {
        if covers_number(alloc, rules, entries, *number, item)? {
            return Ok(Some(*number));
        }
    }
    Ok(None)
}

/// The numbers whose entries the item covers, and the others.
#[tactic(auto, using(std::proofs::lemmas::List::Elements::filter_more))]
fn split_live<F: Folding>(
    alloc: Global,
    rules: &F,
    entries: &[Kept<F::Item>],
    live: &[u32],
    item: &F::Item,
) -> Result<Split, NoMemory>
    ensures covered { IfOk result (λ s. s.covered.items ≡ filter (covered_at (F.rules rules.now) item.now entries.now) live.now) }
    ensures others { IfOk result (λ s. s.others.items ≡ filter (λ n. not (covered_at (F.rules rules.now) item.now entries.now n)) live.now) }
{
    let mut covered = Vec::new(alloc);
    let mut others = Vec::new(alloc);
    for number in live {
        if number_covered(alloc, rules, entries, *number, item)? {
            covered.push(*number)?;
        } else {
            others.push(*number)?;
        }
    }
    Ok(Split { covered, others })
}

/// Adds an entry where there is room for it.
fn push_within<I: Drop>(entries: &mut Vec<Kept<I>>, kept: Kept<I>)
    requires { length entries.old.items < vec_capacity entries.old }
    ensures { entries.new.items ≡ entries.old.items ++ kept ∷ [] }
{
    match entries.push(kept) {
        Ok(()) => {}
        Err(_) => unreachable!(),
    }
}

/// Entry `to` retires entry `number`, by the event at the tick.
fn retire<I>(entries: &mut Vec<Kept<I>>, number: u32, to: u32, tick: u64)
    ensures { entries.new.items ≡ retire_option to tick number entries.old.items (slice_get entries.old.items number) }
{
    if let Some(kept) = entries.get_mut(number as usize) {
        kept.retire(to, tick);
    }
}

/// Entry `to` retires each of the entries, by the event at the tick.
#[tactic(auto, using(crate::proofs::Numbers::retire_next))]
fn retire_all<I>(entries: &mut Vec<Kept<I>>, numbers: &[u32], to: u32, tick: u64)
    ensures { entries.new.items ≡ retire_each to tick numbers.now entries.old.items }
{
    for number in numbers {
        retire(entries, *number, to, tick);
    }
}

/// The first number from `from` on at which an entry waits, or how many entries there are.
fn next_waiting<I>(entries: &[Kept<I>], from: usize) -> usize
    requires within { from ≤ length entries.now }
    requires before { NoneWaits from entries.now }
    ensures within { result ≤ length entries.now }
    ensures before { NoneWaits result entries.now }
    ensures waits { (e : Entry I) → Stands entries.now result e → IsTrue (is_waiting e.status) }
{
    for at in from..entries.len() {
        if entries[at].status().is_waiting() {
            return at;
        }
    }
    entries.len()
}

/// Whether there is an entry of this number that isn't finished.
fn is_unfinished<I>(entries: &[Kept<I>], number: u32) -> bool
    ensures { result ≡ unfinished_at entries.now number }
{
    match entries.get(number as usize) {
        Some(kept) => !matches!(kept.status(), Status::Finished),
        None => false,
    }
}

/// Whether none of the entries is unfinished.
#[tactic(auto, using(crate::proofs::Numbers::first_steps))]
fn none_unfinished<I>(entries: &[Kept<I>], live: &[u32]) -> bool
    ensures { IsTrue result ↔ (first_passing (unfinished_at entries.now) live.now ≡ None) }
{
    for number in live {
        if is_unfinished(entries, *number) {
            return false;
        }
    }
    true
}

/// The live entry at the end of the pointers from an entry.
fn follow_pointers<I>(entries: &[Kept<I>], from: u32) -> u32
    requires within { from < length entries.now }
    requires forward { PointsForward entries.now }
    ensures { Leads entries.now from result }
{
    let mut at = from;
    while let Status::Retired { to, .. } = entries[at as usize].status() {
        at = to;
    }
    at
}

/// A worker takes entry `at`.
fn take_at<I>(entries: &mut Vec<Kept<I>>, at: usize)
    requires { at < length entries.old.items }
    ensures { (e : Entry I) → Stands entries.old.items at e → entries.new.items ≡ slice_set entries.old.items at (record e { status = Taken }) }
{
    entries[at].take();
}

/// Lets entry `at` go.
fn let_go_at<I>(entries: &mut Vec<Kept<I>>, at: usize)
    requires { at < length entries.old.items }
    ensures { (e : Entry I) → Stands entries.old.items at e → entries.new.items ≡ slice_set entries.old.items at (record e { status = let_go e.status }) }
{
    entries[at].let_go();
}

/// Puts entry `at` back.
fn put_back_at<I>(entries: &mut Vec<Kept<I>>, at: usize)
    requires { at < length entries.old.items }
    ensures { (e : Entry I) → Stands entries.old.items at e → entries.new.items ≡ slice_set entries.old.items at (put_back_entry e) }
{
    entries[at].put_back();
}

/// Puts each entry back.
fn put_back_all<I>(entries: &mut Vec<Kept<I>>)
    ensures { entries.new.items ≡ map put_back_entry entries.old.items }
{
    for at in 0..entries.len() {
        put_back_at(entries, at);
    }
}

/// Brings the tick of an entry down to the bound, if there is such an entry.
fn clip<I>(entries: &mut Vec<Kept<I>>, number: u32, bound: u64)
    ensures { entries.new.items ≡ clip_option bound number entries.old.items (slice_get entries.old.items number) }
{
    if let Some(kept) = entries.get_mut(number as usize) {
        kept.clip(bound);
    }
}

/// Brings the ticks of the entries that are marked from a place on down to the bound.
fn clip_marked<I>(entries: &mut Vec<Kept<I>>, marks: &[Mark], from: usize, bound: u64)
    requires { from ≤ length marks.now }
    ensures { ClipsMarked bound from (length marks.now) marks.now entries.old.items entries.new.items }
{
    for at in from..marks.len() {
        clip(entries, marks[at].number, bound);
    }
}

impl<I> Table<I> {
    /// No entry.
    pub(crate) fn new(alloc: Global) -> Table<I>
        ensures { result ≡ [] }
    {
        Table {
            entries: Vec::new(alloc),
            forest: Forest::new(alloc),
            log: Log::new(alloc),
            live: Vec::new(alloc),
            first: 0,
            taken: 0,
        }
    }

    /// How many entries there are.
    pub(crate) fn len(&self) -> u32
        ensures { result ≡ length self.now }
    {
        self.entries.len() as u32
    }

    /// Whether there is no room for one more.
    pub(crate) fn is_full(&self) -> bool
        ensures full { IsTrue result ↔ (length self.now ≡ most_entries) }
        ensures few { length self.now ≤ most_entries }
    {
        self.entries.len() == MOST_ENTRIES
    }

    /// The entry of this number: `None` exactly where there is none.
    pub(crate) fn get(&self, number: u32) -> Option<&Kept<I>>
        ensures { option_copied result ≡ slice_get self.now number }
    {
        self.entries.get(number as usize)
    }

    /// How many entries are taken, retired ones included.
    pub(crate) fn taken(&self) -> usize
        ensures { result ≡ taken_count self.now }
    {
        self.taken
    }

    /// Whether every live entry is finished.
    pub(crate) fn all_finished(&self) -> bool
        ensures { IsTrue result ↔ AllFinished self.now }
    {
        none_unfinished(self.entries.as_slice(), self.live.as_slice())
    }

    /// The live entry at the end of the pointers from an entry. The walk begins at the last of the
    /// entry's class, so it is short however many pointers there are.
    pub(crate) fn follow(&self, from: u32) -> u32
        requires within { from < length self.now }
        requires forward { PointsForward self.now }
        ensures { Leads self.now from result }
    {
        follow_pointers(self.entries.as_slice(), self.forest.last(from))
    }

    /// The numbers of the live entries, ascending.
    pub(crate) fn live(&self) -> &[u32]
        ensures { result.now ≡ live_numbers self.now }
    {
        self.live.as_slice()
    }

    /// The least entry that waits.
    pub(crate) fn first_waiting(&mut self) -> Option<u32>
        ensures answer { result ≡ least_waiting self.old }
        ensures same { self.new ≡ self.old }
    {
        let at = next_waiting(self.entries.as_slice(), self.first);
        self.first = at;
        if at < self.entries.len() {
            Some(at as u32)
        } else {
            None
        }
    }

    /// A worker takes the entry, the least that waits.
    pub(crate) fn take(&mut self, number: u32)
        requires { least_waiting self.old ≡ Some number }
        ensures { (e : Entry I) → Stands self.old number e → self.new ≡ slice_set self.old number (record e { status = Taken }) }
    {
        take_at(&mut self.entries, number as usize);
        self.taken += 1;
    }

    /// The entry isn't taken any more, since its children are placed.
    pub(crate) fn let_go(&mut self, number: u32)
        requires { TakenEntry number self.old }
        ensures { (e : Entry I) → Stands self.old number e → self.new ≡ slice_set self.old number (record e { status = let_go e.status }) }
    {
        let_go_at(&mut self.entries, number as usize);
        self.taken -= 1;
    }

    /// Brings each tick down to the bound.
    pub(crate) fn clip(&mut self, bound: u64)
        ensures { self.new ≡ map (clip_entry bound) self.old }
    {
        let from = self.log.newer(bound);
        clip_marked(&mut self.entries, self.log.marks(), from, bound);
        self.log.clip(from, bound);
    }

    /// What is taken waits again, or isn't taken any more where it is retired.
    pub(crate) fn put_back(&mut self)
        ensures { self.new ≡ map put_back_entry self.old }
    {
        put_back_all(&mut self.entries);
        self.first = 0;
        self.taken = 0;
    }
}

/// The least live entry that covers the item.
pub(crate) fn least_cover<F: Folding>(
    alloc: Global,
    rules: &F,
    table: &Table<F::Item>,
    item: &F::Item,
) -> Result<Option<u32>, NoMemory>
    ensures { IfOk result (λ o. o ≡ least_cover (F.rules rules.now) item.now table.now) }
{
    first_cover(alloc, rules, table.entries.as_slice(), table.live(), item)
}

/// The entries once the item is kept: its number is the next, and it retires the live entries that
/// it covers.
fn keep_split<I: Drop>(
    table: &mut Table<I>,
    split: Split,
    item: I,
    origin: Origin,
    tick: u64,
) -> Result<(), NoMemory>
    requires room { length table.old < most_entries }
    requires live { SplitsLive split.covered.items split.others.items table.old }
    ensures ok { OnOk result (table.new ≡ with_kept (length table.old) tick split.covered.items item origin table.old) }
    ensures err { OnErr result (table.new ≡ table.old) }
{
    let Split {
        covered,
        mut others,
    } = split;
    let to = table.entries.len() as u32;
    others.push(to)?;
    table.entries.reserve(1)?;
    table.log.add_all(covered.as_slice(), tick)?;
    table.forest.add()?;
    push_within(&mut table.entries, Kept::new(item, origin));
    retire_all(&mut table.entries, covered.as_slice(), to, tick);
    table.forest.join_all(covered.as_slice(), to);
    table.live = others;
    Ok(())
}

/// Keeps the item as the next entry, which retires the live entries that it covers, by the event
/// at the tick.
pub(crate) fn keep<F: Folding>(
    alloc: Global,
    rules: &F,
    table: &mut Table<F::Item>,
    item: F::Item,
    origin: Origin,
    tick: u64,
) -> Result<(), NoMemory>
    requires room { length table.old < most_entries }
    ensures ok { OnOk result (table.new ≡ map (overtaken (F.rules rules.now) item (length table.old) tick) table.old ++ record { item = item; origin = origin; status = Waiting } ∷ []) }
    ensures err { OnErr result (table.new ≡ table.old) }
{
    let split = split_live(alloc, rules, table.entries.as_slice(), table.live(), &item)?;
    keep_split(table, split, item, origin, tick)
}
