ghost use Rattle.std.specs.Prelude.{◌<◌, length};

use fold_core::{ExpandFail, Folding, Large, Measure, NoMemory, Origin, Placed};
use fold_numbers::{Ladder, Numbers};
use fold_store::{InsertFail, Places, Store, Taken, Verdict, Work};
use npa_list::List;
use std::alloc::Global;
use std::process::Abort;
use std::test::Fail;

/// Rules with no initial number and no limit.
fn plain(top: u64) -> Numbers {
    Numbers {
        top,
        goal: 1_000_000,
        limit: 1_000_000,
    }
}

/// A store with these few roots.
fn open<F: Folding<Item = u64> + Drop>(
    alloc: Global,
    rules: F,
    roots: &[u64],
    budget: u32,
) -> Result<Store<F>, Fail>
    requires { length roots.now < 10 }
{
    let roots = List::from_slice(alloc, roots)?;
    Ok(Store::open(alloc, rules, roots, budget)?)
}

/// The end of the pointers from an entry, and where the entry comes from.
fn end_and_origin<F: Folding>(rt: &impl Abort, store: &Store<F>, id: u32) -> (u32, Origin) {
    assert!(rt; id < store.entries());
    (store.follow(id), store.origin(id))
}

/// Inserts a child that the work has.
fn insert<F: Folding>(
    rt: &impl Abort,
    alloc: Global,
    store: &mut Store<F>,
    work: &Work<'_, F>,
    child: u64,
) -> Result<Placed, InsertFail> {
    assert!(rt; child < work.children());
    store.insert(alloc, 0, work, child)
}

fn check_live(
    rt: &impl Abort,
    alloc: Global,
    store: &Store<Numbers>,
    wanted: &[u32],
) -> Result<(), NoMemory> {
    assert_eq!(rt; store.live(alloc)?.as_slice(), wanted);
    Ok(())
}

/// Each of 99,999 children retires the one before it, and the first its taken parent.
fn fill(
    rt: &impl Abort,
    alloc: Global,
    store: &mut Store<Ladder>,
    work: &Work<'_, Ladder>,
) -> Result<(), InsertFail> {
    for child in 0..99_999u64 {
        let placed = insert(rt, alloc, store, work, child)?;
        assert!(rt; placed == Placed::Kept(child as u32 + 1));
    }
    Ok(())
}

/// The store is full, and a child that is covered is folded still.
fn check_full(
    rt: &impl Abort,
    alloc: Global,
    store: &mut Store<Ladder>,
    work: &Work<'_, Ladder>,
) -> Result<(), InsertFail> {
    let full = insert(rt, alloc, store, work, 99_999);
    assert!(rt; matches!(full, Err(InsertFail::Full)));
    let folded = insert(rt, alloc, store, work, 4)?;
    assert!(rt; folded == Placed::Folded(99_999));
    Ok(())
}

/// Only the last entry lives, and the pointers of the first lead to it.
fn check_last(rt: &impl Abort, alloc: Global, store: &Store<Ladder>) -> Result<(), NoMemory> {
    assert!(rt; store.entries() == 100_000);
    assert!(rt; end_and_origin(rt, store, 0) == (99_999, Origin::Root(0)));
    let live = store.live(alloc)?;
    assert!(rt; live.len() == 1);
    assert!(rt; live.get(0).copied() == Some(99_999));
    Ok(())
}

/// The first entry is taken still, and can't be finished, since there is no room for a child.
fn check_taken(rt: &impl Abort, alloc: Global, store: &mut Store<Ladder>, work: &Work<'_, Ladder>) {
    let hints = List::new(alloc);
    let full = store.finish(alloc, 0, work, &hints);
    assert!(rt; matches!(full, Err(InsertFail::Full)));
    assert!(rt; store.finished() == 0);
}

// A work of another item is a stranger's.
fn check_stranger(
    rt: &impl Abort,
    alloc: Global,
    store: &mut Store<Ladder>,
    rules: &Ladder,
) -> Result<(), Fail> {
    let other = Work::make(alloc, rules, 1)?;
    let stranger = insert(rt, alloc, store, &other, 0);
    assert!(rt; matches!(stranger, Err(InsertFail::Stranger)));
    Ok(())
}

// The taken first entry has its children inserted until the store is full.
fn check_filling(
    rt: &impl Abort,
    alloc: Global,
    store: &mut Store<Ladder>,
    rules: &Ladder,
) -> Result<(), Fail> {
    let work = Work::make(alloc, rules, 0)?;
    fill(rt, alloc, store, &work)?;
    check_full(rt, alloc, store, &work)?;
    check_last(rt, alloc, store)?;
    check_taken(rt, alloc, store, &work);
    Ok(())
}

fn check_ladder(
    rt: &impl Abort,
    alloc: Global,
    store: &mut Store<Ladder>,
    rules: &Ladder,
) -> Result<(), Fail> {
    assert!(rt; store.take() == Taken::Got(0));
    check_filling(rt, alloc, store, rules)?;
    check_stranger(rt, alloc, store, rules)
}

/// The rules by which each of so many children of 0 covers those before it.
fn ladder(top: u64) -> Ladder {
    Ladder {
        numbers: plain(top),
    }
}

// A full store, and a work of another item.
#[test]
fn a_ladder_fills_the_store(rt: HostRuntime) -> Result<(), Fail> {
    let rules = ladder(100_000);
    let mut store = open(rt.alloc(), ladder(100_000), [0].as_slice(), 1)?;
    check_ladder(&rt, rt.alloc(), &mut store, &rules)
}

// Five roots: the second retires the first, the fourth the second; the third and the fifth are
// folded.
fn check_roots(rt: &impl Abort, alloc: Global, store: &Store<Numbers>) -> Result<(), NoMemory> {
    check_live(rt, alloc, store, [2].as_slice())?;
    assert!(rt; store.entries() == 3);
    assert!(rt; end_and_origin(rt, store, 0) == (2, Origin::Root(0)));
    assert!(rt; end_and_origin(rt, store, 1) == (2, Origin::Root(1)));
    assert!(rt; end_and_origin(rt, store, 2) == (2, Origin::Root(3)));
    assert!(rt; store.item(2).copied() == Some(3));
    assert!(rt; store.item(3).is_none());
    assert!(rt; store.rules().same(&plain(5)));
    Ok(())
}

#[test]
fn roots_are_folded(rt: HostRuntime) -> Result<(), Fail> {
    let mut store = open(rt.alloc(), plain(5), [1, 2, 1, 3, 3].as_slice(), 1)?;
    check_roots(&rt, rt.alloc(), &store)?;
    assert!(rt; store.take() == Taken::Got(2));
    assert!(rt; store.take() == Taken::Nothing);
    Ok(())
}

/// Makes the expansion of an item and finishes the entry with it.
fn finish(
    alloc: Global,
    store: &mut Store<Numbers>,
    id: u32,
    item: u64,
    hints: &[u32],
) -> Result<(), Fail> {
    let rules = *store.rules();
    let work = Work::make(alloc, &rules, item)?;
    let hints: Places = List::from_slice(alloc, hints)?;
    store.finish(alloc, id, &work, &hints)?;
    Ok(())
}

fn check_reset(rt: &impl Abort, alloc: Global, store: &mut Store<Numbers>) -> Result<(), Fail> {
    assert!(rt; store.take() == Taken::Got(0));
    store.reset()?;
    check_live(rt, alloc, store, [0, 1].as_slice())?;
    assert!(rt; store.take() == Taken::Got(0));
    assert!(rt; store.take() == Taken::Got(1));
    assert!(rt; store.take() == Taken::Nothing);
    Ok(())
}

// Two taken entries are finished, the first by a hint.
fn check_finishes(rt: &impl Abort, alloc: Global, store: &mut Store<Numbers>) -> Result<(), Fail> {
    finish(alloc, store, 0, 10, [1].as_slice())?;
    assert!(rt; store.entries() == 2);
    finish(alloc, store, 1, 0, [].as_slice())?;
    check_live(rt, alloc, store, [0, 2].as_slice())?;
    assert!(rt; store.verdict() == Verdict::Open);
    store.runs();
    Ok(())
}

// A reset where one of two entries is taken, and then both are finished.
#[test]
fn two_entries_are_finished(rt: HostRuntime) -> Result<(), Fail> {
    let mut store = open(rt.alloc(), plain(1), [10, 0].as_slice(), 2)?;
    check_reset(&rt, rt.alloc(), &mut store)?;
    check_finishes(&rt, rt.alloc(), &mut store)
}

/// Rules by which 20 is past the limit.
fn limited() -> Numbers {
    Numbers {
        top: 1,
        goal: 100,
        limit: 10,
    }
}

// An item that is past the limit halts the search.
#[test]
fn a_search_is_halted(rt: HostRuntime) -> Result<(), Fail> {
    let rules = limited();
    let why = Large {
        rule: 0,
        measure: Measure::Symbols,
        value: 20,
    };
    let work = Work::make(rt.alloc(), &rules, 20);
    assert!(rt; matches!(work, Err(ExpandFail::Large(large)) if large == why));
    Ok(())
}
