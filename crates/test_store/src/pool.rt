ghost use Rattle.std.specs.Prelude.{◌≡◌, ◌<◌, length};

use fold_numbers::Numbers;
use fold_pool::{Turn, one};
use fold_store::{Store, StoreFail, Verdict};
use npa_list::List;
use std::alloc::Global;
use std::process::Abort;
use std::test::Fail;

fn numbers(top: u64, goal: u64, limit: u64) -> Numbers {
    Numbers { top, goal, limit }
}

fn open(
    alloc: Global,
    rules: Numbers,
    roots: &[u64],
    budget: u32,
) -> Result<Store<Numbers>, StoreFail>
    requires { length roots.now < 10 }
{
    let roots = List::from_slice(alloc, roots)?;
    Store::open(alloc, rules, roots, budget)
}

/// Turns until one doesn't finish an entry, and what that one did.
fn turns(alloc: Global, store: &mut Store<Numbers>) -> Result<Turn, StoreFail> {
    for _ in 0..100u32 {
        let rules = *store.rules();
        match one(alloc, store, &rules)? {
            Turn::Finished => {}
            other => return Ok(other),
        }
    }
    Ok(Turn::Finished)
}

/// The turn that doesn't finish an entry, and how many entries there are and are finished then.
fn ended(alloc: Global, rules: Numbers, budget: u32) -> Result<(Turn, u32, u32), StoreFail> {
    let mut store = open(alloc, rules, [0, 10].as_slice(), budget)?;
    let turn = turns(alloc, &mut store)?;
    Ok((turn, store.entries(), store.finished()))
}

// Each end of a run of turns.
#[test]
fn turns_end(rt: HostRuntime) -> Result<(), Fail> {
    let alloc = rt.alloc();
    assert!(rt; ended(alloc, numbers(12, 100, 100), 9)? == (Turn::Nothing, 13, 3));
    assert!(rt; ended(alloc, numbers(12, 100, 100), 1)? == (Turn::Spent, 13, 1));
    assert!(rt; ended(alloc, numbers(12, 12, 100), 9)? == (Turn::Stopped, 13, 1));
    assert!(rt; ended(alloc, numbers(12, 100, 5), 9)? == (Turn::Halted, 13, 1));
    Ok(())
}

// All is done where nothing waits.
#[test]
fn a_search_is_done(rt: HostRuntime) -> Result<(), Fail> {
    let mut store = open(rt.alloc(), numbers(3, 100, 100), [0].as_slice(), 9)?;
    assert!(rt; turns(rt.alloc(), &mut store)? == Turn::Nothing);
    assert!(rt; store.verdict() == Verdict::Done);
    Ok(())
}
