use fold_core::{
    Event, ExpandFail, Folding, Large, Measure, NoMemory, Placed, PlacedList, Status, facts,
};
use fold_numbers::Numbers;
use fold_numbers::replay::{Problem, State, after};
use npa_list::List;
use std::alloc::Global;
use std::process::Abort;
use std::test::Fail;

/// Rules with no initial number and no limit, where 0 expands to the numbers from 1 to `top`.
fn plain(top: u64) -> Numbers {
    Numbers {
        top,
        goal: 1000,
        limit: 1000,
    }
}

fn problem(alloc: Global, rules: Numbers, roots: &[u64], budget: u32) -> Result<Problem, NoMemory> {
    Ok(Problem {
        rules,
        roots: List::from_slice(alloc, roots)?,
        budget,
    })
}

/// The state that the events lead to, where they are allowed.
fn run(alloc: Global, problem: &Problem, events: Vec<Event>) -> Result<Option<State>, NoMemory> {
    let events = List::from_vec(events);
    after(alloc, problem, &events)
}

fn statuses(alloc: Global, state: &State) -> Result<Vec<Status>, NoMemory> {
    let mut list = Vec::new(alloc);
    for kept in state.entries() {
        list.push(kept.status())?;
    }
    Ok(list)
}

fn root(number: u32, placed: Placed) -> Event {
    Event::Root { number, placed }
}

fn insert(parent: u32, child: u64, placed: Placed) -> Event {
    Event::Insert {
        parent,
        child,
        placed,
    }
}

fn retired(to: u32, tick: u64, taken: bool) -> Status {
    Status::Retired { to, tick, taken }
}

fn places(alloc: Global, list: &[Placed]) -> Result<PlacedList, NoMemory> {
    Ok(List::from_slice(alloc, list)?)
}

fn check_statuses(
    rt: &impl Abort,
    alloc: Global,
    state: Option<State>,
    wanted: &[Status],
) -> Result<(), NoMemory> {
    let state = state.expect(rt, "the events are allowed");
    let found = statuses(alloc, &state)?;
    assert_eq!(rt; found.as_slice(), wanted);
    Ok(())
}

// Five roots: the second retires the first, the fourth the second; the third and the fifth are
// folded.
#[test]
fn roots_are_folded(rt: HostRuntime) -> Result<(), Fail> {
    let alloc = rt.alloc();
    let setup = problem(alloc, plain(5), [1, 2, 1, 3, 3].as_slice(), 10)?;
    let events = vec![in alloc;
        root(0, Placed::Kept(0)),
        root(1, Placed::Kept(1)),
        root(2, Placed::Folded(1)),
        root(3, Placed::Kept(2)),
        root(4, Placed::Folded(2)),
    ]?;
    let state = run(alloc, &setup, events)?;
    let wanted = [retired(1, 1, false), retired(2, 3, false), Status::Waiting];
    check_statuses(&rt, alloc, state, wanted.as_slice())?;
    let events = vec![in alloc;
        root(0, Placed::Kept(0)),
        root(1, Placed::Kept(1)),
        root(2, Placed::Folded(0)),
    ]?;
    let refused = run(alloc, &setup, events)?;
    assert!(rt; refused.is_none());
    Ok(())
}

// Each child retires the one before, and the first retires its taken parent.
#[test]
fn children_retire_one_another(rt: HostRuntime) -> Result<(), Fail> {
    let alloc = rt.alloc();
    let setup = problem(alloc, plain(3), [0].as_slice(), 1)?;
    let last = places(
        alloc,
        [Placed::Folded(3), Placed::Folded(3), Placed::Folded(3)].as_slice(),
    )?;
    let events = vec![in alloc;
        root(0, Placed::Kept(0)),
        Event::Take { entry: 0 },
        insert(0, 0, Placed::Kept(1)),
        insert(0, 1, Placed::Kept(2)),
        insert(0, 2, Placed::Kept(3)),
        insert(0, 0, Placed::Folded(3)),
    ]?;
    let state = run(alloc, &setup, events)?;
    let wanted = [
        retired(1, 2, true),
        retired(2, 3, false),
        retired(3, 4, false),
        Status::Waiting,
    ];
    check_statuses(&rt, alloc, state, wanted.as_slice())?;
    let events = vec![in alloc;
        root(0, Placed::Kept(0)),
        Event::Take { entry: 0 },
        insert(0, 2, Placed::Kept(1)),
        Event::Finish {
            entry: 0,
            places: last
        },
    ]?;
    let refused = run(alloc, &setup, events)?;
    assert!(rt; refused.is_none());
    Ok(())
}

// Two expansions at once. The entry that covered the child of the first is retired, while it is
// taken, before the first is finished.
#[test]
fn expansions_interleave(rt: HostRuntime) -> Result<(), Fail> {
    let alloc = rt.alloc();
    let setup = problem(alloc, plain(2), [10, 0].as_slice(), 2)?;
    for (first, second, allowed) in [
        (Placed::Folded(2), Placed::Kept(3), true),
        (Placed::Folded(1), Placed::Kept(3), false),
        (Placed::Folded(2), Placed::Folded(2), false),
    ] {
        let one = places(alloc, [first].as_slice())?;
        let two = places(alloc, [Placed::Folded(2), second].as_slice())?;
        let events = vec![in alloc;
            root(0, Placed::Kept(0)),
            root(1, Placed::Kept(1)),
            Event::Take { entry: 0 },
            Event::Take { entry: 1 },
            insert(0, 0, Placed::Folded(1)),
            insert(1, 0, Placed::Kept(2)),
            Event::Finish {
                entry: 0,
                places: one
            },
            Event::Finish {
                entry: 1,
                places: two
            },
        ]?;
        let state = run(alloc, &setup, events)?;
        assert_eq!(rt; state.is_some(), allowed);
        if allowed {
            let wanted = [
                Status::Finished,
                retired(2, 5, false),
                retired(3, 7, false),
                Status::Waiting,
            ];
            check_statuses(&rt, alloc, state, wanted.as_slice())?;
        }
    }
    Ok(())
}

// What is found and what halts the search; a reset, and the order and the budget of takes.
#[test]
fn searches_end(rt: HostRuntime) -> Result<(), Fail> {
    let alloc = rt.alloc();
    let rules = Numbers {
        top: 15,
        goal: 15,
        limit: 12,
    };
    let why = Large {
        rule: 0,
        measure: Measure::Symbols,
        value: 12,
    };
    let setup = problem(alloc, rules, [0, 12].as_slice(), 2)?;
    let events = vec![in alloc;
        root(0, Placed::Kept(0)),
        root(1, Placed::Kept(1)),
        Event::Take { entry: 0 },
        Event::Take { entry: 1 },
        Event::Halt { entry: 1, why },
        insert(0, 14, Placed::Kept(2)),
        Event::Reset,
    ]?;
    let state = run(alloc, &setup, events)?.expect(&rt, "the events are allowed");
    assert_eq!(rt; state.found(), Some(2));
    assert_eq!(rt; state.halted(), Some(why));
    assert_eq!(rt; state.finished(), 0);
    let wanted = [Status::Waiting, retired(2, 5, false), Status::Waiting];
    check_statuses(&rt, alloc, Some(state), wanted.as_slice())?;
    let events = vec![in alloc;
        root(0, Placed::Kept(0)),
        Event::Take { entry: 0 },
        insert(0, 14, Placed::Kept(1)),
        Event::Take { entry: 1 },
    ]?;
    let refused = run(alloc, &setup, events)?;
    assert!(rt; refused.is_none());
    Ok(())
}

// The rules by their trait, and each fact.
#[test]
fn rules_answer(rt: HostRuntime) -> Result<(), Fail> {
    check_rules(&rt, rt.alloc(), &plain(2), 2, 1)?;
    facts::one_state::<Numbers>();
    facts::pointers::<Numbers>();
    facts::chains::<Numbers>();
    facts::no_double::<Numbers>();
    facts::origins::<Numbers>();
    facts::handled::<Numbers>();
    facts::counts::<Numbers>();
    facts::found::<Numbers>();
    facts::done::<Numbers>();
    Ok(())
}

// The item `over` covers `under`, and not the other way; neither is initial.
fn check_rules<F: Folding + Drop>(
    rt: &impl Abort,
    alloc: Global,
    rules: &F,
    over: F::Item,
    under: F::Item,
) -> Result<(), ExpandFail> {
    let copied = rules.copy(alloc)?;
    let again = F::copy_item(alloc, &over)?;
    assert!(rt; rules.same(&copied));
    assert!(rt; F::same_item(&over, &again));
    assert!(rt; !F::same_item(&over, &under));
    assert!(rt; rules.covers(alloc, &over, &under)?);
    assert!(rt; !rules.covers(alloc, &under, &over)?);
    assert!(rt; !rules.initial(&over));
    assert_eq!(rt; rules.expand(alloc, &over)?.len(), 1);
    Ok(())
}
