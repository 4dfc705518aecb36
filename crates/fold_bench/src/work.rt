use crate::rungs::Rungs;
use fold_core::ExpandFail;
use fold_pool::{Turn, one};
use fold_store::{InsertFail, Store, StoreFail, Taken, Work};
use npa_list::List;
use std::alloc::Global;
use std::io;
use thiserror::Error;

/// Why work was not done.
#[derive(Debug, Drop, Error)]
pub(crate) enum Fail {
    #[error("the words are kinds of work with sizes: inserts, turn, turns or finishes, and a number")]
    Words,
    #[error("the store refused what was taken")]
    Refused,
    #[error("out of memory")]
    NoMemory,
    #[error("{0}")]
    Io(#[from] io::Error),
}

impl From<StoreFail> for Fail {
    fn from(failure: StoreFail) -> Fail {
        match failure {
            StoreFail::Full => Fail::Refused,
            StoreFail::NoMemory => Fail::NoMemory,
        }
    }
}

impl From<InsertFail> for Fail {
    fn from(failure: InsertFail) -> Fail {
        match failure {
            InsertFail::Stranger | InsertFail::Full => Fail::Refused,
            InsertFail::NoMemory => Fail::NoMemory,
        }
    }
}

impl From<ExpandFail> for Fail {
    fn from(failure: ExpandFail) -> Fail {
        match failure {
            ExpandFail::Large(_) => Fail::Refused,
            ExpandFail::NoMemory => Fail::NoMemory,
        }
    }
}

/// A store whose root is 0.
fn open(alloc: Global, top: u32, wide: bool) -> Result<Store<Rungs>, Fail> {
    let rules = Rungs {
        top: u64::from(top),
        wide,
    };
    let Ok(roots) = List::from_slice(alloc, [0].as_slice()) else {
        return Err(Fail::NoMemory);
    };
    Ok(Store::open(alloc, rules, roots, top)?)
}

/// Work of this kind and size, and the store at its end.
pub(crate) fn work(alloc: Global, kind: &str, size: u32) -> Result<Store<Rungs>, Fail> {
    match kind {
        "inserts" => inserts(alloc, size),
        "turn" => turns(alloc, size, true, 1),
        "turns" => turns(alloc, size, false, size),
        "finishes" => finishes(alloc, size),
        _ => Err(Fail::Words),
    }
}

/// Inserts so many children of one entry, each of which retires the one before, or as many as the
/// store has room for.
fn inserts(alloc: Global, size: u32) -> Result<Store<Rungs>, Fail> {
    let mut store = open(alloc, size, true)?;
    let Taken::Got(id) = store.take() else {
        return Ok(store);
    };
    let rules = *store.rules();
    let work = Work::make(alloc, &rules, 0)?;
    for child in 0..work.children() {
        match store.insert(alloc, id, &work, child) {
            Ok(_) => {}
            Err(InsertFail::Full) => return Ok(store),
            Err(fail) => return Err(fail.into()),
        }
    }
    Ok(store)
}

/// So many turns of a worker.
fn turns(alloc: Global, top: u32, wide: bool, turns: u32) -> Result<Store<Rungs>, Fail> {
    let mut store = open(alloc, top, wide)?;
    for _turn in 0..turns {
        let rules = *store.rules();
        match one(alloc, &mut store, &rules)? {
            Turn::Finished => {}
            _ => return Ok(store),
        }
    }
    Ok(store)
}

/// So many entries taken and finished, each without a hint.
fn finishes(alloc: Global, size: u32) -> Result<Store<Rungs>, Fail> {
    let mut store = open(alloc, size, false)?;
    let hints = List::new(alloc);
    for _turn in 0..size {
        let Taken::Got(id) = store.take() else {
            return Ok(store);
        };
        let rules = *store.rules();
        let Some(item) = store.item(id).copied() else {
            return Ok(store);
        };
        let work = Work::make(alloc, &rules, item)?;
        store.finish(alloc, id, &work, &hints)?;
    }
    Ok(store)
}
