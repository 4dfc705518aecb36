//! Work on the folding store, of kinds and sizes that are given in words, to be timed by a clock
//! outside. At the end of each it prints what stands in the store.
#![tactic(auto)]

mod rungs;
mod work;

use std::env;
use work::{Fail, work};

fn main(rt: HostRuntime) -> Result<(), Fail> {
    let mut words = env::args(&rt)?.skip(1);
    while let Some(kind) = words.next() {
        let Some(size) = words.next() else {
            return Err(Fail::Words);
        };
        let Ok(size) = size.as_str().parse::<u32>() else {
            return Err(Fail::Words);
        };
        let store = work(rt.alloc(), kind.as_str(), size)?;
        let entries = store.entries();
        let finished = store.finished();
        println!(rt; "{kind} {size}: entries {entries} finished {finished}")?;
    }
    Ok(())
}
