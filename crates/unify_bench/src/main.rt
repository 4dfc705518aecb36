//! Problems of unification, of kinds and numbers that are given in words, to be timed by a clock
//! outside. At the end of each it prints how many unifiers the last problem had.
#![tactic(auto)]

mod problems;
mod work;

use std::env;
use work::{Fail, work};

fn main(rt: HostRuntime) -> Result<(), Fail> {
    let mut words = env::args(&rt)?.skip(1);
    while let Some(kind) = words.next() {
        let Some(size) = words.next() else {
            return Err(Fail::Words);
        };
        let Ok(size) = size.as_str().parse::<u32>() else {
            return Err(Fail::Words);
        };
        let unifiers = work(rt.alloc(), kind.as_str(), size)?;
        println!(rt; "{kind} {size}: unifiers {unifiers}")?;
    }
    Ok(())
}
