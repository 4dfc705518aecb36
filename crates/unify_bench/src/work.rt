ghost use Rattle.npa_unify.specs.Unifiers.{AreFit};

use crate::problems::{arguments, heads, sums, symbols};
use npa_sorts::Sorts;
use npa_term::{NoMemory, TermPairs};
use npa_unify::{UnifyFail, are_fit, unify};
use std::alloc::{AllocError, Global};
use std::io;
use thiserror::Error;

// New variables are numbered behind those of the problems.
const NEXT: u32 = 2;

/// Why the work wasn't done.
#[derive(Debug, Drop, Error)]
pub(crate) enum Fail {
    #[error("words are pairs of a kind (heads, arguments, sums, symbols) and a number")]
    Words,
    #[error("no answer")]
    NoAnswer,
    #[error("out of memory")]
    NoMemory,
    #[error("the output failed")]
    Output(#[from] io::Error),
}

impl From<NoMemory> for Fail {
    fn from(_: NoMemory) -> Fail {
        Fail::NoMemory
    }
}

impl From<AllocError> for Fail {
    fn from(_: AllocError) -> Fail {
        Fail::NoMemory
    }
}

impl From<UnifyFail> for Fail {
    fn from(_: UnifyFail) -> Fail {
        Fail::NoAnswer
    }
}

/// Solves so many problems of a kind, or one of so many symbols, and tells how many unifiers there
/// are.
pub(crate) fn work(alloc: Global, kind: &str, size: u32) -> Result<u64, Fail> {
    match kind {
        "heads" => solve(alloc, &heads(alloc)?, size),
        "arguments" => solve(alloc, &arguments(alloc)?, size),
        "sums" => solve(alloc, &sums(alloc)?, size),
        "symbols" => solve(alloc, &symbols(alloc, size)?, 1),
        _ => Err(Fail::Words),
    }
}

// Solves a problem so many times.
fn solve(alloc: Global, pairs: &TermPairs, times: u32) -> Result<u64, Fail> {
    let Ok(sorts) = Sorts::built_in(alloc) else {
        return Err(Fail::NoMemory);
    };
    if !are_fit(alloc, &sorts, pairs, NEXT)? {
        return Err(Fail::Words);
    }
    repeat(alloc, &sorts, pairs, times)
}

// Solves a problem that is fit so many times.
fn repeat(alloc: Global, sorts: &Sorts, pairs: &TermPairs, times: u32) -> Result<u64, Fail>
    requires fit { AreFit sorts.now pairs.now NEXT }
{
    let mut found = 0;
    for _ in 0..times {
        found = unify(alloc, sorts, pairs, NEXT)?.len() as u64;
    }
    Ok(found)
}
