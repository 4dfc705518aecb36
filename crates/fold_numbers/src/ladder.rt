ghost use Rattle.fold_numbers.specs.Ladder.{ladder, ladder_lawful};

use crate::numbers::Numbers;
use fold_core::{ExpandFail, Folding, NoMemory};
use npa_list::List;
use std::alloc::Global;

/// Numbers that cover all below them; their children are those of `Numbers`.
#[derive(Drop)]
pub struct Ladder {
    pub numbers: Numbers,
}

impl Folding for Ladder {
    type Item = u64;

    ghost rules = { λ l. ladder l.numbers };

    fn copy(&self, _alloc: Global) -> Result<Ladder, NoMemory> {
        Ok(Ladder {
            numbers: self.numbers,
        })
    }

    fn same(&self, other: &Ladder) -> bool {
        self.numbers == other.numbers
    }

    fn copy_item(_alloc: Global, item: &u64) -> Result<u64, NoMemory> {
        Ok(*item)
    }

    fn same_item(a: &u64, b: &u64) -> bool {
        a == b
    }

    fn covers(&self, _alloc: Global, t: &u64, s: &u64) -> Result<bool, NoMemory> {
        Ok(*s <= *t)
    }

    fn initial(&self, item: &u64) -> bool {
        self.numbers.initial(item)
    }

    fn expand(&self, alloc: Global, item: &u64) -> Result<List<u64>, ExpandFail> {
        self.numbers.expand(alloc, item)
    }

    ghost lawful = { λ l. ladder_lawful l.numbers };
}
