ghost use Rattle.std.specs.Prelude.{◌≡◌, ◌<◌, ◌↔◌, IsTrue, IfOk};
ghost use Rattle.std.specs.List.{range_with_len};
ghost use Rattle.fold_numbers.specs.Numbers.{covers_number, numbers, numbers_lawful};

use fold_core::{ExpandFail, Folding, Large, Measure, NoMemory};
use npa_list::List;
use std::alloc::Global;

/// Rules over numbers, to run the machine by hand: a number covers those up to itself that have the
/// same tens, is initial from `goal` on, and is past a limit from `limit` on. Below that 0 expands
/// to the numbers from 1 to `top`, and any other number to 0 alone.
#[derive(Debug, Clone, Copy, PartialEq, Eq)]
pub struct Numbers {
    pub top: u64,
    pub goal: u64,
    pub limit: u64,
}

impl Folding for Numbers {
    type Item = u64;

    ghost rules = { numbers };

    fn copy(&self, _alloc: Global) -> Result<Numbers, NoMemory> {
        Ok(*self)
    }

    fn same(&self, other: &Numbers) -> bool {
        self == other
    }

    fn copy_item(_alloc: Global, item: &u64) -> Result<u64, NoMemory> {
        Ok(*item)
    }

    fn same_item(a: &u64, b: &u64) -> bool {
        a == b
    }

    fn covers(&self, _alloc: Global, t: &u64, s: &u64) -> Result<bool, NoMemory> {
        Ok(covers_number(*t, *s))
    }

    fn initial(&self, item: &u64) -> bool {
        self.goal <= *item
    }

    fn expand(&self, alloc: Global, item: &u64) -> Result<List<u64>, ExpandFail> {
        if self.limit <= *item {
            return Err(ExpandFail::Large(Large {
                rule: 0,
                measure: Measure::Symbols,
                value: *item,
            }));
        }
        if *item == 0 {
            return Ok(up_to(alloc, self.top)?);
        }
        let mut children = List::new(alloc);
        children.push(0)?;
        Ok(children)
    }

    ghost lawful = { numbers_lawful };
}

/// Whether `t` covers `s`.
pub(crate) fn covers_number(t: u64, s: u64) -> bool
    ensures { result ≡ covers_number t s }
{
    t / 10 == s / 10 && s <= t
}

/// The numbers from 1 to `top`.
#[tactic(auto, using(fold_core::proofs::Ranges::range_next))]
fn up_to(alloc: Global, top: u64) -> Result<List<u64>, NoMemory>
    ensures { IfOk result (λ list. list ≡ range_with_len 1 top) }
{
    let mut list = List::new(alloc);
    for number in 0..top {
        list.push(number + 1)?;
    }
    Ok(list)
}
