ghost use Rattle.std.specs.Prelude.{◌≡◌, [], ◌∷◌, IfOk};
ghost use Rattle.std.specs.List.{range_with_len};
ghost use Rattle.fold_bench.specs.Rungs.{children_of, rungs, rungs_lawful};

use fold_core::{ExpandFail, Folding, NoMemory};
use npa_list::List;
use std::alloc::Global;

/// Numbers that cover all below them, so that one entry is live. Where the ladder is wide, 0 has all
/// numbers up to the top as children, and any other number has 0; else each below the top has the
/// next.
#[derive(Debug, Clone, Copy, PartialEq, Eq)]
pub(crate) struct Rungs {
    pub(crate) top: u64,
    pub(crate) wide: bool,
}

impl Folding for Rungs {
    type Item = u64;

    ghost rules = { rungs };

    fn copy(&self, _alloc: Global) -> Result<Rungs, NoMemory> {
        Ok(*self)
    }

    fn same(&self, other: &Rungs) -> bool {
        self == other
    }

    fn copy_item(_alloc: Global, item: &u64) -> Result<u64, NoMemory> {
        Ok(*item)
    }

    fn same_item(a: &u64, b: &u64) -> bool {
        a == b
    }

    fn covers(&self, _alloc: Global, t: &u64, s: &u64) -> Result<bool, NoMemory> {
        Ok(*s <= *t)
    }

    fn initial(&self, _item: &u64) -> bool {
        false
    }

    fn expand(&self, alloc: Global, item: &u64) -> Result<List<u64>, ExpandFail> {
        Ok(self.children(alloc, *item)?)
    }

    ghost lawful = { rungs_lawful };
}

impl Rungs {
    /// The children of a number.
    fn children(&self, alloc: Global, item: u64) -> Result<List<u64>, NoMemory>
        ensures { IfOk result (λ list. list ≡ children_of self.now item) }
    {
        if self.wide {
            if item == 0 {
                up_to(alloc, self.top)
            } else {
                alone(alloc, 0)
            }
        } else if item < self.top {
            alone(alloc, item + 1)
        } else {
            Ok(List::new(alloc))
        }
    }
}

/// The number alone.
fn alone(alloc: Global, number: u64) -> Result<List<u64>, NoMemory>
    ensures { IfOk result (λ list. list ≡ number ∷ []) }
{
    let mut list = List::new(alloc);
    list.push(number)?;
    Ok(list)
}

/// The numbers from 1 to `top`.
#[tactic(auto, using(fold_core::proofs::Ranges::range_next))]
fn up_to(alloc: Global, top: u64) -> Result<List<u64>, NoMemory>
    ensures { IfOk result (λ list. list ≡ range_with_len 1 top) }
{
    let mut list = List::new(alloc);
    for number in 0..top {
        list.push(number + 1)?;
    }
    Ok(list)
}
