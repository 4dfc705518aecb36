ghost use Rattle.std.specs.Prelude.{◌↔◌, IsTrue};
ghost use Rattle.npa_sorts.specs.Subsorts.{IsSort};
ghost use Rattle.npa_sig.specs.Operators.{StandForSorts, HasSorts, HaveSorts};

use crate::signature::OpDecl;
use npa_sorts::Sorts;

/// Whether each sort number in these declarations stands for a sort. It takes no memory.
pub fn all_name_sorts(sorts: &Sorts, ops: &[OpDecl]) -> bool
    ensures { IsTrue result ↔ HaveSorts sorts.now ops.now }
{
    for decl in ops {
        if !names_sorts(sorts, decl) {
            return false;
        }
    }
    true
}

/// Whether an operator's result sort and argument sorts are sorts. It takes no memory.
pub fn names_sorts(sorts: &Sorts, decl: &OpDecl) -> bool
    ensures { IsTrue result ↔ HasSorts sorts.now decl.now }
{
    stands_for_sort(sorts, decl.result) && stand_for_sorts(sorts, decl.args.as_slice())
}

// Whether these numbers stand for sorts.
fn stand_for_sorts(sorts: &Sorts, numbers: &[u16]) -> bool
    ensures { IsTrue result ↔ StandForSorts sorts.now numbers.now }
{
    for number in numbers {
        if !stands_for_sort(sorts, *number) {
            return false;
        }
    }
    true
}

// Whether a number stands for a sort.
fn stands_for_sort(sorts: &Sorts, number: u16) -> bool
    ensures { IsTrue result ↔ IsSort sorts.now number }
{
    (number as u32) < sorts.declared() as u32 + 2
}
