ghost use Rattle.std.specs.Prelude.{◌≡◌, ◌≢◌, None, Some, OnOk, IsErrOf};
ghost use Rattle.npa_term.specs.declared.term.Term.{Term as Tree};
ghost use Rattle.npa_rewrite.specs.Rewriting.{AllCancel, IsConvergent, Steps};
ghost use Rattle.npa_conv.specs.Theories.{IsPlainTheory};
ghost use Rattle.npa_conv.specs.Verdict.{Tells, conv_of};

use crate::error::ConvFail;
use crate::pairs::check_pairs;
use crate::shapes::check_shapes;
use npa_rewrite::Theory;
use std::alloc::Global;

/// Whether the theory is convergent, by the critical pairs of its equations (Knuth, Bendix 1970;
/// modulo commutativity: Peterson, Stickel 1981), those of an equation with itself included.
///
/// The first fault is told: first of the equations by themselves, `Shape` before `SortUp` at one
/// equation. Then of the critical pairs: equations in order, the applications in the left side of
/// each in the order of the text, with each of them the equations in order, and the unifiers of the
/// two. `Unifiers` and `Symbols` come where `unify` refuses an overlap, and `Symbols` also where
/// the instance of the first left side has more than 1,024 symbols, which is measured before a
/// normal form is made. Memory is taken for one overlap at a time.
pub fn convergent(alloc: Global, th: &Theory) -> Result<(), ConvFail>
    requires plain { IsPlainTheory th.now }
    ensures verdict { Tells result (conv_of th.now) }
    ensures converges { OnOk result (conv_of th.now ≡ None) }
    ensures refused { (fail : ConvFail) → IsErrOf result fail → fail ≢ ConvFail.NoMemory
        → conv_of th.now ≡ Some fail }
    ensures cancelling { OnOk result (AllCancel th.now) }
    ensures convergent { OnOk result (IsConvergent th.now) }
    ensures pair { (from left right : Tree) → IsErrOf result (ConvFail.Pair from left right)
        → Steps th.now from left × Steps th.now from right × (left ≢ right) }
{
    th.sig.laws();
    let sorts = th.sig.sorts();
    sorts.laws();
    sorts.pairs();
    first_fault(alloc, th)
}

// The first fault, of the equations by themselves and then of the critical pairs.
fn first_fault(alloc: Global, th: &Theory) -> Result<(), ConvFail>
    requires plain { IsPlainTheory th.now }
    ensures { Tells result (conv_of th.now) }
{
    let sorts = th.sig.sorts();
    sorts.laws();
    check_shapes(th)?;
    check_pairs(alloc, th)
}
