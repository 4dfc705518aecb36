ghost use Rattle.std.specs.Prelude.{◌≡◌, ◌<◌, length, map, true, Some, slice_get};
ghost use Rattle.std.specs.Cmp.Lexicographic.{slice_cmp};
ghost use Rattle.npa_term.specs.Canonical.{ordered};
ghost use Rattle.npa_term.specs.Order.{term_cmp};
ghost use Rattle.npa_unify.specs.Seen.{IsSound, form, placed, raw};

use crate::heads::{Binding, Head, walk};
use npa_term::{Op, Term};
use std::cmp::Ordering;

/// How the canonical forms of what two terms stand for compare. Neither is made, and no memory is
/// taken.
#[cycle(order)]
pub(crate) fn order<'a>(bound: &[Binding<'a>], t: &'a Term, u: &'a Term) -> Ordering
    requires sound { IsSound (raw bound.now) }
    ensures { result ≡ term_cmp (form (raw bound.now) t.now) (form (raw bound.now) u.now) }
{
    let left = walk(bound, t);
    let right = walk(bound, u);
    match left {
        Head::Var(v) => match right {
            Head::Var(w) => v.num.cmp(&w.num).then(v.sort.cmp(&w.sort)),
            Head::Name(_) => Ordering::Less,
            Head::App(_, _) => Ordering::Less,
        },
        Head::Name(m) => match right {
            Head::Var(_) => Ordering::Greater,
            Head::Name(n) => m.cmp(&n),
            Head::App(_, _) => Ordering::Less,
        },
        Head::App(f, ts) => match right {
            Head::Var(_) => Ordering::Greater,
            Head::Name(_) => Ordering::Greater,
            Head::App(g, us) => match f.num.cmp(&g.num) {
                Ordering::Equal => order_arguments(bound, f, ts, g, us),
                other => other,
            },
        },
    }
}

// The order of the arguments of two operators, each list as it stands in a canonical form.
#[cycle(order)]
fn order_arguments<'a>(
    bound: &[Binding<'a>],
    f: Op,
    ts: &'a [Term],
    g: Op,
    us: &'a [Term],
) -> Ordering
    requires sound { IsSound (raw bound.now) }
    ensures { let h = form (raw bound.now) in
        result ≡ slice_cmp term_cmp (ordered f (map h ts.now)) (ordered g (map h us.now)) }
{
    let left = is_turned(bound, f, ts);
    let right = is_turned(bound, g, us);
    for i in 0..ts.len().min(us.len()) {
        let found = order(bound, argument(ts, left, i), argument(us, right, i));
        if found != Ordering::Equal {
            return found;
        }
    }
    ts.len().cmp(&us.len())
}

// Whether the two arguments of a commutative operator change places in a canonical form.
#[cycle(order)]
fn is_turned<'a>(bound: &[Binding<'a>], op: Op, ts: &'a [Term]) -> bool
    requires sound { IsSound (raw bound.now) }
    ensures placed { let h = form (raw bound.now) in
        map h (placed result ts.now) ≡ ordered op (map h ts.now) }
    ensures two { result ≡ true → length ts.now ≡ 2 }
{
    match ts {
        [t, u] => op.com && order(bound, t, u) == Ordering::Greater,
        _ => false,
    }
}

// The argument at a place, where two arguments may have changed places.
fn argument<'a>(ts: &'a [Term], turned: bool, at: usize) -> &'a Term
    requires within { at < length ts.now }
    requires two { turned ≡ true → length ts.now ≡ 2 }
    ensures { slice_get (placed turned ts.now) at ≡ Some result.now }
{
    if turned {
        return &ts[1 - at];
    }
    &ts[at]
}
