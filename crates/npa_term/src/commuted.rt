ghost use Rattle.std.specs.Prelude.{◌≡◌, ◌&&◌, ◌||◌, false, [], ◌∷◌};
ghost use Rattle.npa_term.specs.Computed.{is_same, turned, all_same};

use crate::term::{Op, Term};

/// Whether two terms are equal modulo commutativity. It takes no memory.
#[cycle(commuted)]
pub fn equals(t: &Term, u: &Term) -> bool
    ensures { result ≡ is_same t.now u.now }
{
    match (t, u) {
        (Term::Var(v), Term::Var(w)) => *v == *w,
        (Term::Var(_), _) => false,
        (Term::Name(m), Term::Name(n)) => *m == *n,
        (Term::Name(_), _) => false,
        (Term::App(f, ts), Term::App(g, us)) => {
            *f == *g && arguments_equal(*f, ts.as_slice(), us.as_slice())
        }
        (Term::App(_, _), _) => false,
    }
}

// Whether the arguments of one operator are equal, in their order or crosswise.
#[cycle(commuted)]
fn arguments_equal(op: Op, ts: &[Term], us: &[Term]) -> bool
    ensures { result ≡ (all_same ts.now us.now || (op.com && all_same ts.now (turned us.now))) }
{
    all_equal(ts, us) || (op.com && are_crossed(ts, us))
}

// Whether arguments that aren't equal in order are two that are equal crosswise.
#[cycle(commuted)]
fn are_crossed(ts: &[Term], us: &[Term]) -> bool
    ensures { all_same ts.now us.now ≡ false → result ≡ all_same ts.now (turned us.now) }
{
    match us {
        [u, w] => are_two(ts, w, u),
        _ => false,
    }
}

// Whether terms are two that equal these.
#[cycle(commuted)]
fn are_two(ts: &[Term], u: &Term, w: &Term) -> bool
    ensures { result ≡ all_same ts.now (u.now ∷ w.now ∷ []) }
{
    match ts {
        [s, t] => equals(s, u) && equals(t, w),
        _ => false,
    }
}

#[cycle(commuted)]
fn all_equal(ts: &[Term], us: &[Term]) -> bool
    ensures { result ≡ all_same ts.now us.now }
{
    if ts.len() != us.len() {
        return false;
    }
    for i in 0..ts.len() {
        if !equals(&ts[i], &us[i]) {
            return false;
        }
    }
    true
}
