ghost use Rattle.std.specs.Prelude.{◌≡◌, ◌↔◌, IsTrue};

use crate::term::Term;

/// Whether two terms are one and the same. It takes no memory.
#[cycle(equal)]
pub fn same(t: &Term, u: &Term) -> bool
    ensures { IsTrue result ↔ (t.now ≡ u.now) }
{
    match (t, u) {
        (Term::Var(v), Term::Var(w)) => *v == *w,
        (Term::Name(m), Term::Name(n)) => *m == *n,
        (Term::App(f, ts), Term::App(g, us)) => *f == *g && same_all(ts.as_slice(), us.as_slice()),
        _ => false,
    }
}

#[cycle(equal)]
fn same_all(ts: &[Term], us: &[Term]) -> bool
    ensures { IsTrue result ↔ (ts.now ≡ us.now) }
{
    if ts.len() != us.len() {
        return false;
    }
    for i in 0..ts.len() {
        if !same(&ts[i], &us[i]) {
            return false;
        }
    }
    true
}
