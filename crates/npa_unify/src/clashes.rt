ghost use Rattle.std.specs.Prelude.{IsTrue};
ghost use Rattle.npa_unify.specs.Seen.{AreNeverEqual, AreNeverAllEqual, NoneEquates};

use npa_term::{Term, TermPair};

/// Whether some pair has different operators or names at a place that is below free operators
/// alone: then nothing unifies the pairs. It takes no memory, and most pairs of a search end here.
pub(crate) fn some_clash(pairs: &[TermPair]) -> bool
    ensures { IsTrue result → NoneEquates pairs.now }
{
    for pair in pairs {
        if clash(&pair.0, &pair.1) {
            return true;
        }
    }
    false
}

// Whether no substitution makes two terms equal, as far as their symbols below free operators tell.
#[cycle(clashes)]
fn clash(t: &Term, u: &Term) -> bool
    ensures { IsTrue result → AreNeverEqual t.now u.now }
{
    match (t, u) {
        (Term::App(f, ts), Term::App(g, us)) => {
            if f != g {
                return true;
            }
            if f.com {
                return false;
            }
            clash_somewhere(ts.as_slice(), us.as_slice())
        }
        (Term::Name(m), Term::Name(n)) => m != n,
        (Term::Name(_), Term::App(_, _)) => true,
        (Term::App(_, _), Term::Name(_)) => true,
        _ => false,
    }
}

// Whether terms at one place of two lists clash.
#[cycle(clashes)]
fn clash_somewhere(ts: &[Term], us: &[Term]) -> bool
    ensures { IsTrue result → AreNeverAllEqual ts.now us.now }
{
    for i in 0..ts.len().min(us.len()) {
        if clash(&ts[i], &us[i]) {
            return true;
        }
    }
    false
}
