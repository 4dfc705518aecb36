ghost use Rattle.std.specs.Prelude.{◌≡◌};
ghost use Rattle.std.specs.Cmp.Lexicographic.{slice_cmp};
ghost use Rattle.npa_term.specs.Order.{term_cmp};

use crate::term::Term;
use std::cmp::Ordering;

/// The order of terms: variables come before fresh names, and these before applications.
/// Variables go by number, then by sort number, fresh names by number, and applications by the
/// operator's number, then by their arguments from the left.
#[cycle(order)]
#[tactic(auto, using(crate::proofs::Rows::cmp_at))]
pub fn cmp(a: &Term, b: &Term) -> Ordering
    ensures { result ≡ term_cmp a.now b.now }
{
    match (a, b) {
        (Term::Var(v), Term::Var(w)) => v.num.cmp(&w.num).then(v.sort.cmp(&w.sort)),
        (Term::Var(_), _) => Ordering::Less,
        (Term::Name(_), Term::Var(_)) => Ordering::Greater,
        (Term::Name(m), Term::Name(n)) => m.cmp(n),
        (Term::Name(_), Term::App(_, _)) => Ordering::Less,
        (Term::App(f, ts), Term::App(g, us)) => match f.num.cmp(&g.num) {
            Ordering::Equal => cmp_all(ts.as_slice(), us.as_slice()),
            order => order,
        },
        (Term::App(_, _), _) => Ordering::Greater,
    }
}

// The order of lists of terms, by their members from the left.
#[cycle(order)]
fn cmp_all(a: &[Term], b: &[Term]) -> Ordering
    ensures { result ≡ slice_cmp term_cmp a.now b.now }
{
    for i in 0..a.len().min(b.len()) {
        let order = cmp(&a[i], &b[i]);
        if order != Ordering::Equal {
            return order;
        }
    }
    a.len().cmp(&b.len())
}
