ghost use Rattle.std.specs.Prelude.{◌≡◌, false, length, [], List};
ghost use Rattle.npa_sorts.specs.Subsorts.{Subsorts};
ghost use Rattle.npa_term.specs.declared.term.Term.{Term};
ghost use Rattle.npa_term.specs.declared.term.Var.{Var as Variable};
ghost use Rattle.npa_match.specs.Branches.{after_pairs, after_term};
ghost use Rattle.npa_match.specs.Matching.{read_pairs};
ghost use Rattle.npa_match.specs.Search.{after_all};

use crate::search::arguments;
use npa_term::{Term, equals};

/// Whether the operators of the pairs don't keep them from matching. It takes no memory, and looks
/// at no commutative operator's arguments.
pub(crate) fn may_all_match(pairs: &[(&Term, &Term)]) -> bool
    ensures { result ≡ false → (o : Subsorts) (s : List (Variable × Term))
        → after_pairs o (read_pairs pairs.now) s ≡ [] }
{
    for (t, u) in pairs {
        if !may_match(t, u) {
            return false;
        }
    }
    true
}

// Whether the operators of two terms don't keep the first from matching the second.
#[cycle(shape)]
fn may_match(t: &Term, u: &Term) -> bool
    ensures { result ≡ false → (o : Subsorts) (s : List (Variable × Term))
        → after_term o t.now u.now s ≡ [] }
{
    match t {
        Term::Var(_) => true,
        Term::Name(_) => equals(t, u),
        Term::App(op, ts) => match arguments(u, *op) {
            Some(us) => op.com || may_be_arguments(ts.as_slice(), us),
            None => false,
        },
    }
}

// Whether the operators of terms don't keep them from matching as many others place by place.
#[cycle(shape)]
fn may_be_arguments(ts: &[Term], us: &[Term]) -> bool
    ensures { result ≡ false → (o : Subsorts) (s : List (Variable × Term))
        → after_all o ts.now us.now s ≡ [] }
{
    if ts.len() != us.len() {
        return false;
    }
    for i in 0..ts.len() {
        if !may_match(&ts[i], &us[i]) {
            return false;
        }
    }
    true
}
