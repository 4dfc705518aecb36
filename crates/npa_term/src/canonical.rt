ghost use Rattle.std.specs.Prelude.{◌≡◌, ◌≢◌, IfOk};
ghost use Rattle.std.specs.declared.cmp.Ordering.TheVariants.{Greater};
ghost use Rattle.npa_term.specs.declared.term.Term.{Term};
ghost use Rattle.npa_term.specs.Canonical.{canonical, ordered};
ghost use Rattle.npa_term.specs.Order.{term_cmp};
ghost use Rattle.npa_term.specs.Same.{Same};

use crate::error::NoMemory;
use crate::order::cmp;
use crate::term::{Op, Term, Terms};
use npa_list::List;
use std::alloc::Global;
use std::cmp::Ordering;

/// The canonical form of a term: the least term, in the order of `cmp`, of those that are equal
/// to it up to the order of the arguments of commutative operators.
pub fn canon(alloc: Global, t: &Term) -> Result<Term, NoMemory>
    ensures value { IfOk result (λ u. u ≡ canonical t.now) }
    ensures same { IfOk result (λ u. Same t.now u) }
    ensures least { IfOk result (λ u. (v : Term) → Same t.now v → term_cmp u v ≢ Greater) }
{
    match t {
        Term::Var(v) => Ok(Term::Var(*v)),
        Term::Name(n) => Ok(Term::Name(*n)),
        Term::App(op, args) => {
            let mut made = Vec::with_capacity(alloc, args.len())?;
            for arg in args.as_slice() {
                made.push(canon(alloc, arg)?)?;
            }
            Ok(Term::App(*op, sort_arguments(*op, made)))
        }
    }
}

/// The arguments of an operator, the two of a commutative one in ascending order.
pub fn sort_arguments(op: Op, mut args: Vec<Term>) -> Terms
    ensures { result ≡ ordered op args.items }
{
    if op.com {
        if let [t, u] = args.as_slice() {
            if cmp(t, u) == Ordering::Greater {
                args.swap(0, 1);
            }
        }
    }
    List::from_vec(args)
}
