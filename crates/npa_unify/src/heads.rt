ghost use Rattle.std.specs.Prelude.{◌≡◌, IfOk};
ghost use Rattle.npa_term.specs.Canonical.{canonical};
ghost use Rattle.npa_term.specs.Parts.{least_sort};
ghost use Rattle.npa_unify.specs.Seen.{IsSound, full, head_term, raw, walked};

use npa_sorts::FRESH;
use npa_term::{NoMemory, Op, Term, Var, sort_arguments};
use std::alloc::Global;

/// What a term is at its root.
#[derive(Clone, Copy, Drop)]
pub(crate) enum Head<'a> {
    Var(Var),
    Name(u32),
    App(Op, &'a [Term]),
}

/// A variable with the head of the term that it is bound to.
pub(crate) type Binding<'a> = (Var, Head<'a>);

/// The head of a term.
pub(crate) fn head_of<'a>(t: &'a Term) -> Head<'a>
    ensures { head_term result ≡ t.now }
{
    match t {
        Term::Var(v) => Head::Var(*v),
        Term::Name(n) => Head::Name(*n),
        Term::App(op, args) => Head::App(*op, args.as_slice()),
    }
}

/// The head of what a head stands for: the value of a variable where it is bound, and the value of
/// that one, until a variable isn't bound.
pub(crate) fn walk_head<'a>(bound: &[Binding<'a>], head: Head<'a>) -> Head<'a>
    ensures { head_term result ≡ walked (raw bound.now) (head_term head.entry) }
{
    let mut found = head;
    for (v, value) in bound {
        if let Head::Var(w) = found {
            if *v == w {
                found = *value;
            }
        }
    }
    found
}

/// The head of what a term stands for.
pub(crate) fn walk<'a>(bound: &[Binding<'a>], t: &'a Term) -> Head<'a>
    ensures { head_term result ≡ walked (raw bound.now) t.now }
{
    walk_head(bound, head_of(t))
}

/// The least sort of what a head stands for.
pub(crate) fn sort_of_head(head: Head<'_>) -> u16
    ensures { result ≡ least_sort (head_term head.entry) }
{
    match head {
        Head::Var(v) => v.sort,
        Head::Name(_) => FRESH,
        Head::App(op, _) => op.result,
    }
}

/// The canonical form of what a head stands for.
pub(crate) fn made<'a>(
    alloc: Global,
    bound: &[Binding<'a>],
    head: Head<'a>,
) -> Result<Term, NoMemory>
    requires sound { IsSound (raw bound.now) }
    ensures { IfOk result (λ u. u ≡ canonical (full (raw bound.now) (head_term head.entry))) }
{
    match walk_head(bound, head) {
        Head::Var(v) => Ok(Term::Var(v)),
        Head::Name(n) => Ok(Term::Name(n)),
        Head::App(op, args) => {
            let mut terms = Vec::with_capacity(alloc, args.len())?;
            for arg in args {
                terms.push(made(alloc, bound, head_of(arg))?)?;
            }
            Ok(Term::App(op, sort_arguments(op, terms)))
        }
    }
}
