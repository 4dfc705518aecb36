ghost use Rattle.std.specs.Prelude.{◌≡◌, ◌<◌, ◌+◌, ◌^◌, All, IfOk};
ghost use Rattle.npa_term.specs.Variables.{variables, renamed};

use crate::error::NoMemory;
use crate::term::{Term, Var};
use npa_list::List;
use std::alloc::Global;

/// The term with `base` added to the number of each variable. The sorts stay, and so does the
/// order of any two terms that are renamed by the same number.
pub fn rename(alloc: Global, t: &Term, base: u32) -> Result<Term, NoMemory>
    requires fits { All (λ v. v.num + base < 2 ^ 32) (variables t.now) }
    ensures { IfOk result (λ u. u ≡ renamed base t.now) }
{
    match t {
        Term::Var(v) => Ok(Term::Var(Var {
            num: v.num + base,
            sort: v.sort,
        })),
        Term::Name(n) => Ok(Term::Name(*n)),
        Term::App(op, args) => {
            let mut made = Vec::with_capacity(alloc, args.len())?;
            for arg in args.as_slice() {
                made.push(rename(alloc, arg, base)?)?;
            }
            Ok(Term::App(*op, List::from_vec(made)))
        }
    }
}
