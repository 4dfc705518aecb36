ghost use Rattle.std.specs.Prelude.{◌≡◌, min};
ghost use Rattle.npa_term.specs.Symbols.{symbol_count};

use crate::term::Term;

/// How many symbols a term has: one for each occurrence of a variable, a fresh name or an
/// operator. The number stops at `u64::MAX`.
#[tactic(auto, using(crate::proofs::Rows::symbol_count_at))]
pub fn symbols(t: &Term) -> u64
    ensures { result ≡ min (symbol_count t.now) u64.MAX }
{
    match t {
        Term::Var(_) | Term::Name(_) => 1,
        Term::App(_, args) => {
            let mut sum: u64 = 1;
            for arg in args.as_slice() {
                sum = sum.saturating_add(symbols(arg));
            }
            sum
        }
    }
}
