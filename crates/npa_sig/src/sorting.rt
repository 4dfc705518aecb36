ghost use Rattle.std.specs.Prelude.{◌≡◌, map, slice_get};
ghost use Rattle.npa_sig.specs.Sorting.{is_sort, is_below, well_sorted, is_declared, all_below, agrees};
ghost use Rattle.npa_term.specs.Parts.{least_sort};

use crate::signature::{OpDecl, Sig};
use npa_sorts::FRESH;
use npa_term::{Op, Term};

impl Sig {
    /// Whether a number stands for a sort.
    pub fn is_sort(&self, sort: u16) -> bool
        ensures { result ≡ is_sort self.now sort }
    {
        (sort as u32) < self.sorts().declared() as u32 + 2
    }

    /// Whether a sort is at or below another.
    pub fn is_below(&self, lower: u16, upper: u16) -> bool
        ensures { result ≡ is_below self.now lower upper }
    {
        self.sorts().le(lower, upper)
    }

    /// The least sort of a term. It takes no memory.
    pub fn sort_of(&self, t: &Term) -> u16
        ensures { result ≡ least_sort t.now }
    {
        match t {
            Term::Var(v) => v.sort,
            Term::Name(_) => FRESH,
            Term::App(op, _) => op.result,
        }
    }

    /// Whether each operator of the term is as it was declared and has as many arguments, each of
    /// a least sort at or below the declared one. It takes no memory.
    #[tactic(auto, using(crate::proofs::Rows::well_sorted_step))]
    pub fn well_sorted(&self, t: &Term) -> bool
        ensures { result ≡ well_sorted self.now t.now }
    {
        match t {
            Term::Var(v) => self.is_sort(v.sort),
            Term::Name(_) => true,
            Term::App(op, args) => {
                if !self.is_declared(*op, args.as_slice()) {
                    return false;
                }
                for arg in args.as_slice() {
                    if !self.well_sorted(arg) {
                        return false;
                    }
                }
                true
            }
        }
    }

    // Whether the operator is declared so, for these arguments.
    fn is_declared(&self, op: Op, args: &[Term]) -> bool
        ensures { result ≡ is_declared self.now op (map least_sort args.now) (slice_get self.now.ops op.num) }
    {
        match self.ops().get(op.num as usize) {
            Some(decl) => agrees(op, decl) && self.all_below(args, decl.args.as_slice()),
            None => false,
        }
    }

    // Whether there are as many arguments as sorts, each of a least sort at or below its own.
    #[tactic(auto, using(crate::proofs::Declared::all_below_step, crate::proofs::Declared::all_below_ends, crate::proofs::Declared::all_below_apart))]
    fn all_below(&self, args: &[Term], sorts: &[u16]) -> bool
        ensures { result ≡ all_below self.now (map least_sort args.now) sorts.now }
    {
        if args.len() != sorts.len() {
            return false;
        }
        for k in 0..args.len() {
            if !self.is_below(self.sort_of(&args[k]), sorts[k]) {
                return false;
            }
        }
        true
    }
}

fn agrees(op: Op, decl: &OpDecl) -> bool
    ensures { result ≡ agrees op decl.now }
{
    op.result == decl.result && op.com == decl.com
}
