ghost use Rattle.std.specs.Prelude.{◌≡◌, [], ◌∷◌, None, false, IfOk, IfSome, IsTrue, OnErr};
ghost use Rattle.npa_match.specs.Branches.{branches};
ghost use Rattle.npa_match.specs.Matching.{AreLast, IsFollowed, read_pairs};

use crate::search::{Waiting, next_end, start, substitution};
use npa_sorts::Sorts;
use npa_term::{NoMemory, Subst, Term};
use smallvec::SmallVec;
use std::alloc::Global;
use std::marker::Model;

/// A search for the matchers of the first members of pairs onto the second modulo commutativity,
/// which finds one after another. It is seen as the list of the matchers that are left, in the
/// order of the search.
#[derive(Drop)]
pub struct Matchers<'a> {
    sorts: &'a Sorts,
    waiting: Waiting<'a>,
}

impl<'a> Model for Matchers<'a> {
    ghost use Rattle.std.specs.Prelude.{List as ListOf, reverse};
    ghost use Rattle.std.specs.Coded.{coded_list, coded×};
    ghost use Rattle.npa_term.specs.declared.term.Var.{Var};
    ghost use Rattle.npa_term.specs.declared.term.Term.{Term};
    ghost use Rattle.npa_term.specs.contracts.term.Var as var;
    ghost use Rattle.npa_term.specs.contracts.term.Term as term;

    ghost Value = { ListOf (ListOf (Var × Term)) };

    ghost coded = { coded_list (coded_list (coded× var.the_row.coded term.the_row.coded)) };

    ghost use Rattle.npa_match.specs.Search.{AllBindOnce, waiting_ends};

    ghost view = { λ m. waiting_ends m.sorts.now (reverse m.waiting.items) };

    ghost invariant = { λ m. AllBindOnce (waiting_ends m.sorts.now (reverse m.waiting.items)) };
}

impl<'a> Matchers<'a> {
    /// All matchers of these pairs. No term is copied.
    pub fn new(
        alloc: Global,
        sorts: &'a Sorts,
        pairs: &[(&'a Term, &'a Term)],
    ) -> Result<Matchers<'a>, NoMemory>
        ensures { IfOk result (λ left. left ≡ branches sorts.now (read_pairs pairs.now)) }
    {
        let branch = start(alloc, &[], pairs)?;
        let mut waiting = SmallVec::new(alloc);
        waiting.push(Some(branch))?;
        Ok(Matchers { sorts, waiting })
    }

    /// The next matcher, or `None` where none is left. Where memory is wanting, some of those that
    /// were left may be lost, and those behind them are left.
    pub fn next(&mut self, alloc: Global) -> Result<Option<Subst>, NoMemory>
        ensures found { IfOk result (λ found. IfSome found (λ s. self.old ≡ s ∷ self.new)) }
        ensures none { IfOk result (λ found. found ≡ None → self.old ≡ []) }
        ensures empty { IfOk result (λ found. found ≡ None → self.new ≡ []) }
        ensures lost { OnErr result (AreLast self.old self.new) }
    {
        match next_end(alloc, self.sorts, &mut self.waiting)? {
            Some(bound) => Ok(Some(substitution(alloc, bound.as_slice())?)),
            None => Ok(None),
        }
    }

    /// Passes by the next matcher without making it. Answers whether there was one.
    pub fn skip(&mut self, alloc: Global) -> Result<bool, NoMemory>
        ensures found { IfOk result (λ found. IsTrue found → IsFollowed self.old self.new) }
        ensures none { IfOk result (λ found. found ≡ false → self.old ≡ []) }
        ensures empty { IfOk result (λ found. found ≡ false → self.new ≡ []) }
        ensures lost { OnErr result (AreLast self.old self.new) }
    {
        Ok(next_end(alloc, self.sorts, &mut self.waiting)?.is_some())
    }
}
