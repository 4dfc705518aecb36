ghost use Rattle.std.specs.Prelude.{◌≡◌, [], ◌∷◌, length, Ok, IfOk};
ghost use Rattle.npa_rewrite.specs.Rewriting.{AllCancel};
ghost use Rattle.npa_variants.specs.Rows.{own_parts as own_parts_of};
ghost use Rattle.npa_variants.specs.Search.{begun, level as level_of, rows as rows_of, searched, variant_rows};
ghost use Rattle.npa_variants.specs.Told.{Gives, GivesRows, as_kept};

use crate::kept::{Kept, Row, Rows, Stop, joined};
use crate::narrowing::level;
use crate::parts::{own_parts, split};
use npa_list::List;
use npa_rewrite::Theory;
use npa_term::{NoMemory, Term, copy_all};
use std::alloc::Global;

/// The variants of a first row whose first members, `m` of them, are values.
pub(crate) fn variant_rows(alloc: Global, th: &Theory, m: usize, row: Row) -> Result<Rows, Stop>
    requires cancelling { AllCancel th.now }
    ensures { GivesRows result (variant_rows 64 th.now m row) }
{
    let levels = count_own(alloc, m, row.as_slice())?;
    let kept = only(alloc, row)?;
    searched(alloc, th, m, levels, kept)
}

// A first row alone, as one that was found last.
fn only(alloc: Global, row: Row) -> Result<Kept, NoMemory>
    ensures { IfOk result (λ kept. as_kept kept ≡ record { old = []; new = row ∷ [] }) }
{
    let mut new = List::new(alloc);
    new.push(row)?;
    Ok(Kept {
        old: List::new(alloc),
        new,
    })
}

// How many own applications a row has.
fn count_own(alloc: Global, m: usize, row: &[Term]) -> Result<usize, NoMemory>
    ensures { IfOk result (λ count. count ≡ length (own_parts_of m row.now)) }
{
    let (values, terms) = split(row, m);
    let own = own_parts(alloc, values, terms)?;
    Ok(own.len())
}

// So many levels, from those that are kept; no level comes behind one that kept nothing new.
fn searched(alloc: Global, th: &Theory, m: usize, levels: usize, kept: Kept) -> Result<Rows, Stop>
    requires cancelling { AllCancel th.now }
    ensures { GivesRows result (searched 64 (λ k. Ok (rows_of k)) th.now m levels (as_kept kept)) }
{
    let mut kept = kept;
    for _ in 0..levels {
        if kept.new.is_empty() {
            return Ok(kept.old);
        }
        kept = next_level(alloc, th, m, kept)?;
    }
    Ok(joined(kept)?)
}

// A level: the rows that the last one kept are tried, and are old now. They are tried though they be
// dropped meanwhile, and so they are copied.
fn next_level(alloc: Global, th: &Theory, m: usize, kept: Kept) -> Result<Kept, Stop>
    requires cancelling { AllCancel th.now }
    ensures { Gives result (level_of 64 th.now m kept.new (begun (as_kept kept))) }
{
    let rows = copies(alloc, kept.new.as_slice())?;
    let begun = Kept {
        old: joined(kept)?,
        new: List::new(alloc),
    };
    level(alloc, th, m, rows.as_slice(), begun)
}

// Copies of rows.
fn copies(alloc: Global, rows: &[Row]) -> Result<Rows, NoMemory>
    ensures { IfOk result (λ copies. copies ≡ rows.now) }
{
    let mut made = Vec::with_capacity(alloc, rows.len())?;
    for row in rows {
        made.push(copy_all(alloc, row.as_slice())?)?;
    }
    Ok(List::from_vec(made))
}
