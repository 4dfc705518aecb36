ghost use Rattle.std.specs.Prelude.{◌≡◌, ◌++◌, IfOk};
ghost use Rattle.npa_variants.specs.Search.{few, is_covered, placed, uncovered, with_row};
ghost use Rattle.npa_variants.specs.Told.{Gives, as_kept};

use crate::covering::covers;
use npa_list::List;
use npa_sorts::Sorts;
use npa_term::{NoMemory, Term, Terms};
use std::alloc::Global;

/// A row: the values of variables, and then terms.
pub(crate) type Row = Terms;

/// A list of rows.
pub(crate) type Rows = List<Row>;

/// The kept rows in the order in which they were found.
#[derive(Debug, Drop)]
pub(crate) struct Kept {
    /// Those of earlier levels.
    pub(crate) old: Rows,
    /// Those of this one.
    pub(crate) new: Rows,
}

/// Why a search stops.
#[derive(Debug, Drop)]
pub(crate) enum Stop {
    /// Too many rows are kept, these.
    TooMany(Rows),
    /// A problem has too many unifiers.
    Unifiers,
    /// A term has too many symbols, so many.
    Symbols(u64),
    NoMemory,
}

impl From<NoMemory> for Stop {
    ghost use Rattle.npa_variants.specs.declared.kept.Stop.TheVariants.{NoMemory as OutOfMemory};

    ghost from_gives = { λ _ e. e ≡ OutOfMemory };

    fn from(_error: NoMemory) -> Stop {
        Stop::NoMemory
    }
}

/// The most rows that are kept.
pub(crate) const MOST: usize = 64;

/// Keeps a row that no kept one covers, and drops those that it covers.
pub(crate) fn place(alloc: Global, sorts: &Sorts, row: Row, kept: Kept) -> Result<Kept, Stop>
    ensures { Gives result (placed 64 sorts.now row (as_kept kept)) }
{
    if is_kept_covered(alloc, sorts, &kept, row.as_slice())? {
        return Ok(kept);
    }
    few(with_row(alloc, sorts, row, kept)?)
}

// Whether a kept row covers a row.
fn is_kept_covered(
    alloc: Global,
    sorts: &Sorts,
    kept: &Kept,
    row: &[Term],
) -> Result<bool, NoMemory>
    ensures { IfOk result (λ covered. covered
        ≡ is_covered sorts.now (kept.now.old ++ kept.now.new) row.now) }
{
    if is_covered(alloc, sorts, kept.old.as_slice(), row)? {
        return Ok(true);
    }
    is_covered(alloc, sorts, kept.new.as_slice(), row)
}

// Whether one of the rows covers a row.
fn is_covered(alloc: Global, sorts: &Sorts, rows: &[Row], row: &[Term]) -> Result<bool, NoMemory>
    ensures { IfOk result (λ covered. covered ≡ is_covered sorts.now rows.now row.now) }
{
    for kept in rows {
        if covers(alloc, sorts, kept.as_slice(), row)? {
            return Ok(true);
        }
    }
    Ok(false)
}

// The rows that a row doesn't cover.
fn uncovered(alloc: Global, sorts: &Sorts, row: &[Term], rows: Rows) -> Result<Rows, NoMemory>
    ensures { IfOk result (λ left. left ≡ uncovered sorts.now row.now rows) }
{
    let mut left = List::new(alloc);
    for kept in rows.into_vec() {
        if !covers(alloc, sorts, row, kept.as_slice())? {
            left.push(kept)?;
        }
    }
    Ok(left)
}

// The kept rows with another, without those that it covers.
fn with_row(alloc: Global, sorts: &Sorts, row: Row, kept: Kept) -> Result<Kept, NoMemory>
    ensures { IfOk result (λ more. as_kept more ≡ with_row sorts.now row (as_kept kept)) }
{
    let old = uncovered(alloc, sorts, row.as_slice(), kept.old)?;
    let mut new = uncovered(alloc, sorts, row.as_slice(), kept.new)?;
    new.push(row)?;
    Ok(Kept { old, new })
}

// Stops where too many rows are kept.
fn few(kept: Kept) -> Result<Kept, Stop>
    ensures { Gives result (few 64 (as_kept kept)) }
{
    if kept.old.len() + kept.new.len() > MOST {
        return Err(Stop::TooMany(joined(kept)?));
    }
    Ok(kept)
}

/// All kept rows, in the order in which they were found.
pub(crate) fn joined(kept: Kept) -> Result<Rows, NoMemory>
    ensures { IfOk result (λ rows. rows ≡ kept.old ++ kept.new) }
{
    let Kept { mut old, new } = kept;
    for row in new.into_vec() {
        old.push(row)?;
    }
    Ok(old)
}
