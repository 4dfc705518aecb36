ghost use Rattle.std.specs.Prelude.{◌≡◌, length, zip, IfOk};
ghost use Rattle.npa_match.specs.Matching.{read_pairs};
ghost use Rattle.npa_variants.specs.Rows.{covers_row};

use npa_match::has_match;
use npa_sorts::Sorts;
use npa_term::{NoMemory, Term};
use std::alloc::Global;

/// Whether the first row covers the second. No term is copied.
pub(crate) fn covers(
    alloc: Global,
    sorts: &Sorts,
    row: &[Term],
    other: &[Term],
) -> Result<bool, NoMemory>
    ensures { IfOk result (λ covers. covers ≡ covers_row sorts.now row.now other.now) }
{
    if row.len() != other.len() {
        return Ok(false);
    }
    let pairs = paired(alloc, row, other)?;
    has_match(alloc, sorts, pairs.as_slice())
}

// The members of two rows, place by place.
fn paired<'a>(
    alloc: Global,
    row: &'a [Term],
    other: &'a [Term],
) -> Result<Vec<(&'a Term, &'a Term)>, NoMemory>
    requires { length row.now ≡ length other.now }
    ensures { IfOk result (λ pairs. read_pairs pairs.items ≡ zip row.now other.now) }
{
    let mut pairs = Vec::with_capacity(alloc, row.len())?;
    for i in 0..row.len() {
        pairs.push((&row[i], &other[i]))?;
    }
    Ok(pairs)
}
