ghost use Rattle.std.specs.Prelude.{◌≡◌, ◌<◌, ◌≤◌, ◌+◌, ℕ, true, false, ◌||◌, ◌&&◌, [], ◌∷◌, ◌++◌, length, replicate, slice_set, slice_index_or, IfOk, OnOk};
ghost use Rattle.npa_sorts.specs.Subsorts.{Subsorts, subsorts, AreSorts};
ghost use Rattle.npa_sorts.specs.Table.{entry, raised_entry, grown_rows, rows_of, with_pair, IsTable, IsSquare, IsFirstMarked};

use crate::error::NoMemory;
use crate::sorts::SortPair;
use std::alloc::Global;

// The table of the order that pairs of sorts make. Each pair is added to the order that the
// pairs before it make.
pub(crate) fn close(
    alloc: Global,
    declared: u16,
    pairs: &[SortPair],
) -> Result<Vec<Vec<bool>>, NoMemory>
    requires few { declared ≤ 65533 }
    requires sorts { AreSorts (subsorts declared pairs.now) }
    ensures { IfOk result (λ table. IsTable (subsorts declared pairs.now) (rows_of table.items)) }
{
    let mut table = start(alloc, declared)?;
    for pair in pairs {
        add_pair(alloc, &mut table, pair.0 as usize, pair.1 as usize)?;
    }
    Ok(table)
}

// Adds a pair to the order that a table shows.
fn add_pair(
    alloc: Global,
    table: &mut Vec<Vec<bool>>,
    lower: usize,
    upper: usize,
) -> Result<(), NoMemory>
    requires square { IsSquare (length table.old.items) (rows_of table.old.items) }
    requires lower { lower < length table.old.items }
    requires upper { upper < length table.old.items }
    ensures { OnOk result ((o : Subsorts) → IsTable o (rows_of table.old.items) →
        IsTable (with_pair o lower upper) (rows_of table.new.items)) }
{
    if cell(table, lower, upper) {
        return Ok(());
    }
    let above = at_or_above(alloc, &table[upper], upper)?;
    raise(table, lower, &above);
    Ok(())
}

// The table of the order without pairs: declared sorts are below `Msg`.
pub(crate) fn start(alloc: Global, declared: u16) -> Result<Vec<Vec<bool>>, NoMemory>
    requires { declared ≤ 65533 }
    ensures { IfOk result (λ table. IsTable (subsorts declared []) (rows_of table.items)) }
{
    let size = declared as usize + 2;
    let mut table = Vec::with_capacity(alloc, size)?;
    for s in 0..size {
        table.push(start_row(alloc, size, s >= 2)?)?;
    }
    Ok(table)
}

// The row of a sort without pairs, with a mark at `Msg` or with none.
fn start_row(alloc: Global, size: usize, is_declared: bool) -> Result<Vec<bool>, NoMemory>
    requires { 0 < size }
    ensures { IfOk result (λ row. row.items ≡ slice_set (replicate size false) 0 is_declared) }
{
    let mut row = vec![in alloc; false; size]?;
    row[0] = is_declared;
    Ok(row)
}

// The row of a sort with the sort itself: what is at or above it.
pub(crate) fn at_or_above(alloc: Global, row: &[bool], sort: usize) -> Result<Vec<bool>, NoMemory>
    requires { sort < length row.now }
    ensures { IfOk result (λ above. above.items ≡ slice_set row.now sort true) }
{
    let mut above = Vec::from_slice(alloc, row)?;
    above[sort] = true;
    Ok(above)
}

// The table with a row and a column for one more sort.
pub(crate) fn grown(alloc: Global, table: &[Vec<bool>]) -> Result<Vec<Vec<bool>>, NoMemory>
    requires square { IsSquare (length table.now) (rows_of table.now) }
    requires some { 0 < length table.now }
    ensures { IfOk result (λ grown. rows_of grown.items ≡ grown_rows (rows_of table.now)) }
{
    let mut grown = Vec::with_capacity(alloc, table.len() + 1)?;
    for row in table {
        grown.push(longer(alloc, row)?)?;
    }
    let last = at_or_above(alloc, &table[0], 0)?;
    grown.push(longer(alloc, &last)?)?;
    Ok(grown)
}

// A table with the same rows.
pub(crate) fn copied(alloc: Global, table: &[Vec<bool>]) -> Result<Vec<Vec<bool>>, NoMemory>
    ensures { IfOk result (λ copied. rows_of copied.items ≡ rows_of table.now) }
{
    let mut copied = Vec::with_capacity(alloc, table.len())?;
    for row in table {
        copied.push(Vec::from_slice(alloc, row)?)?;
    }
    Ok(copied)
}

// A row with one more entry, without a mark.
fn longer(alloc: Global, row: &[bool]) -> Result<Vec<bool>, NoMemory>
    ensures { IfOk result (λ longer. longer.items ≡ row.now ++ false ∷ []) }
{
    let mut longer = Vec::with_capacity(alloc, row.len() + 1)?;
    longer.extend_from_slice(row)?;
    longer.push(false)?;
    Ok(longer)
}

// Puts each sort that is at or below `lower` below all that is in `above`.
pub(crate) fn raise(table: &mut Vec<Vec<bool>>, lower: usize, above: &[bool])
    requires square { IsSquare (length above.now) (rows_of table.old.items) }
    requires within { lower < length above.now }
    ensures square { IsSquare (length above.now) (rows_of table.new.items) }
    ensures raised { (s t : ℕ) → s < length above.now → t < length above.now →
        entry (rows_of table.new.items) s t ≡ raised_entry (rows_of table.old.items) lower above.now s t }
{
    for s in 0..above.len() {
        raise_row(&mut table[s], s == lower, lower, above);
    }
}

// Marks in a row what is in `above`, where the row is that of `lower` or marks it.
fn raise_row(row: &mut [bool], is_lower: bool, lower: usize, above: &[bool])
    requires long { length row.old ≡ length above.now }
    requires within { lower < length above.now }
    ensures { (t : ℕ) → t < length above.now → slice_index_or row.new t false ≡
        (slice_index_or row.old t false || ((is_lower || slice_index_or row.old lower false)
        && slice_index_or above.now t false)) }
{
    if is_lower || row[lower] {
        mark(row, above);
    }
}

// Marks in a row what another marks.
fn mark(row: &mut [bool], more: &[bool])
    requires { length row.old ≡ length more.now }
    ensures { (t : ℕ) → t < length more.now → slice_index_or row.new t false ≡
        (slice_index_or row.old t false || slice_index_or more.now t false) }
{
    for (t, marked) in more.iter().enumerate() {
        if *marked {
            row[t] = true;
        }
    }
}

// The entry of a table.
pub(crate) fn cell(table: &[Vec<bool>], s: usize, t: usize) -> bool
    requires square { IsSquare (length table.now) (rows_of table.now) }
    requires row { s < length table.now }
    requires column { t < length table.now }
    ensures { result ≡ entry (rows_of table.now) s t }
{
    table[s][t]
}

// The least sort that the table has below itself.
pub(crate) fn first_in_cycle(table: &[Vec<bool>]) -> Option<usize>
    requires { IsSquare (length table.now) (rows_of table.now) }
    ensures { IsFirstMarked (rows_of table.now) (length table.now) result }
{
    for s in 0..table.len() {
        if cell(table, s, s) {
            return Some(s);
        }
    }
    None
}
