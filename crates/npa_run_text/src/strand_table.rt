//! The strands of a protocol by their names.

ghost use Rattle.std.specs.Prelude.{◌≡◌, ◌≤◌, ◌++◌, ◌∷◌, [], is_none, if◌then◌else◌, length, IfOk, OnOk};
ghost use Rattle.npa_names.specs.Names.{place_of};
ghost use Rattle.npa_run_text.specs.RunTexts.{IsTableOf, found_in};

use npa_names::NameTable;
use npa_sig::Strand;
use std::alloc::{AllocError, Global};

/// The strands of a protocol by their names. Of strands with one name it has the first. A strand is
/// found in constant time.
#[derive(Debug, Drop)]
pub(crate) struct StrandTable {
    names: NameTable,
    // For each name the place of its first strand.
    places: Vec<u16>,
}

/// The table of these strands.
pub(crate) fn table_of(alloc: Global, strands: &[Strand]) -> Result<StrandTable, AllocError>
    requires { length strands.now ≤ 65535 }
    ensures { IfOk result (IsTableOf strands.now) }
{
    let mut table = StrandTable {
        names: NameTable::new(alloc),
        places: Vec::new(alloc),
    };
    for k in 0..strands.len() {
        add_strand(alloc, &mut table, strands[k].name.as_slice(), k as u16)?;
    }
    Ok(table)
}

// Puts a strand behind the others, unless one of its name is there.
fn add_strand(
    alloc: Global,
    table: &mut StrandTable,
    name: &[u8],
    place: u16,
) -> Result<(), AllocError>
    ensures names { OnOk result (table.new.names ≡ (if is_none (place_of name.now table.old.names) then table.old.names ++ name.now ∷ [] else table.old.names)) }
    ensures places { OnOk result (table.new.places.items ≡ (if is_none (place_of name.now table.old.names) then table.old.places.items ++ place ∷ [] else table.old.places.items)) }
{
    if !table.names.insert(alloc, name)? {
        return Ok(());
    }
    table.places.push(place)?;
    Ok(())
}

impl StrandTable {
    /// The place of the first strand of a name.
    pub(crate) fn place(&self, name: &[u8]) -> Option<u16>
        ensures { result ≡ found_in self.now name.now }
    {
        match self.names.place(name) {
            Some(at) => match self.places.get(at) {
                Some(place) => Some(*place),
                None => None,
            },
            None => None,
        }
    }
}
