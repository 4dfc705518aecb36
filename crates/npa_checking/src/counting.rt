ghost use Rattle.std.specs.Prelude.{◌≡◌, ◌<◌, ◌≤◌, IfOk, Some, length, slice_get};
ghost use Rattle.npa_sig.specs.declared.protocol.Strand.{Strand};
ghost use Rattle.npa_rewrite.specs.Theories.{theory_of};
ghost use Rattle.npa_variants.specs.Ready.{strand_rows};
ghost use Rattle.npa_checking.specs.Lines.{found_count, passed_text, variant_count};

use npa_close::Checked;
use npa_outside::{Printed, put_numbered};
use npa_term::NoMemory;
use npa_variants::Ready;
use std::alloc::Global;

/// The line for a module of this name of which every check holds, with the numbers of its strands and of
/// all variants of its strands.
pub fn ok_line(alloc: Global, name: &[u8], checked: &Checked) -> Result<Printed, NoMemory>
    ensures text { IfOk result (λ a. a.text.items ≡ passed_text name.now checked.now.0) }
    ensures status { IfOk result (λ a. a.status ≡ 0) }
{
    let ready = checked.ready();
    let strands = ready.protocol().strands.len();
    let variants = variant_count(ready);
    let mut text = Vec::from_slice(alloc, b"ok ")?;
    text.extend_from_slice(name)?;
    put_numbered(&mut text, b" strands ", strands as u64)?;
    put_numbered(&mut text, b" variants ", variants)?;
    text.extend_from_slice(b"\n")?;
    Ok(Printed { text, status: 0 })
}

// How many variants the strands of a protocol have together.
fn variant_count(ready: &Ready) -> u64
    ensures { result ≡ variant_count ready.now }
{
    ready.laws();
    let mut count: u64 = 0;
    for place in 0..ready.protocol().strands.len() {
        count += strand_count(ready, place as u16);
    }
    count
}

// How many variants a strand has, by its place.
fn strand_count(ready: &Ready, place: u16) -> u64
    requires { place < length ready.now.strands }
    ensures count { (strand : Strand) → slice_get ready.now.strands place ≡ Some strand
        → result ≡ found_count (strand_rows (theory_of ready.now) strand) }
    ensures few { result ≤ 64 }
{
    ready.strand_variants(place).len() as u64
}
