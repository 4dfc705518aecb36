ghost use Rattle.std.specs.Prelude.{◌≡◌, ℕ, false, true, ◌++◌, length, map, Contains, IfOk, OnOk};
ghost use Rattle.std.specs.List.{flat_map};
ghost use Rattle.npa_term.specs.Variables.{variables};
ghost use Rattle.npa_replay.specs.Groups.{AreLinks, HasSharers, is_marked, numbers_of, strand_keys, variable_keys};

use npa_list::List;
use npa_model::Part;
use npa_term::{NoMemory, Term};
use std::alloc::Global;

// How many keys a table of marks tells apart: more than the variables of all but monstrous aims.
const MARKS: usize = 65536;

/// For each part the places of the parts that share a variable with it.
pub(crate) fn links_by_variable(alloc: Global, parts: &[Part]) -> Result<Vec<List<usize>>, NoMemory>
    ensures { IfOk result (λ links. AreLinks (map variable_keys parts.now) links.items) }
{
    let mut keys = Vec::with_capacity(alloc, parts.len())?;
    for part in parts {
        keys.push(keys_of_variables(alloc, part)?)?;
    }
    sharing(alloc, keys.as_slice())
}

/// For each part the places of the parts that ask for instances of the same strand that have
/// executed as many events.
pub(crate) fn links_by_strand(alloc: Global, parts: &[Part]) -> Result<Vec<List<usize>>, NoMemory>
    ensures { IfOk result (λ links. AreLinks (map strand_keys parts.now) links.items) }
{
    let mut keys = Vec::with_capacity(alloc, parts.len())?;
    for part in parts {
        keys.push(keys_of_strand(alloc, part)?)?;
    }
    sharing(alloc, keys.as_slice())
}

// The numbers of the variables of a part's terms.
fn keys_of_variables(alloc: Global, part: &Part) -> Result<List<usize>, NoMemory>
    ensures { IfOk result (λ keys. keys ≡ variable_keys part.now) }
{
    let mut keys = List::new(alloc);
    match part {
        Part::Known(t) => add_variables(&mut keys, t)?,
        Part::Strand { args, .. } => add_all_variables(&mut keys, args.as_slice())?,
    }
    Ok(keys)
}

// Adds the numbers of a term's variables.
#[cycle(variables)]
#[tactic(auto, using(crate::proofs::Linking::numbers_at))]
fn add_variables(keys: &mut List<usize>, t: &Term) -> Result<(), NoMemory>
    ensures { OnOk result (keys.new ≡ keys.old ++ numbers_of (variables t.now)) }
{
    match t {
        Term::Var(v) => keys.push(v.num as usize)?,
        Term::Name(_) => {}
        Term::App(_, args) => add_all_variables(keys, args.as_slice())?,
    }
    Ok(())
}

// Adds the numbers of the variables of several terms.
#[cycle(variables)]
#[tactic(auto, using(crate::proofs::Linking::numbers_step, crate::proofs::Linking::numbers_past))]
fn add_all_variables(keys: &mut List<usize>, ts: &[Term]) -> Result<(), NoMemory>
    ensures { OnOk result (keys.new ≡ keys.old ++ numbers_of (flat_map variables ts.now)) }
{
    for t in ts {
        add_variables(keys, t)?;
    }
    Ok(())
}

// One number for the strand and the bar that a strand part asks for.
fn keys_of_strand(alloc: Global, part: &Part) -> Result<List<usize>, NoMemory>
    ensures { IfOk result (λ keys. keys ≡ strand_keys part.now) }
{
    let mut keys = List::new(alloc);
    match part {
        Part::Known(_) => {}
        Part::Strand { strand, bar, .. } => keys.push(*strand as usize * 64 + *bar as usize)?,
    }
    Ok(keys)
}

// For each list of keys the places of those that share a key with it.
fn sharing(alloc: Global, keys: &[List<usize>]) -> Result<Vec<List<usize>>, NoMemory>
    ensures { IfOk result (λ links. AreLinks keys.now links.items) }
{
    let mut links = Vec::with_capacity(alloc, keys.len())?;
    for own in keys {
        links.push(sharers(alloc, own.as_slice(), keys)?)?;
    }
    Ok(links)
}

// The places of the lists that share a key with this one.
fn sharers(alloc: Global, own: &[usize], keys: &[List<usize>]) -> Result<List<usize>, NoMemory>
    ensures { IfOk result (λ places. HasSharers own.now keys.now places) }
{
    let marks = marked(alloc, own)?;
    let mut places = List::new(alloc);
    for j in 0..keys.len() {
        if has_mark(marks.as_slice(), keys[j].as_slice()) {
            places.push(j)?;
        }
    }
    Ok(places)
}

// A table with a mark at each of these keys.
fn marked(alloc: Global, keys: &[usize]) -> Result<Vec<bool>, NoMemory>
    ensures { IfOk result (λ marks. (key : ℕ) → Contains keys.now key → is_marked marks.items key ≡ true) }
{
    let mut marks = blank(alloc, MARKS)?;
    for key in keys {
        mark(marks.as_mut_slice(), *key);
    }
    Ok(marks)
}

// A table of so many keys, none of which is marked.
fn blank(alloc: Global, size: usize) -> Result<Vec<bool>, NoMemory>
    ensures { IfOk result (λ marks. length marks.items ≡ size) }
{
    Ok(vec![in alloc; false; size]?)
}

// Marks a key of the table.
#[tactic(auto, using(crate::proofs::Linking::marked_here, crate::proofs::Linking::marked_past, crate::proofs::Linking::marked_kept))]
fn mark(marks: &mut [bool], key: usize)
    ensures here { is_marked marks.new key ≡ true }
    ensures kept { (other : ℕ) → is_marked marks.old other ≡ true → is_marked marks.new other ≡ true }
{
    if key < marks.len() {
        marks[key] = true;
    }
}

// Whether one of the keys is marked.
fn has_mark(marks: &[bool], keys: &[usize]) -> bool
    ensures { result ≡ false → (key : ℕ) → Contains keys.now key → is_marked marks.now key ≡ false }
{
    for key in keys {
        if has_mark_at(marks, *key) {
            return true;
        }
    }
    false
}

// Whether the key is marked. One past the table counts as marked.
fn has_mark_at(marks: &[bool], key: usize) -> bool
    ensures { result ≡ is_marked marks.now key }
{
    match marks.get(key) {
        Some(mark) => *mark,
        None => true,
    }
}
