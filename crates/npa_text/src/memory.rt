ghost use Rattle.std.specs.Prelude.{◌≡◌, ◌≤◌, ◌<◌, ◌↔◌, ℕ, List, [], ◌∷◌, ◌++◌, Option, length, is_ok, OnOk, OnErr, IfSome, IsSome, IsTrue, Contains, slice_get};
ghost use Rattle.std.specs.Option.{option_copied};
ghost use Rattle.std.specs.Result.{IsErrOf};
ghost use Rattle.npa_text.specs.Counts.{Rose, appended, AppendsFront, one_more};
ghost use Rattle.npa_text.specs.MemReads.{is_marked, after_read, answer_of, IsRead};
ghost use Rattle.npa_text.specs.MemPuts.{after_put};
ghost use Rattle.npa_text.specs.Entries.{entry_of, text_in, faults_in, longs_in, with_fault, with_long, changed, place_from};

use crate::fault::NoMemory;
use crate::name::Name;
use crate::outside::{Files, PutFail, ReadFail, Sink};
use crate::token::MOST_BYTES;
use npa_list::List;
use std::alloc::Global;
use std::marker::Model;

/// A list of numbers of calls, from 1.
pub type Marks = List<u64>;

/// A text in memory: its name and its bytes, and how often reading it failed or found it too long.
#[derive(Debug, Drop)]
pub struct MemEntry {
    pub name: Name,
    pub bytes: Name,
    pub faults: u64,
    pub longs: u64,
}

/// The texts of a `MemFiles`, in order. Of two with one name the first counts.
#[derive(Debug, Drop)]
pub struct MemEntries {
    entries: Vec<MemEntry>,
}

impl Model for MemEntries {
    ghost use Rattle.std.specs.Prelude.{List as ListOf};
    ghost use Rattle.npa_text.specs.declared.memory.MemEntry.{MemEntry as Entry};

    ghost Value = { ListOf Entry };

    ghost view = { λ e. e.entries.items };
}

impl MemEntries {
    /// The empty list. It takes no memory.
    pub fn new(alloc: Global) -> MemEntries
        ensures { result ≡ [] }
    {
        MemEntries {
            entries: Vec::new(alloc),
        }
    }

    /// How many texts there are.
    pub fn len(&self) -> usize
        ensures { result ≡ length self.now }
    {
        self.entries.len()
    }

    /// Whether there is no text.
    pub fn is_empty(&self) -> bool
        ensures { IsTrue result ↔ (self.now ≡ []) }
    {
        self.entries.is_empty()
    }

    /// The text at a place, counted from 0: `None` exactly where the place isn't below `len`.
    pub fn get(&self, at: usize) -> Option<&MemEntry>
        ensures { option_copied result ≡ slice_get self.now at }
    {
        self.entries.get(at)
    }

    /// Adds a text at the end. Where memory is wanting the list stays as it was.
    pub fn push(&mut self, entry: MemEntry) -> Result<(), NoMemory>
        ensures ok { OnOk result (self.new ≡ self.old ++ entry ∷ []) }
        ensures err { OnErr result (self.new ≡ self.old) }
    {
        self.entries.push(entry)?;
        Ok(())
    }

    /// The first text with a name.
    pub fn find(&self, name: &[u8]) -> Option<&MemEntry>
        ensures { option_copied result ≡ entry_of self.now name.now }
    {
        find_entry(self.entries.as_slice(), name)
    }

    // Counts a fault of the first text with a name.
    #[tactic(auto, using(crate::proofs::Found::place_within, crate::proofs::Found::fault_added, crate::proofs::Found::changed_nowhere))]
    fn add_fault(&mut self, name: &[u8])
        ensures { self.new ≡ changed with_fault self.old name.now }
    {
        if let Some(at) = place_of(self.entries.as_slice(), name) {
            let entry = &mut self.entries[at];
            entry.faults = one_more(entry.faults);
        }
    }

    // Counts a read that found the first text with a name too long.
    #[tactic(auto, using(crate::proofs::Found::place_within, crate::proofs::Found::long_added, crate::proofs::Found::changed_nowhere))]
    fn add_long(&mut self, name: &[u8])
        ensures { self.new ≡ changed with_long self.old name.now }
    {
        if let Some(at) = place_of(self.entries.as_slice(), name) {
            let entry = &mut self.entries[at];
            entry.longs = one_more(entry.longs);
        }
    }
}

fn find_entry<'a>(entries: &'a [MemEntry], name: &[u8]) -> Option<&'a MemEntry>
    ensures { option_copied result ≡ entry_of entries.now name.now }
{
    for entry in entries {
        if entry.name.as_slice() == name {
            return Some(entry);
        }
    }
    None
}

fn place_of(entries: &[MemEntry], name: &[u8]) -> Option<usize>
    ensures { result ≡ place_from 0 entries.now name.now }
{
    for (at, entry) in entries.iter().enumerate() {
        if entry.name.as_slice() == name {
            return Some(at);
        }
    }
    None
}

// The next count; the last one stays.
fn one_more(count: u64) -> u64
    ensures { result ≡ one_more count }
{
    count.saturating_add(1)
}

/// Texts in memory.
///
/// The numbers in `failing` are those of the calls that fail, from 1; `calls` counts the calls, up to
/// its last value. A name without a text is a fault, which `strange` counts.
#[derive(Debug, Drop)]
pub struct MemFiles {
    pub files: MemEntries,
    pub failing: Marks,
    pub calls: u64,
    pub strange: u64,
}

// Whether the call with this number is to fail.
fn is_marked(failing: &Marks, call: u64) -> bool
    ensures { result ≡ is_marked failing.now call }
{
    failing.as_slice().contains(&call)
}

impl MemFiles {
    /// Reads a text as `Files::read` does: this contract says which answer comes, and what is counted.
    #[tactic(auto, using(crate::proofs::Later::long_keeps_faults))]
    pub fn read_entry(&mut self, name: &str, into: &mut Vec<u8>) -> Result<(), ReadFail>
        requires { into.old.items ≡ [] }
        ensures counts { self.new ≡ after_read self.old name.now }
        ensures answer { IsRead result into.new.items (answer_of self.old name.now) }

        // With no call marked, no name with a text has a fault more.
        ensures unmarked { self.old.failing ≡ [] → (n : List ℕ) → IsSome (entry_of self.old.files n)
            → faults_in (entry_of self.new.files n) self.new.strange
            ≡ faults_in (entry_of self.old.files n) self.old.strange }
    {
        self.calls = one_more(self.calls);
        let marked = is_marked(&self.failing, self.calls);
        let Some(entry) = self.files.find(name.as_bytes()) else {
            self.strange = one_more(self.strange);
            return Err(ReadFail::Fault);
        };
        if marked {
            self.files.add_fault(name.as_bytes());
            return Err(ReadFail::Fault);
        }
        if entry.bytes.len() > MOST_BYTES {
            self.files.add_long(name.as_bytes());
            return Err(ReadFail::TooLong);
        }
        into.extend_from_slice(entry.bytes.as_slice())?;
        Ok(())
    }
}

impl Files for MemFiles {
    ghost use Rattle.npa_text.specs.Entries.{entry_of, text_in, faults_in, longs_in};

    ghost holds = { λ s n. text_in (entry_of s.files n) };

    ghost faults = { λ s n. faults_in (entry_of s.files n) s.strange };

    ghost longs = { λ s n. longs_in (entry_of s.files n) };

    fn read(&mut self, name: &str, into: &mut Vec<u8>) -> Result<(), ReadFail> {
        self.read_entry(name, into)
    }
}

/// What is written to memory.
///
/// The numbers in `failing` are those of the calls that fail, from 1, and write nothing; `calls`
/// counts the calls, up to its last value, and `faults` those that failed.
#[derive(Debug, Drop)]
pub struct MemSink {
    pub written: Name,
    pub failing: Marks,
    pub calls: u64,
    pub faults: u64,
}

impl MemSink {
    /// Writes a piece as `Sink::put` does: this contract says which answer comes, and what is counted.
    pub fn put_piece(&mut self, bytes: &[u8]) -> Result<(), PutFail>
        ensures state { self.new ≡ after_put self.old bytes.now (is_ok result) }
        ensures fault { IsErrOf result PutFail.Fault
            ↔ IsTrue (is_marked self.old.failing (one_more self.old.calls)) }
        ensures unmarked { self.old.failing ≡ [] → self.new.faults ≡ self.old.faults }
    {
        self.calls = one_more(self.calls);
        if is_marked(&self.failing, self.calls) {
            self.faults = one_more(self.faults);
            return Err(PutFail::Fault);
        }
        self.written.extend_from_slice(bytes)?;
        Ok(())
    }
}

impl Sink for MemSink {
    ghost use Rattle.std.specs.Prelude.{Some};

    ghost written = { λ s. Some s.written };

    ghost faults = { λ s. s.faults };

    fn put(&mut self, bytes: &[u8]) -> Result<(), PutFail> {
        self.put_piece(bytes)
    }
}
