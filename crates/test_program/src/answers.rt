//! The program's answers over files in memory.

use npa_answers::npa_plain;
use npa_list::List;
use npa_text::{
    Marks, MemEntries, MemEntry, MemFiles, MemSink, Name, NoMemory, Word, Words, put_number,
};
use std::alloc::{AllocError, Global};
use std::test::Fail;
use test_tables::{Answers, put_text};

/// The run of the tables in which the rows differ in something else.
pub(crate) const RUN: &str = "use one use two X=f(a) do 0 1 1";

/// What the files `m` and `r` hold, and the numbers, from 1, of the read and the write that fail.
#[derive(Clone, Copy)]
struct Held<'a> {
    module: &'a [u8],
    run: &'a [u8],
    read: u64,
    write: u64,
}

fn put_entry(
    alloc: Global,
    entries: &mut MemEntries,
    name: &[u8],
    bytes: &[u8],
) -> Result<(), NoMemory> {
    let name = Name::from_slice(alloc, name)?;
    let bytes = Name::from_slice(alloc, bytes)?;
    entries.push(MemEntry {
        name,
        bytes,
        faults: 0,
        longs: 0,
    })
}

fn entries_of(alloc: Global, outside: &Held<'_>) -> Result<MemEntries, NoMemory> {
    let mut entries = MemEntries::new(alloc);
    put_entry(alloc, &mut entries, b"m", outside.module)?;
    put_entry(alloc, &mut entries, b"r", outside.run)?;
    Ok(entries)
}

fn files_of(alloc: Global, outside: &Held<'_>) -> Result<MemFiles, NoMemory> {
    let failing = Marks::from_slice(alloc, &[outside.read])?;
    let files = entries_of(alloc, outside)?;
    Ok(MemFiles {
        files,
        failing,
        calls: 0,
        strange: 0,
    })
}

// The sink in which `>` stands already.
fn sink_of(alloc: Global, outside: &Held<'_>) -> Result<MemSink, NoMemory> {
    let failing = Marks::from_slice(alloc, &[outside.write])?;
    let written = Name::from_slice(alloc, b">")?;
    Ok(MemSink {
        written,
        failing,
        calls: 0,
        faults: 0,
    })
}

// The status, the number of reads and what the sink holds, with a blank between them.
fn told(alloc: Global, status: u8, reads: u64, text: &[u8]) -> Result<Vec<u8>, NoMemory> {
    let mut out = Vec::new(alloc);
    put_number(&mut out, status as u64)?;
    out.push(b' ')?;
    put_number(&mut out, reads)?;
    out.push(b' ')?;
    out.extend_from_slice(text)?;
    Ok(out)
}

// The answer for these words: the status, the number of reads, and the written text behind `>`.
fn answer(alloc: Global, words: &Words, outside: &Held<'_>) -> Result<Vec<u8>, NoMemory> {
    let mut files = files_of(alloc, outside)?;
    let mut out = sink_of(alloc, outside)?;
    let ended = npa_plain(alloc, words, &mut files, &mut out);
    told(alloc, ended.status, files.calls, out.written.as_slice())
}

fn put_word(alloc: Global, words: &mut Words, word: &str) -> Result<(), AllocError> {
    words.push(Word::new(String::from_str(alloc, word)?))
}

/// The words of a text, each of which is followed by one blank but the last. The empty text has none.
pub(crate) fn words_of(alloc: Global, text: &str) -> Result<Words, AllocError> {
    let mut words = List::new(alloc);
    let mut rest = text;
    for _ in 0..text.len() {
        let Some((word, more)) = rest.split_once(' ') else {
            put_word(alloc, &mut words, rest)?;
            return Ok(words);
        };
        put_word(alloc, &mut words, word)?;
        rest = more;
    }
    Ok(words)
}

// The answer where the files hold these texts and no call fails.
fn sound_answer(
    alloc: Global,
    words: &str,
    module: &[u8],
    run: &[u8],
    out: &mut Vec<u8>,
) -> Result<(), Fail> {
    let held = Held {
        module,
        run,
        read: 0,
        write: 0,
    };
    let words = words_of(alloc, words)?;
    out.extend_from_slice(answer(alloc, &words, &held)?.as_slice())?;
    Ok(())
}

// A text of a table.
fn text_of(alloc: Global, text: &str) -> Result<Vec<u8>, Fail> {
    let mut out = Vec::new(alloc);
    put_text(text, &mut out)?;
    Ok(out)
}

/// The answers for runs of a module: a row gives an aim's name and, behind `: `, a run.
#[derive(Drop)]
pub(crate) struct Runs {
    pub(crate) module: &'static str,
}

impl Answers for Runs {
    fn answer(&self, alloc: Global, given: &str, out: &mut Vec<u8>) -> Result<(), Fail> {
        let Some((aim, run)) = given.split_once(": ") else {
            return Ok(());
        };
        let words = format!(in alloc; "replay m {aim} r")?;
        let module = text_of(alloc, self.module)?;
        sound_answer(
            alloc,
            words.as_str(),
            module.as_slice(),
            run.as_bytes(),
            out,
        )
    }
}

/// The answers for modules with one run and the aim `got`: a row gives what stands behind the head.
#[derive(Drop)]
pub(crate) struct Modules {
    pub(crate) head: &'static str,
    pub(crate) run: &'static str,
}

impl Answers for Modules {
    fn answer(&self, alloc: Global, given: &str, out: &mut Vec<u8>) -> Result<(), Fail> {
        let module = format!(in alloc; "{}{given}", self.head)?;
        sound_answer(
            alloc,
            "replay m got r",
            module.as_bytes(),
            self.run.as_bytes(),
            out,
        )
    }
}

/// The answers of `check` for modules: a row gives what stands behind the head.
#[derive(Drop)]
pub(crate) struct Checks {
    pub(crate) head: &'static str,
}

impl Answers for Checks {
    fn answer(&self, alloc: Global, given: &str, out: &mut Vec<u8>) -> Result<(), Fail> {
        let module = format!(in alloc; "{}{given}", self.head)?;
        sound_answer(alloc, "check m", module.as_bytes(), RUN.as_bytes(), out)
    }
}

/// The answers for words of the command line, over one module and one run.
#[derive(Drop)]
pub(crate) struct Commands {
    pub(crate) module: &'static str,
}

impl Answers for Commands {
    fn answer(&self, alloc: Global, given: &str, out: &mut Vec<u8>) -> Result<(), Fail> {
        sound_answer(alloc, given, self.module.as_bytes(), RUN.as_bytes(), out)
    }
}

/// The answers where the read and the write of two numbers fail.
#[derive(Drop)]
pub(crate) struct Faults {
    pub(crate) module: &'static str,
}

impl Answers for Faults {
    fn answer(&self, alloc: Global, given: &str, out: &mut Vec<u8>) -> Result<(), Fail> {
        let Some((read, write)) = given.split_once(' ') else {
            return Ok(());
        };
        let held = Held {
            module: self.module.as_bytes(),
            run: RUN.as_bytes(),
            read: read.parse::<u64>()?,
            write: write.parse::<u64>()?,
        };
        let words = words_of(alloc, "replay m got r")?;
        out.extend_from_slice(answer(alloc, &words, &held)?.as_slice())?;
        Ok(())
    }
}
