ghost use Rattle.std.specs.Prelude.{◌≡◌, ◌++◌, OnOk, IfOk};
ghost use Rattle.npa_outside.specs.Lines.{numbered, at_place, at_word, counted};

use npa_term::NoMemory;
use npa_text::put_number;
use std::alloc::{AllocError, Global};

/// A text to print, and the status with which the program ends.
#[derive(Debug, Drop)]
pub struct Printed {
    pub text: Vec<u8>,
    pub status: u8,
}

/// A line and its status.
pub fn told(alloc: Global, line: &[u8], status: u8) -> Result<Printed, AllocError>
    ensures text { IfOk result (λ a. a.text.items ≡ line.now) }
    ensures status { IfOk result (λ a. a.status ≡ status) }
{
    let text = Vec::from_slice(alloc, line)?;
    Ok(Printed { text, status })
}

/// Appends some words and a number.
pub fn put_numbered(text: &mut Vec<u8>, words: &[u8], n: u64) -> Result<(), NoMemory>
    ensures { OnOk result (text.new.items ≡ text.old.items ++ numbered words.now n) }
{
    text.extend_from_slice(words)?;
    match put_number(text, n) {
        Ok(()) => Ok(()),
        Err(_) => Err(NoMemory),
    }
}

/// Appends some words, then a line and a column.
pub fn put_place(text: &mut Vec<u8>, words: &[u8], line: u32, col: u32) -> Result<(), NoMemory>
    ensures { OnOk result (text.new.items ≡ text.old.items ++ at_place words.now line col) }
{
    put_numbered(text, words, line as u64)?;
    put_numbered(text, b":", col as u64)?;
    text.extend_from_slice(b"\n")?;
    Ok(())
}

/// Appends some words, the word at fault, its line and column.
pub fn put_word(
    text: &mut Vec<u8>,
    words: &[u8],
    name: &[u8],
    line: u32,
    col: u32,
) -> Result<(), NoMemory>
    ensures { OnOk result (text.new.items ≡ text.old.items ++ at_word words.now name.now line col) }
{
    text.extend_from_slice(words)?;
    text.extend_from_slice(name)?;
    put_place(text, b" ", line, col)
}

/// Appends some words, what is counted, and how many there are.
pub fn put_counted(text: &mut Vec<u8>, words: &[u8], part: &[u8], n: u64) -> Result<(), NoMemory>
    ensures { OnOk result (text.new.items ≡ text.old.items ++ counted words.now part.now n) }
{
    text.extend_from_slice(words)?;
    text.extend_from_slice(part)?;
    put_numbered(text, b" ", n)?;
    text.extend_from_slice(b"\n")?;
    Ok(())
}
