ghost use Rattle.std.specs.Prelude.{◌≡◌, ◌≤◌, [], None, length, OnOk};

use crate::outside::{Files, PutFail, ReadFail, Sink};
use crate::token::MOST_BYTES;
use std::io::{Read, Write};
use std::rt::Files as SystemFiles;
use std::{fs, io};

/// The files of the system, by their paths. Contracts tell nothing of what they hold.
///
/// `faults` counts the errors of all names, and `longs` the files that were too long.
#[derive(Debug, Drop)]
pub struct RealFiles<R> {
    runtime: R,
    pub faults: u64,
    pub longs: u64,
}

impl<R: SystemFiles + Drop> RealFiles<R> {
    /// With no error so far. It takes no memory.
    pub fn new(runtime: R) -> RealFiles<R>
        ensures faults { result.faults ≡ 0 }
        ensures longs { result.longs ≡ 0 }
    {
        RealFiles {
            runtime,
            faults: 0,
            longs: 0,
        }
    }
}

impl<R: SystemFiles + Drop> Files for RealFiles<R> {
    ghost holds = { λ s n. None };

    ghost faults = { λ s n. s.faults };

    ghost longs = { λ s n. s.longs };

    fn read(&mut self, name: &str, into: &mut Vec<u8>) -> Result<(), ReadFail> {
        match read_file(&self.runtime, name, into) {
            Ok(()) => Ok(()),
            Err(fail) => {
                into.clear();
                match fail {
                    ReadFail::Fault => self.faults = self.faults.saturating_add(1),
                    ReadFail::TooLong => self.longs = self.longs.saturating_add(1),
                    ReadFail::NoMemory => {}
                }
                Err(fail)
            }
        }
    }
}

// Appends the bytes of a file, as long as there are at most as many as a text may have.
fn read_file<R: SystemFiles>(runtime: &R, name: &str, into: &mut Vec<u8>) -> Result<(), ReadFail>
    ensures { OnOk result (length into.new.items ≤ 1048576) }
{
    let mut file = open(runtime, name)?;
    let mut piece = [0u8; 16384];
    while into.len() <= MOST_BYTES {
        let room = piece.len().min(MOST_BYTES + 1 - into.len());
        let count = file.read(&mut piece[..room]).map_err(|_| ReadFail::Fault)?;
        if count == 0 {
            return Ok(());
        }
        into.extend_from_slice(&piece[..count])?;
    }
    Err(ReadFail::TooLong)
}

fn open<R: SystemFiles>(runtime: &R, name: &str) -> Result<R::File, ReadFail> {
    match fs::open(runtime, name) {
        Ok(file) => Ok(file),
        Err(_) => Err(ReadFail::Fault),
    }
}

/// The standard output. Contracts tell nothing of what was written; `faults` counts the errors.
#[derive(Debug, Drop)]
pub struct RealOut<R> {
    runtime: R,
    pub faults: u64,
}

impl<R: io::Print + Drop> RealOut<R> {
    /// With no error so far. It takes no memory.
    pub fn new(runtime: R) -> RealOut<R>
        ensures { result.faults ≡ 0 }
    {
        RealOut { runtime, faults: 0 }
    }
}

impl<R: io::Print + Drop> Sink for RealOut<R> {
    ghost written = { λ s. None };

    ghost faults = { λ s. s.faults };

    fn put(&mut self, bytes: &[u8]) -> Result<(), PutFail> {
        if write_whole(&self.runtime, bytes) {
            return Ok(());
        }
        self.faults = self.faults.saturating_add(1);
        Err(PutFail::Fault)
    }
}

// Whether all bytes were written and flushed. A write that takes nothing has failed.
fn write_whole<R: io::Print>(runtime: &R, bytes: &[u8]) -> bool {
    let mut out = io::writer(runtime);
    let mut rest = bytes;
    while !rest.is_empty() {
        match out.write(rest) {
            Ok(0) | Err(_) => return false,
            Ok(count) => rest = &rest[count..],
        }
    }
    out.flush().is_ok()
}
