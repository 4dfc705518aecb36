//! The analyser's program.
#![tactic(auto)]

use npa_answers::npa_plain;
use npa_list::List;
use npa_text::{RealFiles, RealOut, Word, Words};
use std::process::ExitCode;
use std::{env, io};

fn main(rt: HostRuntime) -> ExitCode {
    let words = match words_of(&rt) {
        Ok(words) => words,
        Err(error) => match error.kind() {
            io::ErrorKind::OutOfMemory => return ExitCode::from(8),
            // Words that aren't text are no command.
            _ => List::new(rt.alloc()),
        },
    };
    let mut files = RealFiles::new(&rt);
    let mut out = RealOut::new(&rt);
    let ended = npa_plain(rt.alloc(), &words, &mut files, &mut out);
    ExitCode::from(ended.status)
}

// The words of the command line behind the program's name.
fn words_of(rt: &HostRuntime) -> io::Result<Words> {
    let mut words = List::new(rt.alloc());
    for text in env::args(rt)?.skip(1) {
        words.push(Word::new(text))?;
    }
    Ok(words)
}
