//! The program for words of a command line, over any files and any place to write to.

ghost use Rattle.std.specs.Prelude.{◌≡◌, ◌⊎◌, true, IfOk};
ghost use Rattle.std.specs.Result.{IsErrOf};
ghost use Rattle.npa_text.specs.Counts.{Rose};
ghost use Rattle.npa_outside.specs.Outside.{counted};
ghost use Rattle.npa_answers.specs.Answers.{IsFor, AreTold, ReadFault, Prints, PrintsFront, Succeeds, is_told};

use crate::checking::check_answer;
use crate::commands::{Command, read_command, word};
use crate::lines::usage;
use crate::replaying::replay_answer;
use npa_outside::{Halt, Printed};
use npa_text::{Files, PutFail, Sink, Words};
use std::alloc::Global;

/// How the program ended.
#[derive(Clone, Copy, Debug, PartialEq, Eq)]
pub struct Ended {
    /// 0 where the module passes or the run reaches the aim, 2 for words that are no command, 3 for a
    /// module that is refused, 4 for a file that can't be read, 5 for a text that can't be written, 7 where a limit is
    /// passed, 8 for want of memory, 9 for a run that is refused, breaks or misses a part.
    pub status: u8,
}

/// Does what the words ask for. `check FILE` makes all checks of the module of FILE; `replay FILE AIM RUN`
/// replays the run of the file RUN against an aim of it. The module's text is looked at first: its length,
/// its syntax, its limits, its names and sorts, and then its checks: the ground terms of its sorts, whether
/// its theory is convergent, the variants of its strands and what originates in them, whether its aims are
/// accepted; for a replay then the aim's name; then the run's text in the same way; and then the run. The
/// text is made first and written at once. Words that are no command, and a command that isn't built yet,
/// are answered by the usage line.
#[tactic(auto, using(crate::proofs::Showing::told_succeeds, crate::proofs::Showing::told_status))]
pub fn npa_plain<F: Files, K: Sink>(
    alloc: Global,
    words: &Words,
    files: &mut F,
    out: &mut K,
) -> Ended
    // The whole text for the words is written, with its status.
    ensures printed { is_told result.status ≡ true → Prints
        (counted (F.holds files.old) (F.longs files.old) (F.longs files.new) (F.faults files.old) (F.faults files.new))
        words.now (K.written out.old) (K.written out.new) result.status }

    // The status is 0 only where the module of `check` passes all checks, or the run of `replay` reaches
    // the aim, and where the files' texts are known, in each such case in which the text is written.
    ensures succeeds { result.status ≡ 0 → Succeeds
        (counted (F.holds files.old) (F.longs files.old) (F.longs files.new) (F.faults files.old) (F.faults files.new))
        words.now }
    ensures succeeded { is_told result.status ≡ true
        → AreTold (counted (F.holds files.old) (F.longs files.old) (F.longs files.new) (F.faults files.old) (F.faults files.new)) words.now
        → Succeeds (counted (F.holds files.old) (F.longs files.old) (F.longs files.new) (F.faults files.old) (F.faults files.new)) words.now
        → result.status ≡ 0 }
    ensures unread { result.status ≡ 4 → ReadFault
        (counted (F.holds files.old) (F.longs files.old) (F.longs files.new) (F.faults files.old) (F.faults files.new))
        words.now }
    ensures unwritten { result.status ≡ 5 → Rose (K.faults out.old) (K.faults out.new) }
    ensures front { result.status ≡ 5 → PrintsFront
        (counted (F.holds files.old) (F.longs files.old) (F.longs files.new) (F.faults files.old) (F.faults files.new))
        words.now (K.written out.old) (K.written out.new) }

    // Where a file can't be read, or memory is wanting, nothing is written.
    ensures nothing { (result.status ≡ 4) ⊎ (result.status ≡ 8) → K.written out.new ≡ K.written out.old }
    ensures statuses { (is_told result.status ≡ true) ⊎ ((result.status ≡ 4) ⊎ ((result.status ≡ 5) ⊎ (result.status ≡ 8))) }
{
    let answer = match answer_for(alloc, words, files) {
        Ok(answer) => answer,
        Err(Halt::Fault) => return Ended { status: 4 },
        Err(Halt::NoMemory) => return Ended { status: 8 },
    };
    match out.put(answer.text.as_slice()) {
        Ok(()) => Ended {
            status: answer.status,
        },
        Err(PutFail::Fault) => Ended { status: 5 },
        Err(PutFail::NoMemory) => Ended { status: 8 },
    }
}

// The text and the status for the words.
fn answer_for<F: Files>(alloc: Global, words: &Words, files: &mut F) -> Result<Printed, Halt>
    ensures shown { IfOk result (λ a. IsFor
        (counted (F.holds files.old) (F.longs files.old) (F.longs files.new) (F.faults files.old) (F.faults files.new))
        words.now a.text.items a.status) }
    ensures fault { IsErrOf result Halt.Fault → ReadFault
        (counted (F.holds files.old) (F.longs files.old) (F.longs files.new) (F.faults files.old) (F.faults files.new))
        words.now }
{
    match read_command(words) {
        Some(Command::Check) => check_answer(alloc, files, word(words, 1)),
        Some(Command::Replay) => replay_answer(
            alloc,
            files,
            word(words, 1),
            word(words, 2),
            word(words, 3),
        ),
        _ => Ok(usage(alloc)?),
    }
}
