ghost use Rattle.std.specs.Prelude.{◌≡◌, ◌++◌, Some, OnOk, IfOk};
ghost use Rattle.npa_replaying.specs.Lines.{invalid, at_param, param_name, cause_text, answer_text, answer_status};

use npa_model::{Cause, Run};
use npa_outside::{Printed, put_numbered, put_place, put_word};
use npa_replay::Replay;
use npa_run_text::{RunTextFail, params_at};
use npa_sig::{Protocol, print_term};
use npa_term::NoMemory;
use std::alloc::Global;

/// The line for a run text that is refused; there is none for want of memory.
pub(crate) fn invalid(alloc: Global, fail: &RunTextFail) -> Result<Printed, NoMemory>
    ensures text { IfOk result (λ a. invalid fail.now ≡ Some a.text.items) }
    ensures status { IfOk result (λ a. a.status ≡ 9) }
{
    let mut text = Vec::new(alloc);
    match fail {
        RunTextFail::Syntax { line, col } => {
            put_place(&mut text, b"invalid syntax ", *line, *col)?;
        }
        RunTextFail::Name { name, line, col } => {
            put_word(&mut text, b"invalid name ", name.as_slice(), *line, *col)?;
        }
        RunTextFail::Sort { name, line, col } => {
            put_word(&mut text, b"invalid sort ", name.as_slice(), *line, *col)?;
        }
        RunTextFail::NoMemory => return Err(NoMemory),
    }
    Ok(Printed { text, status: 9 })
}

/// The line for what comes of a run, and the status.
pub(crate) fn answered(
    alloc: Global,
    protocol: &Protocol,
    run: &Run,
    answer: &Replay,
) -> Result<Printed, NoMemory>
    ensures text { IfOk result (λ a. a.text.items ≡ answer_text protocol.now run.now answer.now) }
    ensures status { IfOk result (λ a. a.status ≡ answer_status answer.now) }
{
    let text = answer_text(alloc, protocol, run, answer)?;
    Ok(Printed {
        text,
        status: answer_status(answer),
    })
}

// The line for what comes of a run.
fn answer_text(
    alloc: Global,
    protocol: &Protocol,
    run: &Run,
    answer: &Replay,
) -> Result<Vec<u8>, NoMemory>
    ensures { IfOk result (λ text. text.items ≡ answer_text protocol.now run.now answer.now) }
{
    let mut text = Vec::new(alloc);
    match answer {
        Replay::Reaches => text.extend_from_slice(b"reaches\n")?,
        Replay::Stops { step, cause } => {
            put_numbered(&mut text, b"stops ", *step as u64)?;
            text.extend_from_slice(b" ")?;
            put_cause(protocol, run, cause, &mut text)?;
            text.extend_from_slice(b"\n")?;
        }
        Replay::Misses { part } => {
            put_numbered(&mut text, b"misses part ", *part as u64)?;
            text.extend_from_slice(b"\n")?;
        }
    }
    Ok(text)
}

// The status for what comes of a run.
fn answer_status(answer: &Replay) -> u8
    ensures { result ≡ answer_status answer.now }
{
    match answer {
        Replay::Reaches => 0,
        Replay::Stops { .. } | Replay::Misses { .. } => 9,
    }
}

// Appends why a run breaks.
fn put_cause(
    protocol: &Protocol,
    run: &Run,
    cause: &Cause,
    text: &mut Vec<u8>,
) -> Result<(), NoMemory>
    ensures { OnOk result (text.new.items ≡ text.old.items ++ cause_text protocol.now run.now cause.now) }
{
    match cause {
        Cause::Params(k) => put_numbered(text, b"params ", *k as u64),
        Cause::Sort(k, p) => put_at_param(protocol, run, b"sort ", *k, *p, text),
        Cause::Normal(k, p) => put_at_param(protocol, run, b"normal ", *k, *p, text),
        Cause::Twice(n) => put_numbered(text, b"twice #", *n as u64),
        Cause::Instance(k) => put_numbered(text, b"instance ", *k as u64),
        Cause::Ended(k) => put_numbered(text, b"ended ", *k as u64),
        Cause::Unsent(t) => {
            text.extend_from_slice(b"unsent ")?;
            print_term(&protocol.sig, t, text)
        }
    }
}

// Appends a word, the number of an instance and the name of its parameter.
fn put_at_param(
    protocol: &Protocol,
    run: &Run,
    word: &[u8],
    k: u32,
    p: u16,
    text: &mut Vec<u8>,
) -> Result<(), NoMemory>
    ensures { OnOk result (text.new.items ≡ text.old.items ++ at_param protocol.now run.now word.now k p) }
{
    put_numbered(text, word, k as u64)?;
    text.extend_from_slice(b" ")?;
    text.extend_from_slice(param_name(protocol, run, k, p))?;
    Ok(())
}

// The name of a parameter of an instance.
fn param_name<'a>(protocol: &'a Protocol, run: &Run, k: u32, p: u16) -> &'a [u8]
    ensures { result.now ≡ param_name protocol.now run.now k p }
{
    match run.instances.get(k as usize) {
        Some(instance) => match params_at(protocol, instance.strand).get(p as usize) {
            Some(name) => name.as_slice(),
            None => &[],
        },
        None => &[],
    }
}
