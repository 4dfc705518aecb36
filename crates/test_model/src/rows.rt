//! What the first steps of an attack meet.

ghost use Rattle.std.specs.Prelude.{◌≡◌, ◌≤◌, length, IfOk};
ghost use Rattle.npa_module.specs.Forms.{IsPlainSource, IsWellFormedSource};
ghost use Rattle.npa_rewrite.specs.Rewriting.{AllCancel};
ghost use Rattle.npa_model.specs.State.{AreCountable};
ghost use Rattle.npa_model.specs.WellFormed.{IsWellFormedRun};
ghost use Rattle.npa_sig.specs.WellFormed.{IsWellFormedProtocol};

use crate::reading::pattern_of;
use npa_model::{
    Pattern, Run, RunState, Standing, is_fit, is_initial, is_met, pattern_symbols, step_run,
};
use npa_module::{Source, read};
use npa_rewrite::{Theory, all_cancel};
use npa_run_text::read_run;
use npa_sig::Protocol;
use npa_text::{MOST_BYTES, put_number};
use std::alloc::Global;
use std::test::Fail;
use test_tables::Answers;

// The public-key protocol of Needham and Schroeder, with an intruder who has the key of `i`.
const NSPK: &str = "protocol NSPK;
sort Name; sort Nonce;
op a : -> Name; op b : -> Name; op i : -> Name;
op n : Name Fresh -> Nonce; op p : Msg Msg -> Msg;
op pk : Name Msg -> Msg; op sk : Name Msg -> Msg;
eq vars K:Name M:Msg : pk(K,sk(K,M)) = M;
eq vars K:Name M:Msg : sk(K,pk(K,M)) = M;
intruder join vars X:Msg Y:Msg : - X, - Y, + p(X,Y);
intruder left vars X:Msg Y:Msg : - p(X,Y), + X;
intruder right vars X:Msg Y:Msg : - p(X,Y), + Y;
intruder seal vars A:Name X:Msg : - X, + pk(A,X);
intruder unseal vars X:Msg : - X, + sk(i,X);
intruder name vars A:Name : + A;
strand init fresh r vars A:Name B:Name NB:Nonce :
  + pk(B,p(n(A,r),A)), - pk(A,p(n(A,r),NB)), + pk(B,NB);
strand resp fresh r vars A:Name B:Name NA:Nonce :
  - pk(B,p(NA,A)), + pk(A,p(NA,n(B,r))), - pk(B,n(B,r));
aim lowe vars NA:Nonce F:Fresh :
  strand resp(A=a,B=b,NA=NA,r=F) at 3, known n(b,F);";

// Lowe's attack: `a` begins with `i`, who speaks to `b` in the name of `a`.
const LOWE: &str = "use init A=a B=i NB=n(b,#1) r=#0
use unseal X=pk(i,p(n(a,#0),a))
use seal A=b X=p(n(a,#0),a)
use resp A=a B=b NA=n(a,#0) r=#1
use unseal X=pk(i,n(b,#1))
use seal A=b X=n(b,#1)
do 0 1 1 2 2 3 3 0 0 4 4 5 5 3";

/// Answers with what is told of a ground pattern over the first steps of the attack. A row gives
/// their number, `exactly` or `least`, and the pattern; or, with `fit`, the pattern alone, for
/// whether it fits, whether it is initial and how many symbols it has.
#[derive(Drop)]
pub(crate) struct Rows {}

impl Answers for Rows {
    fn answer(&self, alloc: Global, given: &str, out: &mut Vec<u8>) -> Result<(), Fail> {
        let module = NSPK;
        if module.len() > MOST_BYTES {
            return Err(Fail::new("the module is too long"));
        }
        match read(alloc, module.as_bytes()) {
            Ok(source) => put_row(alloc, &source, given, out),
            Err(_) => Err(Fail::new("no module")),
        }
    }
}

fn put_row(alloc: Global, source: &Source, given: &str, out: &mut Vec<u8>) -> Result<(), Fail>
    requires formed { IsWellFormedSource source.now }
    requires plain { IsPlainSource source.now }
{
    let protocol = &source.protocol;
    let theory = Theory::of(alloc, protocol)?;
    if !all_cancel(&theory) {
        return Err(Fail::new("the equations don't cancel"));
    }
    put_answer(alloc, &theory, protocol, given, out)
}

fn put_answer(
    alloc: Global,
    theory: &Theory,
    protocol: &Protocol,
    given: &str,
    out: &mut Vec<u8>,
) -> Result<(), Fail>
    requires cancelling { AllCancel theory.now }
    requires protocol { IsWellFormedProtocol protocol.now }
    requires few { length protocol.now.strands ≤ 65535 }
{
    let Some((word, rest)) = given.split_once(' ') else {
        return Err(Fail::new("a row has one word"));
    };
    match word {
        "fit" => {
            let pattern = pattern_of(alloc, theory, protocol, rest)?;
            put_fit(alloc, protocol, &pattern, out)
        }
        _ => put_met(alloc, theory, protocol, word.parse::<u32>()?, rest, out),
    }
}

// Whether the first steps, so many, meet what the text says.
fn put_met(
    alloc: Global,
    theory: &Theory,
    protocol: &Protocol,
    steps: u32,
    text: &str,
    out: &mut Vec<u8>,
) -> Result<(), Fail>
    requires cancelling { AllCancel theory.now }
    requires protocol { IsWellFormedProtocol protocol.now }
    requires few { length protocol.now.strands ≤ 65535 }
{
    let Some((word, text)) = text.split_once(' ') else {
        return Err(Fail::new("a row has no pattern"));
    };
    let pattern = pattern_of(alloc, theory, protocol, text)?;
    let run = run_of(alloc, protocol)?;
    let state = executed(alloc, theory, protocol, &run, steps)?;
    let instances = &run.instances;
    let standing = standing_of(word);
    let met = is_met(
        alloc, theory, protocol, instances, &state, standing, &pattern,
    )?;
    put_yes(met, out)
}

fn standing_of(word: &str) -> Standing {
    match word {
        "least" => Standing::AtLeast,
        _ => Standing::Exactly,
    }
}

// Whether the pattern fits, whether it is initial and how many symbols it has.
fn put_fit(
    alloc: Global,
    protocol: &Protocol,
    pattern: &Pattern,
    out: &mut Vec<u8>,
) -> Result<(), Fail> {
    let copy = pattern.copy(alloc)?;
    if !pattern.same(&copy) {
        return Err(Fail::new("a copy differs"));
    }
    put_yes(is_fit(alloc, protocol, pattern)?, out)?;
    out.push(b' ')?;
    put_yes(is_initial(protocol, pattern), out)?;
    out.push(b' ')?;
    put_number(out, pattern_symbols(pattern))?;
    Ok(())
}

fn put_yes(yes: bool, out: &mut Vec<u8>) -> Result<(), Fail> {
    out.extend_from_slice(if yes { b"yes" } else { b"no" })?;
    Ok(())
}

// The attack.
fn run_of(alloc: Global, protocol: &Protocol) -> Result<Run, Fail>
    requires few { length protocol.now.strands ≤ 65535 }
    ensures { IfOk result (IsWellFormedRun protocol.now.sig) }
{
    let text = LOWE;
    if text.len() > MOST_BYTES {
        return Err(Fail::new("the run is too long"));
    }
    match read_run(alloc, protocol, text.as_bytes()) {
        Ok(run) => Ok(run),
        Err(_) => Err(Fail::new("no run")),
    }
}

// The state behind so many steps.
fn executed(
    alloc: Global,
    theory: &Theory,
    protocol: &Protocol,
    run: &Run,
    steps: u32,
) -> Result<RunState, Fail>
    requires cancelling { AllCancel theory.now }
    requires protocol { IsWellFormedProtocol protocol.now }
    requires run { IsWellFormedRun protocol.now.sig run.now }
    ensures { IfOk result (λ state. length state.executed ≡ length run.now.instances) }
{
    let mut state = match RunState::start(alloc, theory, protocol, &run.instances) {
        Ok(state) => state,
        Err(_) => return Err(Fail::new("the run doesn't begin")),
    };
    for k in 0..steps {
        step(alloc, theory, protocol, run, k, &mut state)?;
    }
    Ok(state)
}

// One step.
fn step(
    alloc: Global,
    theory: &Theory,
    protocol: &Protocol,
    run: &Run,
    k: u32,
    state: &mut RunState,
) -> Result<(), Fail>
    requires cancelling { AllCancel theory.now }
    requires begun { length state.old.executed ≡ length run.now.instances }
    requires countable { AreCountable protocol.now.strands }
    ensures { length state.new.executed ≡ length run.now.instances }
{
    let Some(instance) = run.schedule.get(k as usize) else {
        return Err(Fail::new("the run has no such step"));
    };
    match step_run(alloc, theory, protocol, &run.instances, state, *instance) {
        Ok(()) => Ok(()),
        Err(_) => Err(Fail::new("the run breaks")),
    }
}
