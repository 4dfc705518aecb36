ghost use Rattle.std.specs.Prelude.{◌≡◌, ◌<◌, ℕ, None, Some, IfOk, IfNone, List as ListOf, cond, length, slice_get};
ghost use Rattle.std.specs.Option.{option_copied};
ghost use Rattle.npa_sig.specs.Nameless.{AreCarriers};
ghost use Rattle.npa_sig.specs.WellFormed.{IsPlainProtocol, IsWellFormedProtocol};
ghost use Rattle.npa_rewrite.specs.Rewriting.{AllCancel, IsConvergent};
ghost use Rattle.npa_rewrite.specs.Theories.{theory_of};
ghost use Rattle.npa_conv.specs.Theories.{IsPlainTheory};
ghost use Rattle.npa_conv.specs.Verdict.{conv_of};
ghost use Rattle.npa_model.specs.declared.aim.Aim.{Aim as Pattern};
ghost use Rattle.npa_model.specs.WellFormed.{IsPlainAim, IsWellFormedAim};
ghost use Rattle.npa_close.specs.Checks.{IsChecked, IsFirstFail, IsFitAim, IsSound, TellsAims, TellsConv, TellsGround, TellsReady, aim_called};

use crate::aims::aim_fault;
use crate::fail::CheckFail;
use npa_conv::{ConvFail, convergent};
use npa_model::{Aim, Aims};
use npa_rewrite::Theory;
use npa_sig::{GroundFault, Protocol, Sig};
use npa_term::NoMemory;
use npa_variants::{Ready, ReadyFail};
use std::alloc::Global;
use std::marker::Model;

/// A protocol and aims of which every check holds: its sorts have small ground terms, its theory is
/// convergent, its strands have complete variants that originate, and its aims are accepted.
#[derive(Debug, Drop)]
pub struct Checked {
    ready: Ready,
    aims: Aims,
}

impl Model for Checked {
    ghost use Rattle.std.specs.Prelude.{List as AllOf};
    ghost use Rattle.std.specs.Coded.{codes};
    ghost use Rattle.npa_term.specs.contracts.term.Term as term;
    ghost use Rattle.npa_sig.specs.declared.protocol.Protocol.{Protocol as Seen};
    ghost use Rattle.npa_model.specs.declared.aim.Aim.{Aim as SeenAim};
    ghost use Rattle.npa_close.specs.Checks.{Holds};

    ghost Value = { Seen × AllOf SeenAim };

    ghost coded = { Prim.hlevel (codes, term.the_row.coded) };

    ghost view = { λ c. (c.ready, c.aims) };

    ghost invariant = { λ c. Holds c.ready c.aims };
}

impl Checked {
    /// Makes the checks in their order, and answers the first that fails: the ground terms of the sorts,
    /// whether the theory is convergent, the variants of the strands and what originates in them, and
    /// whether the aims are accepted.
    pub fn make(alloc: Global, protocol: Protocol, aims: Aims) -> Result<Checked, CheckFail>
        requires formed { IsWellFormedProtocol protocol }
        requires plain { IsPlainProtocol protocol }
        requires aims { (k : ℕ) (aim : Pattern) → slice_get aims k ≡ Some aim
            → IsWellFormedAim protocol.sig protocol.strands aim }
        requires plain_aims { (k : ℕ) (aim : Pattern) → slice_get aims k ≡ Some aim → IsPlainAim aim }
        requires few { length aims < 65535 }
        ensures answer { IsChecked result protocol aims }
    {
        check_grounds(alloc, &protocol.sig)?;
        let th = Theory::of(alloc, &protocol)?;
        check_convergence(alloc, &th)?;
        let ready = made_ready(alloc, protocol)?;
        check_aims(alloc, ready.theory(), aims.as_slice())?;
        Ok(Checked { ready, aims })
    }

    /// The protocol, with the variants of its strands.
    pub fn ready(&self) -> &Ready
        ensures { result.now ≡ self.now.0 }
    {
        &self.ready
    }

    /// The aims, in their order.
    pub fn aims(&self) -> &Aims
        ensures { result.now ≡ self.now.1 }
    {
        &self.aims
    }

    /// The first aim of a name. It is `None` exactly where no aim has the name or the name is empty.
    pub fn aim(&self, name: &[u8]) -> Option<&Aim>
        ensures { option_copied result ≡ aim_called name.now self.now.1 }
    {
        if name.is_empty() {
            return None;
        }
        self.aims
            .as_slice()
            .iter()
            .find(|aim| aim.name.as_slice() == name)
    }

    /// What the checks found.
    pub fn laws(&self)
        ensures passes { IsFirstFail self.now.0 self.now.1 None }
        ensures sound { IsSound self.now.0 self.now.1 }
    {
        let _ready = &self.ready;
    }
}

// The ground terms of the sorts.
fn check_grounds(alloc: Global, sig: &Sig) -> Result<(), CheckFail>
    ensures { TellsGround result sig.now }
{
    match sig.ground_fault(alloc) {
        Ok(None) => Ok(()),
        Ok(Some(GroundFault::Inhabited(sort))) => Err(CheckFail::Inhabited(sort)),
        Ok(Some(GroundFault::Ground(sort, symbols))) => Err(CheckFail::Ground(sort, symbols)),
        Err(_) => Err(CheckFail::NoMemory),
    }
}

// Whether the theory is convergent.
fn check_convergence(alloc: Global, th: &Theory) -> Result<(), CheckFail>
    requires { IsPlainTheory th.now }
    ensures told { TellsConv result th.now }
    ensures cancelling { IfOk result (λ _. AllCancel th.now) }
    ensures convergent { IfOk result (λ _. IsConvergent th.now) }
{
    match convergent(alloc, th) {
        Ok(()) => Ok(()),
        Err(ConvFail::NoMemory) => Err(CheckFail::NoMemory),
        Err(fail) => Err(CheckFail::Conv(fail)),
    }
}

// The protocol with the variants of its strands.
fn made_ready(alloc: Global, protocol: Protocol) -> Result<Ready, CheckFail>
    requires cancelling { AllCancel (theory_of protocol) }
    requires convergent { IsConvergent (theory_of protocol) }
    requires formed { IsWellFormedProtocol protocol }
    requires plain { IsPlainProtocol protocol }
    ensures { TellsReady result protocol }
{
    let _marks = carriers(alloc, &protocol.sig)?;
    match Ready::make(alloc, protocol) {
        Ok(ready) => Ok(ready),
        Err(ReadyFail::NoMemory) => Err(CheckFail::NoMemory),
        Err(fail) => Err(CheckFail::Ready(fail)),
    }
}

// Marks at the sorts that carry names: that there are some is what the fault of a strand is told by.
fn carriers(alloc: Global, sig: &Sig) -> Result<Vec<bool>, NoMemory>
    ensures { IfOk result (λ marks. AreCarriers sig.now marks.items) }
{
    sig.carriers(alloc).map_err(|_| NoMemory)
}

// Whether the aims are accepted.
fn check_aims(alloc: Global, th: &Theory, aims: &[Aim]) -> Result<(), CheckFail>
    requires theory { IsPlainTheory th.now }
    requires fit { (k : ℕ) (aim : Pattern) → slice_get aims.now k ≡ Some aim → IsFitAim th.now.sig aim }
    requires few { length aims.now < 65535 }
    ensures { TellsAims result th.now aims.now }
{
    let fault = aim_fault(alloc, th, aims)?;
    match fault {
        Some((aim, found)) => Err(CheckFail::AimForm {
            aim,
            term: found.term,
            equation: found.equation,
        }),
        None => Ok(()),
    }
}
