ghost use Rattle.std.specs.Prelude.{◌≡◌, ◌<◌, ◌^◌, ◌++◌, [], ℕ, List, Some, length, slice_get, slice_index, IfOk, IfNone};
ghost use Rattle.npa_sig.specs.declared.protocol.Strand.{Strand};
ghost use Rattle.npa_rewrite.specs.Innermost.{normalized};
ghost use Rattle.npa_rewrite.specs.Rewriting.{AllCancel};
ghost use Rattle.npa_rewrite.specs.Normal.{is_normal_by};
ghost use Rattle.npa_model.specs.Instances.{Starts, strand_fault, instance_fault, sort_fault, normal_fault, first_fault, first_again, fresh_names, names_among, name_in};
ghost use Rattle.npa_sig.specs.Parameters.{fresh_terms, param_sorts};

use crate::run::{Cause, Instance, Instances, RunFail};
use crate::sent::Sent;
use crate::state::RunState;
use indexmap::IndexSet;
use npa_list::List;
use npa_rewrite::{Theory, is_normal};
use npa_sig::{FRESH, Protocol, Sig, Strand, Strands};
use npa_term::{NoMemory, Term};
use std::alloc::{AllocError, Global};

impl RunState {
    /// Begins a run with these instances: nothing is executed and nothing was sent. An instance's
    /// number of terms is judged first, then the sorts of its terms, then whether they are normal;
    /// the fresh names are judged behind all instances, where the first that is the value of a
    /// second fresh parameter is told.
    pub fn start(
        alloc: Global,
        th: &Theory,
        protocol: &Protocol,
        instances: &Instances,
    ) -> Result<RunState, RunFail>
        requires cancelling { AllCancel th.now }
        requires few { length instances.now < 2 ^ 32 }
        requires params { (k : ℕ) (strand : Strand) → slice_get protocol.now.strands k ≡ Some strand → length (param_sorts strand) < 2 ^ 16 }
        ensures { Starts (normalized th.now) protocol.now.sig protocol.now.strands instances.now result }
    {
        if let Some(cause) = first_fault(alloc, th, protocol, instances.as_slice())? {
            return Err(RunFail::Stop(cause));
        }
        if let Some(name) = repeated_name(alloc, &protocol.strands, instances.as_slice())? {
            return Err(RunFail::Stop(Cause::Twice(name)));
        }
        let counts = vec![in alloc; 0; instances.len()]?;
        Ok(RunState {
            counts: List::from_vec(counts),
            sent: Sent::new(alloc),
        })
    }
}

// Why an instance is none, the first such.
#[tactic(auto, using(crate::proofs::Starting::first_fault_step))]
fn first_fault(
    alloc: Global,
    th: &Theory,
    protocol: &Protocol,
    instances: &[Instance],
) -> Result<Option<Cause>, NoMemory>
    requires cancelling { AllCancel th.now }
    requires few { length instances.now < 2 ^ 32 }
    requires params { (k : ℕ) (strand : Strand) → slice_get protocol.now.strands k ≡ Some strand → length (param_sorts strand) < 2 ^ 16 }
    ensures { IfOk result (λ fault. fault ≡ first_fault (normalized th.now) protocol.now.sig protocol.now.strands 0 instances.now) }
{
    for k in 0..instances.len() {
        let fault = instance_fault(alloc, th, protocol, k as u32, &instances[k])?;
        if fault.is_some() {
            return Ok(fault);
        }
    }
    Ok(None)
}

fn instance_fault(
    alloc: Global,
    th: &Theory,
    protocol: &Protocol,
    k: u32,
    instance: &Instance,
) -> Result<Option<Cause>, NoMemory>
    requires cancelling { AllCancel th.now }
    requires params { (n : ℕ) (strand : Strand) → slice_get protocol.now.strands n ≡ Some strand → length (param_sorts strand) < 2 ^ 16 }
    ensures { IfOk result (λ fault. fault ≡ instance_fault (normalized th.now) protocol.now.sig protocol.now.strands k instance.now) }
{
    let args = instance.args.as_slice();
    match protocol.strands.get(instance.strand as usize) {
        Some(strand) => strand_fault(alloc, th, &protocol.sig, k, strand, args),
        None => Ok(Some(Cause::Params(k))),
    }
}

fn strand_fault(
    alloc: Global,
    th: &Theory,
    sig: &Sig,
    k: u32,
    strand: &Strand,
    args: &[Term],
) -> Result<Option<Cause>, NoMemory>
    requires cancelling { AllCancel th.now }
    requires params { length (param_sorts strand.now) < 2 ^ 16 }
    ensures { IfOk result (λ fault. fault ≡ strand_fault (normalized th.now) sig.now k (Some strand.now) args.now) }
{
    if args.len() != strand.vars.len() + strand.fresh as usize {
        return Ok(Some(Cause::Params(k)));
    }
    match sort_fault(sig, k, strand, args) {
        Some(cause) => Ok(Some(cause)),
        None => normal_fault(alloc, th, k, args),
    }
}

// The first term whose sort isn't at or below its parameter's.
#[tactic(auto, using(crate::proofs::Starting::sort_fault_step, crate::proofs::Starting::sort_fault_ends))]
fn sort_fault(sig: &Sig, k: u32, strand: &Strand, args: &[Term]) -> Option<Cause>
    requires even { length args.now ≡ length (param_sorts strand.now) }
    requires params { length (param_sorts strand.now) < 2 ^ 16 }
    ensures { result ≡ sort_fault sig.now k 0 args.now (param_sorts strand.now) }
{
    for p in 0..args.len() {
        if !sig.is_below(sig.sort_of(&args[p]), param_sort(strand, p)) {
            return Some(Cause::Sort(k, p as u16));
        }
    }
    None
}

// The first term that isn't normal.
#[tactic(auto, using(crate::proofs::Starting::normal_fault_step, crate::proofs::Starting::normal_fault_ends))]
fn normal_fault(
    alloc: Global,
    th: &Theory,
    k: u32,
    args: &[Term],
) -> Result<Option<Cause>, NoMemory>
    requires cancelling { AllCancel th.now }
    requires few { length args.now < 2 ^ 16 }
    ensures { IfOk result (λ fault. fault ≡ normal_fault (normalized th.now) k 0 args.now) }
{
    for p in 0..args.len() {
        if !is_own_form(alloc, th, &args[p])? {
            return Ok(Some(Cause::Normal(k, p as u16)));
        }
    }
    Ok(None)
}

// Whether the term's normal form is its canonical form.
fn is_own_form(alloc: Global, th: &Theory, t: &Term) -> Result<bool, NoMemory>
    requires { AllCancel th.now }
    ensures { IfOk result (λ normal. normal ≡ is_normal_by (normalized th.now) t.now) }
{
    is_normal(alloc, th, t)
}

// The sort of the parameter at a place.
pub(crate) fn param_sort(strand: &Strand, p: usize) -> u16
    requires { p < length (param_sorts strand.now) }
    ensures { result ≡ slice_index (param_sorts strand.now) p }
{
    match strand.vars.get(p) {
        Some(sort) => *sort,
        None => FRESH,
    }
}

// The first fresh name that is the value of a second fresh parameter.
fn repeated_name(
    alloc: Global,
    strands: &Strands,
    instances: &[Instance],
) -> Result<Option<u32>, AllocError>
    ensures { IfOk result (λ name. name ≡ first_again [] (fresh_names strands.now instances.now)) }
{
    let mut seen = IndexSet::new(alloc);
    for k in 0..instances.len() {
        let name = add_names(&mut seen, fresh_values(strands, &instances[k]))?;
        if name.is_some() {
            return Ok(name);
        }
    }
    Ok(None)
}

// The values of an instance's fresh parameters.
fn fresh_values<'a>(strands: &Strands, instance: &'a Instance) -> &'a [Term]
    ensures { result.now ≡ fresh_terms (slice_get strands.now instance.now.strand) instance.now.args }
{
    match strands.get(instance.strand as usize) {
        Some(strand) => {
            let args = instance.args.as_slice();
            &args[strand.vars.len().min(args.len())..]
        }
        None => &[],
    }
}

// Adds the names among the values to those that were seen, up to the first that was.
fn add_names(seen: &mut IndexSet<u32>, values: &[Term]) -> Result<Option<u32>, AllocError>
    ensures name { IfOk result (λ name. name ≡ first_again seen.old.keys (names_among values.now)) }
    ensures seen { IfOk result (λ name. IfNone name (seen.new.keys ≡ seen.old.keys ++ names_among values.now)) }
{
    for i in 0..values.len() {
        let name = add_name(seen, &values[i])?;
        if name.is_some() {
            return Ok(name);
        }
    }
    Ok(None)
}

// Adds the value's name, if it is one that wasn't seen, or tells that it was.
fn add_name(seen: &mut IndexSet<u32>, value: &Term) -> Result<Option<u32>, AllocError>
    ensures name { IfOk result (λ name. name ≡ first_again seen.old.keys (name_in value.now)) }
    ensures seen { IfOk result (λ name. IfNone name (seen.new.keys ≡ seen.old.keys ++ name_in value.now)) }
{
    match value {
        Term::Name(n) => {
            let added = seen.insert(*n)?;
            Ok(if added { None } else { Some(*n) })
        }
        _ => Ok(None),
    }
}
