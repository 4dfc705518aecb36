ghost use Rattle.std.specs.Prelude.{◌≡◌, ◌↔◌, ◌++◌, Some, map, flat_map, IsTrue, IfOk, OnOk};
ghost use Rattle.std.specs.List.{list_all};
ghost use Rattle.npa_term.specs.Parts.{least_sort};
ghost use Rattle.npa_term.specs.Variables.{variables};
ghost use Rattle.npa_sig.specs.Parameters.{param_sorts};
ghost use Rattle.npa_sig.specs.Sorting.{all_below};
ghost use Rattle.npa_model.specs.Fitting.{IsFit, agree, are_parts_fit, has_name, has_one_sort, is_fit, is_fit_strand, is_plain, is_plain_strand, is_strand_of, pattern_variables, strand_variables};

use crate::pattern::{PStrand, Pattern};
use crate::start::param_sort;
use npa_list::List;
use npa_sig::{Protocol, Sig, Strand};
use npa_term::{NoMemory, Term, Var};
use std::alloc::{AllocError, Global};

// The variables of a pattern have numbers below this.
const NEXT: u32 = 1073741824;

/// Whether a pattern fits a protocol: each number in it stands for something that is there, its
/// terms are well sorted and without fresh names, and no number of a variable has two sorts.
pub fn is_fit(alloc: Global, protocol: &Protocol, g: &Pattern) -> Result<bool, NoMemory>
    ensures { IfOk result (λ fit. IsTrue fit ↔ IsFit protocol.now g.now) }
{
    fits(alloc, protocol, g)
}

fn fits(alloc: Global, protocol: &Protocol, g: &Pattern) -> Result<bool, NoMemory>
    ensures { IfOk result (λ fit. fit ≡ is_fit protocol.now g.now) }
{
    if !are_parts_fit(protocol, g) {
        return Ok(false);
    }
    let vars = pattern_variables(alloc, g)?;
    Ok(have_one_sort(vars.as_slice()))
}

fn are_parts_fit(protocol: &Protocol, g: &Pattern) -> bool
    ensures { result ≡ are_parts_fit protocol.now g.now }
{
    g.strands.len() < 65535
        && g.known.len() < 4294967295
        && are_fit_strands(protocol, g.strands.as_slice())
        && are_plain_strands(&protocol.sig, g.strands.as_slice())
        && are_plain(&protocol.sig, g.known.as_slice())
        && are_plain(&protocol.sig, g.unknown.as_slice())
}

fn are_fit_strands(protocol: &Protocol, strands: &[PStrand]) -> bool
    ensures { result ≡ list_all (is_fit_strand protocol.now) strands.now }
{
    for strand in strands {
        if !is_fit_strand(protocol, strand) {
            return false;
        }
    }
    true
}

fn is_fit_strand(protocol: &Protocol, p: &PStrand) -> bool
    ensures { result ≡ is_fit_strand protocol.now p.now }
{
    match protocol.strands.get(p.strand as usize) {
        Some(strand) => is_strand_of(&protocol.sig, p, strand),
        None => false,
    }
}

fn is_strand_of(sig: &Sig, p: &PStrand, strand: &Strand) -> bool
    ensures { result ≡ is_strand_of sig.now p.now (Some strand.now) }
{
    p.bar as usize <= strand.events.len()
        && are_below(sig, strand, p.args.as_slice())
        && p.msgs.len() == p.bar as usize
}

// Whether there are as many terms as parameters, each of a sort at or below its parameter's.
#[tactic(auto, using(crate::proofs::Fitted::below_step, crate::proofs::Fitted::below_ends, crate::proofs::Fitted::below_apart))]
fn are_below(sig: &Sig, strand: &Strand, args: &[Term]) -> bool
    ensures { result ≡ all_below sig.now (map least_sort args.now) (param_sorts strand.now) }
{
    let few = strand.vars.len();
    if args.len() < few {
        return false;
    }
    let rest = args.len() - few;
    let fresh = strand.fresh as usize;
    if rest != fresh {
        return false;
    }
    for k in 0..args.len() {
        if !sig.is_below(sig.sort_of(&args[k]), param_sort(strand, k)) {
            return false;
        }
    }
    true
}

fn are_plain_strands(sig: &Sig, strands: &[PStrand]) -> bool
    ensures { result ≡ list_all (is_plain_strand sig.now) strands.now }
{
    for p in strands {
        if !is_plain_strand(sig, p) {
            return false;
        }
    }
    true
}

fn is_plain_strand(sig: &Sig, p: &PStrand) -> bool
    ensures { result ≡ is_plain_strand sig.now p.now }
{
    are_plain(sig, p.args.as_slice()) && are_plain(sig, p.msgs.as_slice())
}

fn are_plain(sig: &Sig, terms: &[Term]) -> bool
    ensures { result ≡ list_all (is_plain sig.now) terms.now }
{
    for term in terms {
        if !is_plain(sig, term) {
            return false;
        }
    }
    true
}

fn is_plain(sig: &Sig, term: &Term) -> bool
    ensures { result ≡ is_plain sig.now term.now }
{
    sig.well_sorted(term) && !has_name(term)
}

// Whether a fresh name stands in a term.
#[tactic(auto, using(crate::proofs::Fitted::has_name_at))]
fn has_name(term: &Term) -> bool
    ensures { result ≡ has_name term.now }
{
    match term {
        Term::Var(_) => false,
        Term::Name(_) => true,
        Term::App(_, args) => {
            for arg in args.as_slice() {
                if has_name(arg) {
                    return true;
                }
            }
            false
        }
    }
}

// The variables of a pattern, one for each occurrence.
fn pattern_variables(alloc: Global, g: &Pattern) -> Result<List<Var>, NoMemory>
    ensures { IfOk result (λ vars. vars ≡ pattern_variables g.now) }
{
    let mut vars = List::new(alloc);
    for p in g.strands.as_slice() {
        add_strand_variables(&mut vars, p)?;
    }
    add_all_variables(&mut vars, g.known.as_slice())?;
    add_all_variables(&mut vars, g.unknown.as_slice())?;
    Ok(vars)
}

fn add_strand_variables(vars: &mut List<Var>, p: &PStrand) -> Result<(), AllocError>
    ensures { OnOk result (vars.new ≡ vars.old ++ strand_variables p.now) }
{
    add_all_variables(vars, p.args.as_slice())?;
    add_all_variables(vars, p.msgs.as_slice())
}

#[cycle(adding)]
fn add_all_variables(vars: &mut List<Var>, terms: &[Term]) -> Result<(), AllocError>
    ensures { OnOk result (vars.new ≡ vars.old ++ flat_map variables terms.now) }
{
    for term in terms {
        add_variables(vars, term)?;
    }
    Ok(())
}

#[cycle(adding)]
fn add_variables(vars: &mut List<Var>, term: &Term) -> Result<(), AllocError>
    ensures { OnOk result (vars.new ≡ vars.old ++ variables term.now) }
{
    match term {
        Term::Var(v) => vars.push(*v),
        Term::Name(_) => Ok(()),
        Term::App(_, args) => add_all_variables(vars, args.as_slice()),
    }
}

// Whether each of the variables has a small number, and no other sort among them.
fn have_one_sort(vars: &[Var]) -> bool
    ensures { result ≡ list_all (has_one_sort vars.now) vars.now }
{
    for v in vars {
        if !has_one_sort(vars, *v) {
            return false;
        }
    }
    true
}

fn has_one_sort(vars: &[Var], v: Var) -> bool
    ensures { result ≡ has_one_sort vars.now v }
{
    v.num < NEXT && is_agreed(vars, v)
}

// Whether the number of a variable has no other sort among these.
fn is_agreed(vars: &[Var], v: Var) -> bool
    ensures { result ≡ list_all (agree v) vars.now }
{
    for w in vars {
        if !agree(v, *w) {
            return false;
        }
    }
    true
}

fn agree(v: Var, w: Var) -> bool
    ensures { result ≡ agree v w }
{
    v.num != w.num || v.sort == w.sort
}
