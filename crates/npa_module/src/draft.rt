ghost use Rattle.std.specs.Prelude.{◌≡◌, ◌≢◌, ◌<◌, ◌≤◌, false, is_some, length, None, IfSome, IfOk, OnOk, Ok, Err};
ghost use Rattle.npa_names.specs.Names.{place_of};
ghost use Rattle.npa_sorts.specs.Subsorts.{IsSort, at_or_below};
ghost use Rattle.npa_sig.specs.Operators.{HasSorts};
ghost use Rattle.npa_sig.specs.Signature.{next_fault, with_sort as sig_with_sort};
ghost use Rattle.npa_module.specs.Drafts.{nothing, sort_number, strand_number, with_sig, with_sort, with_pair, with_operator, with_equation, with_strand, with_aim, strand_added, aim_added, given, rest_of, joined};
ghost use Rattle.npa_module.specs.Refusals.{Gives};
ghost use Rattle.npa_module.specs.Modules.{finished};

use crate::source::{ReadError, Source};
use npa_list::List;
use npa_model::{Aim, Aims};
use npa_names::NameTable;
use npa_sig::{Equation, Equations, FRESH, OpDecl, Protocol, Sig, SigFail, Strand, Strands};
use npa_sorts::NoMemory;
use npa_text::Name;
use std::alloc::{AllocError, Global};

/// The strands so far, their names, and the names of their variables and fresh values.
#[derive(Debug, Drop)]
pub(crate) struct StrandSpace {
    pub(crate) list: Strands,
    pub(crate) names: NameTable,
    pub(crate) params: NameTable,
}

/// The aims so far, and their names.
#[derive(Debug, Drop)]
pub(crate) struct AimSpace {
    pub(crate) list: Aims,
    pub(crate) names: NameTable,
}

/// What the items of a module have declared so far. The names of the sorts begin with the built-in
/// ones.
#[derive(Debug, Drop)]
pub(crate) struct Draft {
    pub(crate) sig: Sig,
    pub(crate) sorts: NameTable,
    pub(crate) equations: Equations,
    pub(crate) strands: StrandSpace,
    pub(crate) aims: AimSpace,
}

// What is declared beside the signature.
#[derive(Debug, Drop)]
struct Rest {
    sorts: NameTable,
    equations: Equations,
    strands: StrandSpace,
    aims: AimSpace,
}

// The signature, and what is declared beside it.
fn parted(draft: Draft) -> (Sig, Rest)
    ensures sig { result.0 ≡ draft.sig }
    ensures rest { result.1 ≡ rest_of draft }
{
    let Draft {
        sig,
        sorts,
        equations,
        strands,
        aims,
    } = draft;
    let rest = Rest {
        sorts,
        equations,
        strands,
        aims,
    };
    (sig, rest)
}

// The same together.
fn joined(sig: Sig, rest: Rest) -> Draft
    ensures { result ≡ joined sig rest }
{
    let Rest {
        sorts,
        equations,
        strands,
        aims,
    } = rest;
    Draft {
        sig,
        sorts,
        equations,
        strands,
        aims,
    }
}

// An item's refusal, in place of what is declared.
pub(crate) fn refuse(draft: Draft, error: ReadError) -> Result<Draft, ReadError>
    ensures { result ≡ Err error }
{
    drop(draft);
    Err(error)
}

// The module of a name with what is declared.
pub(crate) fn finished(name: Name, draft: Draft) -> Source
    ensures { Ok result ≡ finished name draft }
{
    let Draft {
        sig,
        equations,
        strands,
        aims,
        ..
    } = draft;
    let StrandSpace { list: strands, .. } = strands;
    let AimSpace { list: aims, .. } = aims;
    Source {
        name,
        protocol: Protocol {
            sig,
            equations,
            strands,
        },
        aims,
    }
}

// What is declared before the first item.
pub(crate) fn empty_draft(alloc: Global) -> Result<Draft, ReadError>
    ensures { Gives result (Ok nothing) }
{
    let sig = match Sig::bare(alloc) {
        Ok(sig) => sig,
        Err(NoMemory) => return Err(ReadError::NoMemory),
    };
    Ok(Draft {
        sig,
        sorts: built_in_names(alloc)?,
        equations: List::new(alloc),
        strands: StrandSpace {
            list: List::new(alloc),
            names: NameTable::new(alloc),
            params: NameTable::new(alloc),
        },
        aims: AimSpace {
            list: List::new(alloc),
            names: NameTable::new(alloc),
        },
    })
}

// The names of the built-in sorts.
fn built_in_names(alloc: Global) -> Result<NameTable, AllocError>
    ensures { IfOk result (λ names. names ≡ nothing.sorts) }
{
    let mut names = NameTable::new(alloc);
    names.insert(alloc, b"Msg")?;
    names.insert(alloc, b"Fresh")?;
    Ok(names)
}

// The number of the sort of a name.
pub(crate) fn sort_number(sorts: &NameTable, name: &[u8]) -> Option<u16>
    requires { length sorts.now ≤ 65535 }
    ensures number { result ≡ sort_number sorts.now name.now }
    ensures within { IfSome result (λ s. s < length sorts.now) }
{
    match sorts.place(name) {
        Some(k) => Some(k as u16),
        None => None,
    }
}

// The number of the strand of a name.
pub(crate) fn strand_number(names: &NameTable, name: &[u8]) -> Option<u16>
    requires { length names.now ≤ 65535 }
    ensures { result ≡ strand_number names.now name.now }
{
    match names.place(name) {
        Some(k) => Some(k as u16),
        None => None,
    }
}

// One more sort.
pub(crate) fn declare_sort(alloc: Global, draft: Draft, name: &[u8]) -> Result<Draft, ReadError>
    requires few { draft.sig.sorts.declared < 65533 }
    requires apart { is_some (sort_number draft.sorts name.now) ≡ false }
    ensures { Gives result (Ok (with_sort draft name.now)) }
{
    let mut draft = draft;
    draft.sorts.insert(alloc, name)?;
    let name = List::from_slice(alloc, name)?;
    number_sort(alloc, draft, name)
}

// The signature with one more sort of this name.
fn number_sort(alloc: Global, draft: Draft, name: Name) -> Result<Draft, ReadError>
    requires { draft.sig.sorts.declared < 65533 }
    ensures { Gives result (Ok (with_sig draft (sig_with_sort draft.sig name))) }
{
    let (sig, rest) = parted(draft);
    match sig.declare_sort(alloc, name) {
        Ok(sig) => Ok(joined(sig, rest)),
        Err(NoMemory) => Err(ReadError::NoMemory),
    }
}

// One sort below another.
pub(crate) fn put_below(
    alloc: Global,
    draft: Draft,
    lower: u16,
    upper: u16,
) -> Result<Draft, ReadError>
    requires lower { IsSort draft.sig.sorts lower }
    requires upper { IsSort draft.sig.sorts upper }
    requires apart { (lower ≢ FRESH) × (upper ≢ FRESH) }
    requires acyclic { at_or_below draft.sig.sorts upper lower ≡ false }
    ensures { Gives result (Ok (with_pair draft lower upper)) }
{
    let (sig, rest) = parted(draft);
    match sig.put_below(alloc, lower, upper) {
        Ok(sig) => Ok(joined(sig, rest)),
        Err(NoMemory) => Err(ReadError::NoMemory),
    }
}

// One more operator, which the signature doesn't refuse.
pub(crate) fn declare(alloc: Global, draft: Draft, decl: OpDecl) -> Result<Draft, ReadError>
    requires few { length draft.sig.ops < 65535 }
    requires sorts { HasSorts draft.sig.sorts decl }
    requires declarable { next_fault draft.sig decl ≡ None }
    ensures { Gives result (Ok (with_operator draft decl)) }
{
    let (sig, rest) = parted(draft);
    match sig.declare(alloc, decl) {
        Ok(sig) => Ok(joined(sig, rest)),
        Err(SigFail::NoMemory) => Err(ReadError::NoMemory),
        Err(_) => unreachable!(),
    }
}

// One more equation.
pub(crate) fn declare_equation(draft: Draft, equation: Equation) -> Result<Draft, ReadError>
    ensures { Gives result (Ok (with_equation draft equation)) }
{
    let mut draft = draft;
    draft.equations.push(equation)?;
    Ok(draft)
}

// One more strand.
pub(crate) fn declare_strand(
    alloc: Global,
    draft: Draft,
    strand: Strand,
) -> Result<Draft, ReadError>
    requires { is_some (place_of strand.name draft.strands.names) ≡ false }
    ensures { Gives result (Ok (with_strand draft strand)) }
{
    let mut draft = draft;
    add_strand(alloc, &mut draft.strands, strand)?;
    Ok(draft)
}

fn add_strand(alloc: Global, space: &mut StrandSpace, strand: Strand) -> Result<(), AllocError>
    requires { is_some (place_of strand.name space.old.names) ≡ false }
    ensures { OnOk result (space.new ≡ strand_added space.old strand) }
{
    space.names.insert(alloc, strand.name.as_slice())?;
    give_names(alloc, &mut space.params, strand.names.as_slice())?;
    space.list.push(strand)
}

// One more aim.
pub(crate) fn declare_aim(alloc: Global, draft: Draft, aim: Aim) -> Result<Draft, ReadError>
    requires { is_some (place_of aim.name draft.aims.names) ≡ false }
    ensures { Gives result (Ok (with_aim draft aim)) }
{
    let mut draft = draft;
    add_aim(alloc, &mut draft.aims, aim)?;
    Ok(draft)
}

fn add_aim(alloc: Global, space: &mut AimSpace, aim: Aim) -> Result<(), AllocError>
    requires { is_some (place_of aim.name space.old.names) ≡ false }
    ensures { OnOk result (space.new ≡ aim_added space.old aim) }
{
    space.names.insert(alloc, aim.name.as_slice())?;
    space.list.push(aim)
}

// Adds names to a table, each once.
fn give_names(alloc: Global, table: &mut NameTable, names: &[Name]) -> Result<(), AllocError>
    ensures { OnOk result (table.new ≡ given table.old names.now) }
{
    for name in names {
        table.insert(alloc, name.as_slice())?;
    }
    Ok(())
}
