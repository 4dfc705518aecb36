ghost use Rattle.std.specs.Prelude.{◌≡◌, ◌≢◌, ◌<◌, ◌≤◌, ◌+◌, false, map, slice_get, length, cond, Some, None, IfOk};
ghost use Rattle.std.specs.Option.{option_copied};
ghost use Rattle.npa_sorts.specs.Subsorts.{IsSort, at_or_below};
ghost use Rattle.npa_sig.specs.Operators.{HasSorts, HaveSorts, IsWellFormedSignature};
ghost use Rattle.npa_sig.specs.Signature.{Makes, Declares, bare, is_pair, op_fault, number_of, with_sort, with_subsort};
ghost use Rattle.npa_sig.specs.Printing.{sort_text};

use crate::copying::{copy_names, copy_ops};
use crate::fault::SigFail;
use npa_list::List;
use npa_names::NameTable;
use npa_sorts::{FRESH, NoMemory, SortNums, Sorts};
use npa_text::{Name, Names};
use std::alloc::Global;
use std::marker::Model;

/// The declaration of an operator: its name, the sorts of its arguments, the sort of its result,
/// and whether its two arguments may be swapped.
#[derive(Debug, Drop)]
pub struct OpDecl {
    pub name: Name,
    pub args: SortNums,
    pub result: u16,
    pub com: bool,
}

/// Declarations of operators, in the order of the module.
pub type OpDecls = List<OpDecl>;

/// A signature: sorts with their order and their names, and operators, no two of one name. They name
/// sorts alone, none has the result `Fresh`, and a commutative one takes two arguments of one sort. An
/// operator is known by its number, its place in the order of the module; a declared sort by its
/// place, counted from 2. An operator's name is found in constant time.
#[derive(Debug, Drop)]
pub struct Sig {
    sorts: Sorts,
    sort_names: Names,
    ops: OpDecls,
    names: NameTable,
}

impl Model for Sig {
    ghost use Rattle.npa_sig.specs.Signature.{Signature};
    ghost use Rattle.npa_sig.specs.Operators.{IsIndexed};

    ghost Value = { Signature };

    ghost view = { λ s. record { sorts = s.sorts; sort_names = s.sort_names; ops = s.ops } };

    ghost invariant = { λ s. IsIndexed s.names (record { sorts = s.sorts; sort_names = s.sort_names; ops = s.ops }) };
}

impl Sig {
    /// The signature of these sorts and operators; the declared sorts have these names, in order.
    /// An operator is refused whose result is `Fresh`, which is commutative without two arguments
    /// of one sort, or which has the name of an earlier one; the first such is told.
    #[tactic(auto, using(crate::proofs::Declared::first_fault_step))]
    pub fn new(alloc: Global, sorts: Sorts, sort_names: Names, ops: OpDecls) -> Result<Sig, SigFail>
        requires named { length sort_names ≡ sorts.declared }
        requires few { length ops < 65535 }
        requires sorts { HaveSorts sorts ops }
        ensures made { Makes result sorts sort_names ops }
    {
        let mut names = NameTable::new(alloc);
        for (k, decl) in ops.as_slice().iter().enumerate() {
            if let Some(fault) = op_fault(k as u16, &names, decl) {
                return Err(fault);
            }
            names.insert(alloc, decl.name.as_slice())?;
        }
        Ok(Sig {
            sorts,
            sort_names,
            ops,
            names,
        })
    }

    /// The signature of `Msg` and `Fresh`, without operators.
    #[tactic(auto, using(crate::proofs::Operators::formed_bare))]
    pub fn bare(alloc: Global) -> Result<Sig, NoMemory>
        ensures { IfOk result (λ sig. sig ≡ bare) }
    {
        Ok(Sig {
            sorts: Sorts::built_in(alloc)?,
            sort_names: List::new(alloc),
            ops: List::new(alloc),
            names: NameTable::new(alloc),
        })
    }

    /// The same signature. It takes memory for its sorts, their names and its operators.
    pub fn copy(&self, alloc: Global) -> Result<Sig, NoMemory>
        ensures { IfOk result (λ copy. copy ≡ self.now) }
    {
        Ok(Sig {
            sorts: self.sorts.copy(alloc)?,
            sort_names: copy_names(alloc, self.sort_names.as_slice())?,
            ops: copy_ops(alloc, self.ops.as_slice())?,
            names: self.names.copy()?,
        })
    }

    /// The signature with one more sort, the last, below `Msg` alone.
    pub fn declare_sort(self, alloc: Global, name: Name) -> Result<Sig, NoMemory>
        requires few { self.sorts.declared < 65533 }
        ensures { IfOk result (λ sig. sig ≡ with_sort self name) }
    {
        let Sig {
            mut sorts,
            mut sort_names,
            ops,
            names,
        } = self;
        sorts.declare(alloc)?;
        sort_names.push(name)?;
        Ok(Sig {
            sorts,
            sort_names,
            ops,
            names,
        })
    }

    /// The signature in which one sort more is below another. Neither is `Fresh`, and the upper
    /// one isn't at or below the lower one.
    #[tactic(auto, using(crate::proofs::Operators::formed_subsort))]
    pub fn put_below(self, alloc: Global, lower: u16, upper: u16) -> Result<Sig, NoMemory>
        requires lower { IsSort self.sorts lower }
        requires upper { IsSort self.sorts upper }
        requires apart { (lower ≢ FRESH) × (upper ≢ FRESH) }
        requires acyclic { at_or_below self.sorts upper lower ≡ false }
        ensures { IfOk result (λ sig. sig ≡ with_subsort self lower upper) }
    {
        let Sig {
            mut sorts,
            sort_names,
            ops,
            names,
        } = self;
        sorts.put_below(alloc, lower, upper)?;
        Ok(Sig {
            sorts,
            sort_names,
            ops,
            names,
        })
    }

    /// The signature with one more operator, the last. It is refused where `new` refuses it.
    pub fn declare(self, alloc: Global, decl: OpDecl) -> Result<Sig, SigFail>
        requires few { length self.ops < 65535 }
        requires sorts { HasSorts self.sorts decl }
        ensures { Declares result self decl }
    {
        let Sig {
            sorts,
            sort_names,
            mut ops,
            mut names,
        } = self;
        if let Some(fault) = op_fault(ops.len() as u16, &names, &decl) {
            return Err(fault);
        }
        names.insert(alloc, decl.name.as_slice())?;
        ops.push(decl)?;
        Ok(Sig {
            sorts,
            sort_names,
            ops,
            names,
        })
    }

    /// The sorts with their order.
    pub fn sorts(&self) -> &Sorts
        ensures { result.now ≡ self.now.sorts }
    {
        &self.sorts
    }

    /// The name of a sort: the built-in sorts are `Msg` and `Fresh`. A number that stands for no
    /// sort has the empty name.
    pub fn sort_name(&self, sort: u16) -> &[u8]
        ensures { result.now ≡ sort_text self.now sort }
    {
        match sort {
            0 => b"Msg",
            1 => b"Fresh",
            _ => match self.sort_names.get(sort as usize - 2) {
                Some(name) => name.as_slice(),
                None => b"",
            },
        }
    }

    /// The declaration of an operator, by its number.
    pub fn op(&self, number: u16) -> &OpDecl
        requires { number < length self.now.ops }
        ensures { slice_get self.now.ops number ≡ Some result.now }
    {
        &self.ops.as_slice()[number as usize]
    }

    /// The declarations, by number.
    pub fn ops(&self) -> &OpDecls
        ensures { result.now ≡ self.now.ops }
    {
        &self.ops
    }

    /// Does nothing: an operator's number has 16 bits, operators name sorts alone, none has the result
    /// `Fresh`, and a commutative one takes two arguments of one sort.
    pub fn laws(&self)
        ensures few { length self.now.ops ≤ 65535 }
        ensures sorts { HaveSorts self.now.sorts self.now.ops }
        ensures formed { IsWellFormedSignature self.now }
    {
        let _ops = &self.ops;
    }

    /// The number of the operator of a name.
    pub fn number_of(&self, name: &[u8]) -> Option<u16>
        ensures { result ≡ number_of self.now name.now }
    {
        match self.names.place(name) {
            Some(k) => Some(k as u16),
            None => None,
        }
    }
}

// Why an operator can't be declared as the next behind operators of these names.
fn op_fault(number: u16, names: &NameTable, decl: &OpDecl) -> Option<SigFail>
    ensures { result ≡ op_fault number names.now decl.now }
{
    if decl.result == FRESH {
        return Some(SigFail::Fresh(number));
    }
    if decl.com && !is_pair(decl.args.as_slice()) {
        return Some(SigFail::Comm(number));
    }
    match names.place(decl.name.as_slice()) {
        Some(_) => Some(SigFail::Twice(number)),
        None => None,
    }
}

// Whether the sorts are two equal ones.
fn is_pair(sorts: &[u16]) -> bool
    ensures { result ≡ is_pair sorts.now }
{
    match sorts {
        [s, t] => *s == *t,
        _ => false,
    }
}
