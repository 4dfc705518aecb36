ghost use Rattle.std.specs.Prelude.{◌≡◌, IfOk};

use crate::signature::{OpDecl, OpDecls};
use npa_list::List;
use npa_sorts::NoMemory;
use npa_text::{Name, Names};
use std::alloc::Global;

// A copy of a list of names, in the same order.
pub(crate) fn copy_names(alloc: Global, names: &[Name]) -> Result<Names, NoMemory>
    ensures { IfOk result (λ copies. copies ≡ names.now) }
{
    let mut copies = Vec::with_capacity(alloc, names.len())?;
    for name in names {
        copies.push(List::from_slice(alloc, name.as_slice())?)?;
    }
    Ok(List::from_vec(copies))
}

// A copy of a declaration.
fn copy_decl(alloc: Global, decl: &OpDecl) -> Result<OpDecl, NoMemory>
    ensures { IfOk result (λ copy. copy ≡ decl.now) }
{
    Ok(OpDecl {
        name: List::from_slice(alloc, decl.name.as_slice())?,
        args: List::from_slice(alloc, decl.args.as_slice())?,
        result: decl.result,
        com: decl.com,
    })
}

// A copy of declarations, in the same order.
pub(crate) fn copy_ops(alloc: Global, ops: &[OpDecl]) -> Result<OpDecls, NoMemory>
    ensures { IfOk result (λ copies. copies ≡ ops.now) }
{
    let mut copies = Vec::with_capacity(alloc, ops.len())?;
    for decl in ops {
        copies.push(copy_decl(alloc, decl)?)?;
    }
    Ok(List::from_vec(copies))
}
