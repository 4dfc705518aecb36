ghost use Rattle.std.specs.Prelude.{◌≡◌, ◌||◌, ◌++◌, ◌≤◌, false, length, is_some, replicate, IfOk, OnOk};
ghost use Rattle.npa_names.specs.Names.{place_of};
ghost use Rattle.npa_sig.specs.Signature.{number_of};
ghost use Rattle.npa_reading.specs.Trees.{seen};
ghost use Rattle.npa_module.specs.Refusals.{Gives};
ghost use Rattle.npa_module.specs.Items.{unbound, bound, behind, is_taken, fresh_read, variable_read, variables_read, scope_from};

use crate::draft::Draft;
use crate::refusals::name_refusal;
use crate::sorts::read_sort;
use crate::source::ReadError;
use npa_list::List;
use npa_names::NameTable;
use npa_reading::{first_token, word_at};
use npa_sig::{FRESH, Scope, Scoped, Sig, SortNums};
use npa_syntax::Node;
use npa_term::Var;
use npa_text::symbols::VARIABLE_SORT;
use npa_text::{Name, Names, Tokens, token_at};
use std::alloc::{AllocError, Global};

/// Variables or fresh values of an item, with their sorts, and all names that stood so far in it.
#[derive(Debug, Drop)]
pub(crate) struct Binders {
    pub(crate) earlier: NameTable,
    pub(crate) names: Names,
    pub(crate) sorts: SortNums,
}

impl Binders {
    // No names.
    pub(crate) fn new(alloc: Global) -> Binders
        ensures { result ≡ unbound }
    {
        Binders {
            earlier: NameTable::new(alloc),
            names: List::new(alloc),
            sorts: List::new(alloc),
        }
    }
}

// One more name with its sort, which isn't there yet.
fn bind(alloc: Global, binders: Binders, name: &[u8], sort: u16) -> Result<Binders, AllocError>
    requires { is_some (place_of name.now binders.earlier) ≡ false }
    ensures { IfOk result (λ b. b ≡ bound binders name.now sort) }
{
    let mut binders = binders;
    add_bound(alloc, &mut binders, name, sort)?;
    Ok(binders)
}

// Adds a name with its sort, which isn't there yet.
pub(crate) fn add_bound(
    alloc: Global,
    binders: &mut Binders,
    name: &[u8],
    sort: u16,
) -> Result<(), AllocError>
    requires { is_some (place_of name.now binders.old.earlier) ≡ false }
    ensures { OnOk result (binders.new ≡ bound binders.old name.now sort) }
{
    binders.earlier.insert(alloc, name)?;
    binders.names.push(List::from_slice(alloc, name)?)?;
    binders.sorts.push(sort)?;
    Ok(())
}

// The names of a strand's fresh values, and what stands in front of its variables: these names.
pub(crate) fn behind(alloc: Global, fresh: Binders) -> (Names, Binders)
    ensures names { result.0 ≡ fresh.names }
    ensures behind { result.1 ≡ behind fresh }
{
    let Binders { earlier, names, .. } = fresh;
    let before = Binders {
        earlier,
        names: List::new(alloc),
        sorts: List::new(alloc),
    };
    (names, before)
}

// Whether a name stood earlier in the item, or is that of an operator.
fn is_taken(sig: &Sig, earlier: &NameTable, name: &[u8]) -> bool
    ensures { result ≡ is_taken sig.now earlier.now name.now }
{
    earlier.place(name).is_some() || sig.number_of(name).is_some()
}

// The fresh values of a strand.
pub(crate) fn read_fresh(
    alloc: Global,
    bytes: &[u8],
    tokens: &Tokens,
    sig: &Sig,
    nodes: &[&Node],
) -> Result<Binders, ReadError>
    ensures means { Gives result (fresh_read bytes.now tokens.now sig.now unbound (seen nodes.now)) }
    ensures many { IfOk result (λ b. length b.names ≡ length nodes.now) }
{
    let mut binders = Binders::new(alloc);
    for node in nodes {
        let word = word_at(bytes, tokens, *node);
        if is_taken(sig, &binders.earlier, word) {
            return Err(name_refusal(alloc, bytes, token_at(tokens, *node)));
        }
        binders = bind(alloc, binders, word, FRESH)?;
    }
    Ok(binders)
}

// The variables of an item, behind names that stand before them in it.
pub(crate) fn read_variables(
    alloc: Global,
    bytes: &[u8],
    tokens: &Tokens,
    draft: &Draft,
    before: Binders,
    nodes: &[&Node],
) -> Result<Binders, ReadError>
    requires { length draft.now.sorts ≤ 65535 }
    ensures { Gives result (variables_read bytes.now tokens.now draft.now before (seen nodes.now)) }
{
    let mut binders = before;
    for node in nodes {
        binders = match read_variable(alloc, bytes, tokens, draft, binders, *node) {
            Ok(binders) => binders,
            Err(error) => return Err(error),
        };
    }
    Ok(binders)
}

fn read_variable(
    alloc: Global,
    bytes: &[u8],
    tokens: &Tokens,
    draft: &Draft,
    binders: Binders,
    node: &Node,
) -> Result<Binders, ReadError>
    requires { length draft.now.sorts ≤ 65535 }
    ensures { Gives result (variable_read bytes.now tokens.now draft.now binders node.now) }
{
    let word = word_at(bytes, tokens, node);
    if is_taken(&draft.sig, &binders.earlier, word) {
        return Err(name_refusal(alloc, bytes, token_at(tokens, node)));
    }
    let sort = first_token(tokens, VARIABLE_SORT, node.children.as_slice());
    match read_sort(alloc, bytes, &draft.sorts, sort) {
        Ok(sort) => Ok(bind(alloc, binders, word, sort)?),
        Err(error) => Err(error),
    }
}

// Variables of these names and sorts, numbered by their places.
pub(crate) fn scope_of(alloc: Global, names: &[Name], sorts: &[u16]) -> Result<Scope, AllocError>
    ensures { IfOk result (λ scope. scope ≡ scope_from 0 names.now sorts.now) }
{
    let mut scope = Scope::new(alloc);
    for k in 0..names.len().min(sorts.len()) {
        let Ok(num) = u32::try_from(k) else {
            return Err(AllocError);
        };
        let name = List::from_slice(alloc, names[k].as_slice())?;
        let var = Var {
            num,
            sort: sorts[k],
        };
        scope.push(alloc, Scoped { name, var })?;
    }
    Ok(scope)
}

// Sorts of variables, and those of so many fresh values behind them.
pub(crate) fn with_fresh(alloc: Global, vars: &[u16], fresh: usize) -> Result<SortNums, AllocError>
    ensures { IfOk result (λ sorts. sorts ≡ vars.now ++ replicate fresh 1) }
{
    let mut sorts = List::from_slice(alloc, vars)?;
    sorts.extend_from_slice(vec![in alloc; FRESH; fresh]?.as_slice())?;
    Ok(sorts)
}

// The names of both lists, those of the first in front.
pub(crate) fn joined(alloc: Global, first: &[Name], second: &[Name]) -> Result<Names, AllocError>
    ensures { IfOk result (λ names. names ≡ first.now ++ second.now) }
{
    let mut names = copied(alloc, first)?;
    let mut more = copied(alloc, second)?;
    names.append(&mut more)?;
    Ok(List::from_vec(names))
}

// Copies of names, in the same order.
fn copied(alloc: Global, names: &[Name]) -> Result<Vec<Name>, AllocError>
    ensures { IfOk result (λ copies. copies.items ≡ names.now) }
{
    let mut copies = Vec::new(alloc);
    for name in names {
        let copy = List::from_slice(alloc, name.as_slice())?;
        copies.push(copy)?;
    }
    Ok(copies)
}
