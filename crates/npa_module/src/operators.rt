ghost use Rattle.std.specs.Prelude.{◌≡◌, ◌≤◌, ◌||◌, is_some, length, map, Ok};
ghost use Rattle.npa_sig.specs.Signature.{number_of};
ghost use Rattle.npa_names.specs.Names.{place_of};
ghost use Rattle.npa_module.specs.Rooms.{IsNamed};
ghost use Rattle.npa_reading.specs.Trees.{seen, word_at};
ghost use Rattle.npa_reading.specs.Reading.{unless};
ghost use Rattle.npa_module.specs.Refusals.{Gives};
ghost use Rattle.npa_module.specs.Items.{op_read, operator_read, op_fault, is_pair, result_read};

use crate::draft::{Draft, declare, refuse};
use crate::refusals::{name_refusal, sort_refusal};
use crate::sorts::{read_sort, read_sorts};
use crate::source::ReadError;
use npa_list::List;
use npa_names::NameTable;
use npa_reading::{all_with, first_token, has, word_at};
use npa_sig::{FRESH, OpDecl};
use npa_syntax::Node;
use npa_text::symbols::{ARGUMENT_SORT, COMMUTATIVE, OPERATOR_NAME, RESULT_SORT};
use npa_text::{Token, Tokens, token_text};
use std::alloc::Global;

// One more operator.
#[tactic(auto, using(crate::proofs::FormedItems::operator_declarable))]
pub(crate) fn add_operator(
    alloc: Global,
    bytes: &[u8],
    tokens: &Tokens,
    draft: Draft,
    nodes: &[Node],
) -> Result<Draft, ReadError>
    requires few { length draft.sig.ops ≤ 4096 }
    requires sorts { length draft.sorts ≤ 65535 }
    requires named { IsNamed draft }
    ensures { Gives result (op_read bytes.now tokens.now draft nodes.now) }
{
    match read_operator(alloc, bytes, tokens, &draft, nodes) {
        Ok(decl) => declare(alloc, draft, decl),
        Err(error) => refuse(draft, error),
    }
}

// The declaration of an operator.
fn read_operator(
    alloc: Global,
    bytes: &[u8],
    tokens: &Tokens,
    draft: &Draft,
    nodes: &[Node],
) -> Result<OpDecl, ReadError>
    requires { length draft.now.sorts ≤ 65535 }
    ensures { Gives result (operator_read bytes.now tokens.now draft.now nodes.now) }
{
    let name = first_token(tokens, OPERATOR_NAME, nodes);
    let commutes = has(COMMUTATIVE, nodes);
    let args = all_with(alloc, ARGUMENT_SORT, nodes)?;
    match check_operator(alloc, bytes, tokens, draft, name, commutes, args.as_slice()) {
        Ok(()) => (),
        Err(error) => return Err(error),
    }
    let args = match read_sorts(alloc, bytes, tokens, &draft.sorts, args.as_slice()) {
        Ok(args) => args,
        Err(error) => return Err(error),
    };
    let result = match read_result(
        alloc,
        bytes,
        &draft.sorts,
        first_token(tokens, RESULT_SORT, nodes),
    ) {
        Ok(result) => result,
        Err(error) => return Err(error),
    };
    Ok(OpDecl {
        name: List::from_slice(alloc, token_text(bytes, name))?,
        args,
        result,
        com: commutes,
    })
}

// The operator's name is its own, and a commutative one has two arguments of one sort.
fn check_operator(
    alloc: Global,
    bytes: &[u8],
    tokens: &Tokens,
    draft: &Draft,
    name: Token,
    commutes: bool,
    args: &[&Node],
) -> Result<(), ReadError>
    ensures { Gives result (unless (op_fault bytes.now tokens.now draft.now name commutes (seen args.now)) (Ok tt)) }
{
    if is_named(draft, token_text(bytes, name)) {
        return Err(name_refusal(alloc, bytes, name));
    }
    if commutes && !is_pair(bytes, tokens, args) {
        return Err(sort_refusal(alloc, bytes, name));
    }
    Ok(())
}

// Whether an operator, or a variable or fresh value of a strand, has the name.
fn is_named(draft: &Draft, name: &[u8]) -> bool
    ensures { result ≡ (is_some (number_of draft.now.sig name.now) || is_some (place_of name.now draft.now.strands.params)) }
{
    draft.sig.number_of(name).is_some() || draft.strands.params.place(name).is_some()
}

// Whether the nodes are two of one word.
fn is_pair(bytes: &[u8], tokens: &Tokens, nodes: &[&Node]) -> bool
    ensures { result ≡ is_pair (map (word_at bytes.now tokens.now) (seen nodes.now)) }
{
    match nodes {
        [first, second] => word_at(bytes, tokens, *first) == word_at(bytes, tokens, *second),
        _ => false,
    }
}

// The sort of a result.
fn read_result(
    alloc: Global,
    bytes: &[u8],
    sorts: &NameTable,
    token: Token,
) -> Result<u16, ReadError>
    requires { length sorts.now ≤ 65535 }
    ensures { Gives result (result_read bytes.now sorts.now token) }
{
    let sort = match read_sort(alloc, bytes, sorts, token) {
        Ok(sort) => sort,
        Err(error) => return Err(error),
    };
    if sort == FRESH {
        return Err(sort_refusal(alloc, bytes, token));
    }
    Ok(sort)
}
