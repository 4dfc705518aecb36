ghost use Rattle.std.specs.Prelude.{IfOk, ◌≡◌, ◌≤◌, length};
ghost use Rattle.npa_reading.specs.Trees.{seen};
ghost use Rattle.npa_module.specs.Drafts.{nothing};
ghost use Rattle.npa_module.specs.Refusals.{Gives};
ghost use Rattle.npa_module.specs.Items.{item_read, items_read};
ghost use Rattle.npa_limits.specs.Later.{items_of};
ghost use Rattle.npa_module.specs.Rooms.{HasRoom, HaveRoom};
ghost use Rattle.npa_module.specs.Forms.{IsWellFormedSource, IsPlainSource, IsNamedSource, IsWithinSource, IsSmallSource};
ghost use Rattle.npa_module.specs.Modules.{source_of, verdict, text_refusal, IsRead, AnswersModule};

use crate::aims::add_aim;
use crate::draft::{Draft, empty_draft, finished};
use crate::equations::add_equation;
use crate::operators::add_operator;
use crate::sorts::{add_sort, add_subsort};
use crate::source::{ReadError, Source};
use crate::strands::add_strand;
use npa_limits::{first_limit, later_item};
use npa_list::List;
use npa_reading::{all_with, below, word_of};
use npa_syntax::Node;
use npa_text::symbols::{ITEM, MODULE, PROTOCOL_NAME};
use npa_text::terminals::{AIM, EQ, INTRUDER, OP, SORT, STRAND, SUBSORT};
use npa_text::{Parsed, TextFault, Tokens, module_grammar, parse};
use std::alloc::Global;

/// Reads a module text. Where several refusals hold, the first of these is told: `Syntax` with the
/// first place at which no module can go on; `Later` with the first item `grammar`; `Limit` with the
/// first limit that is passed, in the order of `LimitPart`, and by what number; `Name` and `Sort` with
/// the first word in the order of the text that breaks a rule on names or on sorts. A name stands for
/// what was declared earlier in the text. The variables of a strand or an aim are numbered by their
/// places, a strand's fresh values behind them; those of an equation by their first occurrence in its
/// sides, without those that don't occur. What is read is well formed, no fresh name stands in it, its
/// names keep the rules on names, and it has as many parts of each kind, and symbols, as the limits
/// allow.
pub fn read(alloc: Global, bytes: &[u8]) -> Result<Source, ReadError>
    requires { length bytes.now ≤ 1048576 }
    ensures answer { IsRead bytes.now result }
    ensures only { AnswersModule bytes.now result }
    ensures form { IfOk result IsWellFormedSource }
    ensures plain { IfOk result IsPlainSource }
    ensures named { IfOk result IsNamedSource }
    ensures within { IfOk result IsWithinSource }
    ensures small { IfOk result IsSmallSource }
{
    match parse(alloc, &module_grammar(), bytes) {
        Ok(Parsed { tokens, nodes }) => read_nodes(alloc, bytes, &tokens, nodes.as_slice()),
        Err(fault) => Err(text_refusal(fault)),
    }
}

// The refusal of a text that isn't a module.
fn text_refusal(fault: TextFault) -> ReadError
    ensures { result ≡ text_refusal fault }
{
    match fault {
        TextFault::Syntax { line, col } => ReadError::Syntax { line, col },
        TextFault::NoMemory => ReadError::NoMemory,
    }
}

// The verdict on a text's trees.
#[tactic(auto, using(crate::proofs::Growth::room_at_first))]
fn read_nodes(
    alloc: Global,
    bytes: &[u8],
    tokens: &Tokens,
    nodes: &[Node],
) -> Result<Source, ReadError>
    ensures { Gives result (verdict bytes.now tokens.now nodes.now) }
{
    if let Some((line, col)) = later_item(tokens, nodes) {
        return Err(ReadError::Later { line, col });
    }
    if let Some((part, value)) = first_limit(nodes) {
        return Err(ReadError::Limit { part, value });
    }
    read_tree(alloc, bytes, tokens, nodes)
}

// The module of a text's trees.
fn read_tree(
    alloc: Global,
    bytes: &[u8],
    tokens: &Tokens,
    nodes: &[Node],
) -> Result<Source, ReadError>
    requires { HaveRoom nothing (items_of nodes.now) }
    ensures { Gives result (source_of bytes.now tokens.now nodes.now) }
{
    let inside = below(MODULE, nodes);
    let items = all_with(alloc, ITEM, inside)?;
    let name = List::from_slice(alloc, word_of(bytes, tokens, PROTOCOL_NAME, inside))?;
    match read_items(alloc, bytes, tokens, items.as_slice()) {
        Ok(draft) => Ok(finished(name, draft)),
        Err(error) => Err(error),
    }
}

// What the items declare, in the order of the text.
#[tactic(auto, using(crate::proofs::Growth::room_for, crate::proofs::Growth::room_behind))]
fn read_items(
    alloc: Global,
    bytes: &[u8],
    tokens: &Tokens,
    items: &[&Node],
) -> Result<Draft, ReadError>
    requires { HaveRoom nothing (seen items.now) }
    ensures { Gives result (items_read bytes.now tokens.now nothing (seen items.now)) }
{
    let mut draft = empty_draft(alloc)?;
    for item in items {
        draft = match add_item(alloc, bytes, tokens, draft, *item) {
            Ok(draft) => draft,
            Err(error) => return Err(error),
        };
    }
    Ok(draft)
}

fn add_item(
    alloc: Global,
    bytes: &[u8],
    tokens: &Tokens,
    draft: Draft,
    item: &Node,
) -> Result<Draft, ReadError>
    requires { HasRoom draft item.now }
    ensures { Gives result (item_read bytes.now tokens.now draft item.now) }
{
    let nodes = item.children.as_slice();
    match item.head.kind {
        SORT => add_sort(alloc, bytes, tokens, draft, nodes),
        SUBSORT => add_subsort(alloc, bytes, tokens, draft, nodes),
        OP => add_operator(alloc, bytes, tokens, draft, nodes),
        EQ => add_equation(alloc, bytes, tokens, draft, nodes),
        STRAND => add_strand(alloc, bytes, tokens, draft, false, nodes),
        INTRUDER => add_strand(alloc, bytes, tokens, draft, true, nodes),
        AIM => add_aim(alloc, bytes, tokens, draft, nodes),
        _ => Ok(draft),
    }
}
