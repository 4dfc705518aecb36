ghost use Rattle.std.specs.Prelude.{◌≡◌, ◌==◌, ◌&&◌, ◌||◌, ℕ, nat_lt, cond, Some, None, length, map};
ghost use Rattle.npa_syntax.specs.Nodes.{symbol_of};
ghost use Rattle.npa_reading.specs.Trees.{all_with, listed};
ghost use Rattle.npa_limits.specs.declared.part.LimitPart.TheVariants.{Symbols};
ghost use Rattle.npa_limits.specs.Limits.{saturated, past, where_is, first_passed, number, total, sizes, sizes_of, params_of, limit_of, item_row, is_counted, args_past, events_past, params_past, parts_past, symbols_past, is_op, is_eq, is_strand, is_aim};
ghost use Rattle.npa_limits.specs.Tallies.{with_part, with_node, tallied};

use crate::part::LimitPart;
use npa_reading::below;
use npa_syntax::Node;
use npa_text::symbols::{
    ARGUMENT_SORT, EVENT, FRESH_VALUE, FRESH_VALUES, ITEM, MODULE, NEXT_EVENT, NEXT_PART, PART,
    TERM, VARIABLE, VARIABLES,
};
use npa_text::terminals::{AIM, EQ, INTRUDER, KNOWN, OP, SORT, STRAND};

/// The most declared sorts of a module.
pub const MOST_SORTS: u32 = 256;

/// The most operators of a module.
pub const MOST_OPS: u32 = 4_096;

/// The most arguments of an operator.
pub const MOST_ARGS: u32 = 16;

/// The most equations of a module.
pub const MOST_EQUATIONS: u32 = 256;

/// The most strands of a module.
pub const MOST_STRANDS: u32 = 1_024;

/// The most events of a strand.
pub const MOST_EVENTS: u32 = 32;

/// The most variables and fresh values of a strand together.
pub const MOST_PARAMS: u32 = 64;

/// The most aims of a module.
pub const MOST_AIMS: u32 = 256;

/// The most strand parts of an aim.
pub const MOST_STRAND_PARTS: u32 = 32;

/// The most known parts of an aim.
pub const MOST_KNOWN_PARTS: u32 = 64;

/// The most symbols of all messages of a strand together, and of a term of an equation or an aim.
pub const MOST_SYMBOLS: u32 = 1_024;

// The limit of the first row that is passed, in the order of `LimitPart`, and the number that passes
// it: the number of items, or that of the first item that passes the row. It goes over the trees once
// for each row.
pub fn first_limit(nodes: &[Node]) -> Option<(LimitPart, u64)>
    ensures { result ≡ limit_of nodes.now }
{
    let inside = below(MODULE, nodes);
    many_items(LimitPart::Sorts, MOST_SORTS, inside)
        .or(many_items(LimitPart::Ops, MOST_OPS, inside))
        .or(first_item(LimitPart::Args, inside))
        .or(many_items(LimitPart::Equations, MOST_EQUATIONS, inside))
        .or(many_items(LimitPart::Strands, MOST_STRANDS, inside))
        .or(first_item(LimitPart::Events, inside))
        .or(first_item(LimitPart::Params, inside))
        .or(many_items(LimitPart::Aims, MOST_AIMS, inside))
        .or(first_item(LimitPart::Parts, inside))
        .or(first_item(LimitPart::Symbols, inside))
}

// What the number passes.

fn past(part: LimitPart, most: u32, number: u64) -> Option<(LimitPart, u64)>
    ensures { (n : ℕ) → number ≡ saturated n → result ≡ past part most n }
{
    if number > most as u64 {
        Some((part, number))
    } else {
        None
    }
}

// What the number of a kind of items passes.
fn many_items(part: LimitPart, most: u32, nodes: &[Node]) -> Option<(LimitPart, u64)>
    ensures { result ≡ past part most (number (is_counted part) (all_with ITEM nodes.now)) }
{
    past(part, most, count_items(part, nodes))
}

// How many items a row counts.
#[tactic(auto, using(crate::proofs::LimitLaws::counted_step))]
fn count_items(part: LimitPart, nodes: &[Node]) -> u64
    ensures { result ≡ saturated (number (is_counted part) (all_with ITEM nodes.now)) }
{
    let mut count: u64 = 0;
    for node in nodes {
        if is_counted(part, node) {
            count = count.saturating_add(1);
        }
    }
    count
}

// Whether a node is an item that a row counts.
fn is_counted(part: LimitPart, node: &Node) -> bool
    ensures { result ≡ (symbol_of node.now == ITEM && is_counted part node.now) }
{
    if node.symbol != ITEM {
        return false;
    }
    match part {
        LimitPart::Sorts => node.head.kind == SORT,
        LimitPart::Ops => is_op(node),
        LimitPart::Equations => is_eq(node),
        LimitPart::Strands => is_strand(node),
        LimitPart::Aims => is_aim(node),
        _ => false,
    }
}

fn is_op(item: &Node) -> bool
    ensures { result ≡ is_op item.now }
{
    item.head.kind == OP
}

fn is_eq(item: &Node) -> bool
    ensures { result ≡ is_eq item.now }
{
    item.head.kind == EQ
}

fn is_strand(item: &Node) -> bool
    ensures { result ≡ is_strand item.now }
{
    item.head.kind == STRAND || item.head.kind == INTRUDER
}

fn is_aim(item: &Node) -> bool
    ensures { result ≡ is_aim item.now }
{
    item.head.kind == AIM
}

// What the first item that passes a row passes.
#[tactic(auto, using(crate::proofs::LimitLaws::first_step))]
fn first_item(part: LimitPart, nodes: &[Node]) -> Option<(LimitPart, u64)>
    ensures { result ≡ first_passed (map (item_row part) (all_with ITEM nodes.now)) }
{
    for node in nodes {
        if let Some(passed) = item_limit(part, node) {
            return Some(passed);
        }
    }
    None
}

// What a node passes of a row that looks at one item after another.
fn item_limit(part: LimitPart, node: &Node) -> Option<(LimitPart, u64)>
    ensures { result ≡ where_is (symbol_of node.now == ITEM) (item_row part node.now) }
{
    if node.symbol != ITEM {
        return None;
    }
    match part {
        LimitPart::Args => args_past(node),
        LimitPart::Events => events_past(node),
        LimitPart::Params => params_past(node),
        LimitPart::Parts => parts_past(node),
        LimitPart::Symbols => symbols_past(node),
        _ => None,
    }
}

fn args_past(item: &Node) -> Option<(LimitPart, u64)>
    ensures { result ≡ args_past item.now }
{
    if !is_op(item) {
        return None;
    }
    let args = count_with(ARGUMENT_SORT, item.children.as_slice());
    past(LimitPart::Args, MOST_ARGS, args as u64)
}

fn events_past(item: &Node) -> Option<(LimitPart, u64)>
    ensures { result ≡ events_past item.now }
{
    if !is_strand(item) {
        return None;
    }
    let events = count_listed(EVENT, NEXT_EVENT, item.children.as_slice());
    past(LimitPart::Events, MOST_EVENTS, events)
}

fn params_past(item: &Node) -> Option<(LimitPart, u64)>
    ensures { result ≡ params_past item.now }
{
    if !is_strand(item) {
        return None;
    }
    past(
        LimitPart::Params,
        MOST_PARAMS,
        params_of(item.children.as_slice()),
    )
}

// How many variables and fresh values a strand has.
fn params_of(nodes: &[Node]) -> u64
    ensures { result ≡ saturated (params_of nodes.now) }
{
    let variables = count_with(VARIABLE, below(VARIABLES, nodes)) as u64;
    let fresh = count_with(FRESH_VALUE, below(FRESH_VALUES, nodes)) as u64;
    variables.saturating_add(fresh)
}

// How many nodes there are for a nonterminal.
fn count_with(symbol: u8, nodes: &[Node]) -> usize
    ensures { result ≡ length (all_with symbol nodes.now) }
{
    nodes.iter().filter(|node| node.symbol == symbol).count()
}

// How many nodes there are for a nonterminal, where the further ones stand below nodes of their own.
#[tactic(auto, using(crate::proofs::LimitLaws::listed_count))]
fn count_listed(symbol: u8, next: u8, nodes: &[Node]) -> u64
    ensures { result ≡ saturated (length (listed symbol next nodes.now)) }
{
    let mut count: u64 = 0;
    for node in nodes {
        if node.symbol == symbol {
            count = count.saturating_add(1);
        } else if node.symbol == next {
            let further = count_with(symbol, node.children.as_slice());
            count = count.saturating_add(further as u64);
        }
    }
    count
}

// The parts of an aim so far: how many are strands, how many are known terms, and of which kind there
// were too many first, where there were: true stands for the known ones.
#[derive(Debug, Clone, Copy)]
struct Tally {
    strands: u64,
    known: u64,
    first: Option<bool>,
}

fn parts_past(item: &Node) -> Option<(LimitPart, u64)>
    ensures { result ≡ parts_past item.now }
{
    if !is_aim(item) {
        return None;
    }
    let none = Tally {
        strands: 0,
        known: 0,
        first: None,
    };
    let tally = tally_parts(none, item.children.as_slice());
    let known = tally.first?;
    Some((LimitPart::Parts, number_of(tally, known)))
}

// The number of parts of a kind.
fn number_of(tally: Tally, known: bool) -> u64
    ensures { result ≡ cond known tally.known tally.strands }
{
    if known { tally.known } else { tally.strands }
}

// The parts so far and those that stand among the nodes or below them.
#[tactic(auto, using(crate::proofs::TallyLaws::tallied_listed))]
fn tally_parts(begun: Tally, nodes: &[Node]) -> Tally
    ensures { result ≡ tallied begun (listed PART NEXT_PART nodes.now) }
{
    let mut tally = begun;
    for node in nodes {
        tally = with_node(tally, node);
    }
    tally
}

// The parts so far and those that a node is, or has below it.
fn with_node(tally: Tally, node: &Node) -> Tally
    ensures { result ≡ with_node tally node.now }
{
    if node.symbol == PART {
        return with_part(tally, node);
    }
    if node.symbol == NEXT_PART {
        return tally_children(tally, node.children.as_slice());
    }
    tally
}

#[tactic(auto, using(crate::proofs::TallyLaws::tallied_all))]
fn tally_children(begun: Tally, nodes: &[Node]) -> Tally
    ensures { result ≡ tallied begun (all_with PART nodes.now) }
{
    let mut tally = begun;
    for node in nodes {
        if node.symbol == PART {
            tally = with_part(tally, node);
        }
    }
    tally
}

// The parts so far and one more.
fn with_part(tally: Tally, part: &Node) -> Tally
    ensures { result ≡ with_part tally part.now }
{
    let mut tally = tally;
    if part.head.kind == KNOWN {
        tally.known = tally.known.saturating_add(1);
        tally.first = tally
            .first
            .or(crowd_of(true, tally.known, MOST_KNOWN_PARTS));
    } else {
        tally.strands = tally.strands.saturating_add(1);
        tally.first = tally
            .first
            .or(crowd_of(false, tally.strands, MOST_STRAND_PARTS));
    }
    tally
}

// The kind of parts, where there are too many.
fn crowd_of(known: bool, number: u64, most: u32) -> Option<bool>
    ensures { (n : ℕ) → number ≡ saturated n → result ≡ cond (nat_lt most n) (Some known) None }
{
    if number > most as u64 {
        Some(known)
    } else {
        None
    }
}

fn symbols_past(item: &Node) -> Option<(LimitPart, u64)>
    ensures { result ≡ symbols_past item.now }
{
    let nodes = item.children.as_slice();
    if is_strand(item) {
        return past(LimitPart::Symbols, MOST_SYMBOLS, total_size(nodes));
    }
    if has_single_terms(item) {
        return first_large(nodes);
    }
    None
}

// Whether each term of an item is limited by itself.
fn has_single_terms(item: &Node) -> bool
    ensures { result ≡ (is_eq item.now || is_aim item.now) }
{
    is_eq(item) || is_aim(item)
}

// The symbols of all terms of the nodes together.
#[cycle(size)]
#[tactic(auto, using(crate::proofs::LimitLaws::total_step))]
fn total_size(nodes: &[Node]) -> u64
    ensures { result ≡ saturated (total (sizes_of nodes.now)) }
{
    let mut size: u64 = 0;
    for node in nodes {
        size = size.saturating_add(node_size(node));
    }
    size
}

// The symbols of all terms of a node together.
#[cycle(size)]
#[tactic(auto, using(crate::proofs::LimitLaws::total_at))]
fn node_size(node: &Node) -> u64
    ensures { result ≡ saturated (total (sizes node.now)) }
{
    let below = total_size(node.children.as_slice());
    if node.symbol == TERM {
        return below.saturating_add(1);
    }
    below
}

// The symbols of the first term of the nodes that has too many.
#[cycle(large)]
fn first_large(nodes: &[Node]) -> Option<(LimitPart, u64)>
    ensures { result ≡ first_passed (map (past Symbols 1024) (sizes_of nodes.now)) }
{
    for node in nodes {
        if let Some(passed) = large_node(node) {
            return Some(passed);
        }
    }
    None
}

// The symbols of the first term of a node that has too many.
#[cycle(large)]
#[tactic(auto, using(crate::proofs::LimitLaws::large_at))]
fn large_node(node: &Node) -> Option<(LimitPart, u64)>
    ensures { result ≡ first_passed (map (past Symbols 1024) (sizes node.now)) }
{
    let below = node.children.as_slice();
    if node.symbol == TERM {
        let size = total_size(below).saturating_add(1);
        return past(LimitPart::Symbols, MOST_SYMBOLS, size);
    }
    first_large(below)
}
