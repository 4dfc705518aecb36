ghost use Rattle.std.specs.Prelude.{◌≡◌, IfOk};
ghost use Rattle.npa_text.specs.Raws.{no_token};
ghost use Rattle.npa_reading.specs.Trees.{all_with, listed, has, below, word_at, word_of, seen, first_token, raw_below, after, child_for};

use npa_list::List;
use npa_syntax::{Node, child_of};
use npa_text::{Kind, NoMemory, Raw, Token, Tokens, raw_of, token_at, token_text};
use std::alloc::{AllocError, Global};

/// The nodes for a nonterminal, in order.
#[tactic(auto, using(crate::proofs::Walks::all_with_step))]
pub fn all_with<'a>(
    alloc: Global,
    symbol: u8,
    nodes: &'a [Node],
) -> Result<Vec<&'a Node>, AllocError>
    ensures { IfOk result (λ found. seen found.items ≡ all_with symbol nodes.now) }
{
    let mut found = Vec::new(alloc);
    for node in nodes {
        if node.symbol == symbol {
            found.push(node)?;
        }
    }
    Ok(found)
}

/// The nodes for a nonterminal, in order, where the further ones stand below nodes of their own.
#[tactic(auto, using(crate::proofs::Walks::listed_step))]
pub fn listed<'a>(
    alloc: Global,
    symbol: u8,
    next: u8,
    nodes: &'a [Node],
) -> Result<Vec<&'a Node>, AllocError>
    ensures { IfOk result (λ found. seen found.items ≡ listed symbol next nodes.now) }
{
    let mut found = Vec::new(alloc);
    for node in nodes {
        if node.symbol == symbol {
            found.push(node)?;
        } else if node.symbol == next {
            let mut further = all_with(alloc, symbol, node.children.as_slice())?;
            found.append(&mut further)?;
        }
    }
    Ok(found)
}

/// The nodes behind the first one for a nonterminal.
pub fn after(symbol: u8, nodes: &[Node]) -> &[Node]
    ensures { result.now ≡ after symbol nodes.now }
{
    let mut rest = nodes;
    while let Some((first, more)) = rest.split_first() {
        rest = more;
        if first.symbol == symbol {
            return rest;
        }
    }
    rest
}

/// Whether there is a node for a nonterminal.
pub fn has(symbol: u8, nodes: &[Node]) -> bool
    ensures { result ≡ has symbol nodes.now }
{
    child_of(nodes, symbol).is_some()
}

/// The children of the first node for a nonterminal.
pub fn below(symbol: u8, nodes: &[Node]) -> &[Node]
    ensures { result.now ≡ below symbol nodes.now }
{
    match child_of(nodes, symbol) {
        Some(node) => node.children.as_slice(),
        None => &[],
    }
}

/// The word with which a node begins.
pub fn word_at<'a>(bytes: &'a [u8], tokens: &Tokens, node: &Node) -> &'a [u8]
    ensures { result.now ≡ word_at bytes.now tokens.now node.now }
{
    token_text(bytes, token_at(tokens, node))
}

/// The word with which the first node for a nonterminal begins.
pub fn word_of<'a>(bytes: &'a [u8], tokens: &Tokens, symbol: u8, nodes: &[Node]) -> &'a [u8]
    ensures { result.now ≡ word_of bytes.now tokens.now symbol nodes.now }
{
    match child_of(nodes, symbol) {
        Some(node) => word_at(bytes, tokens, node),
        None => &[],
    }
}

// What stands for the token of a node that isn't there.
fn no_token() -> Token
    ensures { result ≡ no_token }
{
    Token {
        kind: Kind::Word,
        start: 0,
        end: 0,
        line: 1,
        col: 1,
    }
}

/// The token of the first node for a nonterminal.
pub fn first_token(tokens: &Tokens, symbol: u8, nodes: &[Node]) -> Token
    ensures { result ≡ first_token tokens.now symbol nodes.now }
{
    match child_of(nodes, symbol) {
        Some(node) => token_at(tokens, node),
        None => no_token(),
    }
}

/// The term of the first node for one.
pub fn raw_below(
    alloc: Global,
    tokens: &Tokens,
    symbol: u8,
    nodes: &[Node],
) -> Result<Raw, NoMemory>
    ensures { IfOk result (λ raw. raw ≡ raw_below tokens.now symbol nodes.now) }
{
    match child_of(nodes, symbol) {
        Some(node) => raw_of(alloc, tokens, node),
        None => Ok(Raw {
            head: no_token(),
            args: List::new(alloc),
        }),
    }
}

/// The first child of a node for a nonterminal, or the node itself where it has none.
pub fn child_for(symbol: u8, node: &Node) -> &Node
    ensures { result.now ≡ child_for symbol node.now }
{
    match child_of(node.children.as_slice(), symbol) {
        Some(child) => child,
        None => node,
    }
}
