ghost use Rattle.std.specs.Prelude.{◌≡◌, ◌++◌, IfOk, OnOk};
ghost use Rattle.npa_text.specs.Raws.{no_token, is_term, token_of, token_at, terms_of, raw_of};

use crate::fault::NoMemory;
use crate::symbols::{GROUND, TERM};
use crate::token::{Kind, Raw, Raws, Token, Tokens};
use npa_syntax::{Node, Terminal};
use std::alloc::Global;

// What stands for the token of a place at which there is none.
fn no_token() -> Token
    ensures { result ≡ no_token }
{
    Token {
        kind: Kind::Word,
        start: 0,
        end: 0,
        line: 1,
        col: 1,
    }
}

/// The token of a terminal. Of a terminal that has no place among the tokens it is an empty word at
/// the beginning of a text.
pub fn token_of(tokens: &Tokens, terminal: Terminal) -> Token
    ensures { result ≡ token_of tokens.now terminal }
{
    match tokens.get(terminal.at as usize) {
        Some(token) => *token,
        None => no_token(),
    }
}

/// The token with which a node begins.
pub fn token_at(tokens: &Tokens, node: &Node) -> Token
    ensures { result ≡ token_at tokens.now node.now }
{
    token_of(tokens, node.head)
}

fn is_term(symbol: u8) -> bool
    ensures { result ≡ is_term symbol }
{
    symbol == TERM || symbol == GROUND
}

// Adds the terms that the nodes stand for. It goes into itself once for each node that is open at a
// place of the text.
fn push_terms(
    alloc: Global,
    tokens: &Tokens,
    nodes: &[Node],
    terms: &mut Raws,
) -> Result<(), NoMemory>
    ensures { OnOk result (terms.new ≡ terms.old ++ terms_of tokens.now nodes.now) }
{
    for node in nodes {
        if is_term(node.symbol) {
            let mut args = Raws::new(alloc);
            push_terms(alloc, tokens, node.children.as_slice(), &mut args)?;
            terms.push(Raw {
                head: token_at(tokens, node),
                args,
            })?;
        } else {
            push_terms(alloc, tokens, node.children.as_slice(), terms)?;
        }
    }
    Ok(())
}

/// The term that a node begins: its token, and as arguments the terms below the node, in the order
/// of the text. A node for a term or a ground term below it is one argument, with what is below that
/// node as its own arguments; any other node only holds terms.
pub fn raw_of(alloc: Global, tokens: &Tokens, node: &Node) -> Result<Raw, NoMemory>
    ensures { IfOk result (λ raw. raw ≡ raw_of tokens.now node.now) }
{
    let mut args = Raws::new(alloc);
    push_terms(alloc, tokens, node.children.as_slice(), &mut args)?;
    Ok(Raw {
        head: token_at(tokens, node),
        args,
    })
}
