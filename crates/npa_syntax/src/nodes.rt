ghost use Rattle.std.specs.Prelude.{◌≡◌};
ghost use Rattle.std.specs.Option.{option_copied};
ghost use Rattle.npa_syntax.specs.Nodes.{first_with, first_head};

use crate::node::{Node, Terminal};

/// The first of the nodes that is for this nonterminal.
pub fn child_of(nodes: &[Node], symbol: u8) -> Option<&Node>
    ensures { option_copied result ≡ first_with symbol nodes.now }
{
    nodes.iter().find(|node| node.symbol == symbol)
}

/// The terminal with which the first of the nodes for this nonterminal begins.
pub fn head_of(nodes: &[Node], symbol: u8) -> Option<Terminal>
    ensures { result ≡ first_head symbol nodes.now }
{
    let node = child_of(nodes, symbol)?;
    Some(node.head)
}
