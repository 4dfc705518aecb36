ghost use Rattle.std.specs.Prelude.{◌≡◌, ◌==◌, ◌&&◌};
ghost use Rattle.npa_syntax.specs.Nodes.{symbol_of};
ghost use Rattle.npa_limits.specs.Later.{later_of, is_later};

use npa_reading::below;
use npa_syntax::Node;
use npa_text::symbols::{ITEM, MODULE};
use npa_text::terminals::GRAMMAR;
use npa_text::{Tokens, token_at};

// The place of the first item that isn't read so far.
#[tactic(auto, using(crate::proofs::LimitLaws::later_step))]
pub fn later_item(tokens: &Tokens, nodes: &[Node]) -> Option<(u32, u32)>
    ensures { result ≡ later_of tokens.now nodes.now }
{
    for node in below(MODULE, nodes) {
        if is_later_item(node) {
            let token = token_at(tokens, node);
            return Some((token.line, token.col));
        }
    }
    None
}

fn is_later_item(node: &Node) -> bool
    ensures { result ≡ (symbol_of node.now == ITEM && is_later node.now) }
{
    node.symbol == ITEM && node.head.kind == GRAMMAR
}
