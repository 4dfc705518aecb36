ghost use Rattle.std.specs.Prelude.{◌≡◌, map};
ghost use Rattle.npa_syntax.specs.Tables.{plain, piece, parts_of, rules_of, room_in as room_of};
ghost use Rattle.npa_syntax.specs.Openings.{now_of, IsOpening};

use crate::grammar::Grammar;
use crate::node::Terminal;
use crate::production::{Part, Production};

/// How a part begins at a place: the terminal there, what its production says follows, and how
/// many more brackets may open in that.
#[derive(Clone, Copy)]
pub struct Opening {
    pub head: Terminal,
    pub parts: &'static [Part],
    pub room: u32,
}

// What follows in the production of a nonterminal that begins with a kind of terminal.
fn parts_after(productions: &'static [Production], symbol: u8, kind: u8) -> Option<&'static [Part]>
    ensures { now_of result ≡ parts_of (map plain productions.now) symbol kind }
{
    for production in productions {
        if production.symbol == symbol && production.kind == kind {
            return Some(production.parts);
        }
    }
    None
}

// How many more brackets may open inside a nonterminal, none at all where it may not open.
fn room_in(nesting: u8, symbol: u8, room: u32) -> Option<u32>
    ensures { result ≡ room_of nesting symbol room }
{
    if symbol == nesting {
        room.checked_sub(1)
    } else {
        Some(room)
    }
}

/// How a part begins at a place of the terminals, where `room` more brackets may open.
pub fn opens_at(
    grammar: &Grammar,
    part: Part,
    room: u32,
    terminals: &[Terminal],
    at: usize,
) -> Option<Opening>
    ensures { IsOpening (rules_of (map plain grammar.now.productions.now) grammar.now.nesting) (piece room part) terminals.now at result }
{
    let head = *terminals.get(at)?;
    let room = room_in(grammar.nesting, part.symbol, room)?;
    let parts = parts_after(grammar.productions, part.symbol, head.kind)?;
    Some(Opening { head, parts, room })
}
