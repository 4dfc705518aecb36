ghost use Rattle.std.specs.Prelude.{◌≡◌, ◌≤◌, map, length, IfOk};
ghost use Rattle.npa_syntax.specs.Tables.{plain, piece, rules_of};
ghost use Rattle.npa_syntax.specs.Grammars.{is_needed as needed};
ghost use Rattle.npa_syntax.specs.Automata.{passed_by};
ghost use Rattle.npa_syntax.specs.Languages.{language, IsText, IsFront};
ghost use Rattle.npa_syntax.specs.Answers.{AnswersText, AnswersFront, PlacesFault, ReadsOrStops};

use crate::fault::ReadFault;
use crate::grammar::Grammar;
use crate::node::{Node, Terminal};
use crate::opening::opens_at;
use crate::production::{Occurrence, Part};
use npa_list::List;
use std::alloc::Global;

// How many parts are done with after one occurrence of a part.
fn passed(occurs: Occurrence) -> usize
    ensures { result ≡ passed_by occurs }
{
    match occurs {
        Occurrence::Once | Occurrence::Optional => 1,
        Occurrence::Repeated => 0,
    }
}

fn is_needed(occurs: Occurrence) -> bool
    ensures { result ≡ needed occurs }
{
    match occurs {
        Occurrence::Once => true,
        Occurrence::Optional | Occurrence::Repeated => false,
    }
}

// Reads the parts in order from a place on, each as often as it comes. It calls itself once for
// each production that is open at a place, and goes along what is repeated without.
fn read_parts(
    alloc: Global,
    grammar: &Grammar,
    room: u32,
    parts: &[Part],
    terminals: &[Terminal],
    from: usize,
) -> Result<(List<Node>, usize), ReadFault>
    requires { from ≤ length terminals.now }
    ensures { ReadsOrStops (rules_of (map plain grammar.now.productions.now) grammar.now.nesting) (map (piece room) parts.now) terminals.now from result }
{
    let mut nodes = List::new(alloc);
    let mut at = from;
    let mut next = 0;
    while next < parts.len() {
        let part = parts[next];
        match opens_at(grammar, part, room, terminals, at) {
            Some(opening) => {
                let (children, end) = match read_parts(
                    alloc,
                    grammar,
                    opening.room,
                    opening.parts,
                    terminals,
                    at + 1,
                ) {
                    Ok(read) => read,
                    Err(fault) => return Err(fault),
                };
                nodes.push(Node {
                    symbol: part.symbol,
                    head: opening.head,
                    children,
                })?;
                at = end;
                next += passed(part.occurs);
            }
            None => {
                if is_needed(part.occurs) {
                    return Err(ReadFault::Syntax { at });
                }
                next += 1;
            }
        }
    }
    Ok((nodes, at))
}

/// Reads the longest front of the terminals that some text of the grammar goes along, and answers
/// its trees and how many terminals it has. Where that front is no text itself, the fault is at
/// its end: the place, from 0, of the first terminal at which no text can go on, or the number of
/// terminals.
pub fn read_front(
    alloc: Global,
    grammar: &Grammar,
    terminals: &[Terminal],
) -> Result<(List<Node>, usize), ReadFault>
    ensures found { IfOk result (λ read. IsFront (language grammar.now) terminals.now read.0 read.1) }
    ensures only { AnswersFront (language grammar.now) terminals.now result }
    ensures fault { PlacesFault (language grammar.now) terminals.now result }
{
    read_parts(alloc, grammar, grammar.limit, grammar.start, terminals, 0)
}

/// Reads all the terminals as one text of the grammar, and answers its trees. The fault is at the
/// first terminal at which no text can go on, by its place from 0, or at the number of terminals
/// where no text ends with them.
pub fn read_all(
    alloc: Global,
    grammar: &Grammar,
    terminals: &[Terminal],
) -> Result<List<Node>, ReadFault>
    ensures found { IfOk result (IsText (language grammar.now) terminals.now) }
    ensures only { AnswersText (language grammar.now) terminals.now result }
    ensures fault { PlacesFault (language grammar.now) terminals.now result }
{
    let (nodes, end) = match read_front(alloc, grammar, terminals) {
        Ok(read) => read,
        Err(fault) => return Err(fault),
    };
    if end < terminals.len() {
        return Err(ReadFault::Syntax { at: end });
    }
    Ok(nodes)
}
