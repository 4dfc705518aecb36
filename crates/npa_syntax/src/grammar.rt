ghost use Rattle.std.specs.Prelude.{map, IsTrue};
ghost use Rattle.npa_syntax.specs.Tables.{plain, is_decided, is_distinct, is_productive};

use crate::production::{Part, Production};

/// A grammar whose texts one terminal of look-ahead decides.
///
/// A literal table is tested when the function that makes it is checked. The kind of the next
/// terminal says of each part that may be left out or come again whether it is there
/// (`decided`), no two productions of a nonterminal begin with one kind (`distinct`), and each
/// nonterminal that is needed has a text in which no bracket opens (`productive`).
#[derive(Debug, Clone, Copy)]
pub struct Grammar {
    /// The productions of all nonterminals.
    pub productions: &'static [Production],
    /// What a text consists of.
    pub start: &'static [Part],
    /// The nonterminal that opens a bracket; brackets nest in one another at most `limit` deep.
    pub nesting: u8,
    /// How many brackets may be open at once.
    pub limit: u32,
    ghost distinct: { IsTrue (is_distinct (map plain productions.now)) },
    ghost decided: { IsTrue (is_decided (map plain productions.now) start.now) },
    ghost productive: { IsTrue (is_productive (map plain productions.now) nesting start.now) },
}
