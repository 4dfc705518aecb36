/// How often a part of a production occurs in a text.
#[derive(Debug, Clone, Copy)]
pub enum Occurrence {
    /// Exactly once.
    Once,
    /// Once, or not at all.
    Optional,
    /// Any number of times, not at all included.
    Repeated,
}

/// A part of a production: a nonterminal, and how often it occurs.
#[derive(Debug, Clone, Copy)]
pub struct Part {
    pub symbol: u8,
    pub occurs: Occurrence,
}

/// A production: a nonterminal may be a terminal of this kind, and then the parts in order.
#[derive(Debug, Clone, Copy)]
pub struct Production {
    /// The nonterminal.
    pub symbol: u8,
    /// The kind of terminal with which the production begins.
    pub kind: u8,
    /// What follows that terminal.
    pub parts: &'static [Part],
}

/// The part that occurs exactly once.
#[macro_export]
macro_rules! one {
    ($symbol:expr) => {
        $crate::Part {
            symbol: $symbol,
            occurs: $crate::Occurrence::Once,
        }
    };
}

/// The part that may be left out.
#[macro_export]
macro_rules! optional {
    ($symbol:expr) => {
        $crate::Part {
            symbol: $symbol,
            occurs: $crate::Occurrence::Optional,
        }
    };
}

/// The part that occurs any number of times.
#[macro_export]
macro_rules! repeated {
    ($symbol:expr) => {
        $crate::Part {
            symbol: $symbol,
            occurs: $crate::Occurrence::Repeated,
        }
    };
}

/// The production of a nonterminal that begins with a kind of terminal; its parts stand in `[]`.
#[macro_export]
macro_rules! production {
    ($symbol:expr, $kind:expr, [$($part:expr),*]) => {
        $crate::Production {
            symbol: $symbol,
            kind: $kind,
            parts: &[$($part),*],
        }
    };
}
