ghost use Rattle.std.specs.Prelude.{◌≡◌};
ghost use Rattle.npa_limits.specs.Limits.{word_of_part};

/// What of a module is limited, in the order in which the limits are tried.
#[derive(Clone, Copy, Debug, PartialEq, Eq)]
pub enum LimitPart {
    /// The declared sorts.
    Sorts,
    /// The operators.
    Ops,
    /// The arguments of an operator.
    Args,
    /// The equations.
    Equations,
    /// The strands, honest and intruder ones together.
    Strands,
    /// The events of a strand.
    Events,
    /// The variables and fresh values of a strand together.
    Params,
    /// The aims.
    Aims,
    /// The strand parts of an aim, or its known parts.
    Parts,
    /// The grammars.
    Grammars,
    /// The productions of a grammar.
    Productions,
    /// The conditions of a production.
    Conditions,
    /// The symbols of a strand's messages together, or of a term of another item.
    Symbols,
}

impl LimitPart {
    /// The word that names the part.
    pub fn word(&self) -> &'static [u8]
        ensures { result.now ≡ word_of_part self.now }
    {
        match self {
            LimitPart::Sorts => b"sorts",
            LimitPart::Ops => b"ops",
            LimitPart::Args => b"args",
            LimitPart::Equations => b"equations",
            LimitPart::Strands => b"strands",
            LimitPart::Events => b"events",
            LimitPart::Params => b"params",
            LimitPart::Aims => b"aims",
            LimitPart::Parts => b"parts",
            LimitPart::Grammars => b"grammars",
            LimitPart::Productions => b"productions",
            LimitPart::Conditions => b"conditions",
            LimitPart::Symbols => b"symbols",
        }
    }
}
