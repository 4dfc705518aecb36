use npa_list::List;

/// A terminal symbol of a text: a token's kind and its place.
#[derive(Debug, Clone, Copy)]
pub struct Terminal {
    /// The kind of the token, a number of the language's own choice.
    pub kind: u8,
    /// The place of the token in the list of tokens that it comes from.
    pub at: u32,
}

/// A node of a syntax tree: one production, applied.
#[derive(Debug, Drop)]
pub struct Node {
    /// The nonterminal that the production is for.
    pub symbol: u8,
    /// The terminal with which the production began.
    pub head: Terminal,
    /// The nodes of what followed, in the order of the text.
    pub children: List<Node>,
}
