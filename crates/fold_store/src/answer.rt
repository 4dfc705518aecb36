use fold_core::Large;
use npa_list::List;

/// Numbers of entries.
pub type Places = List<u32>;

/// What `take` answers.
#[derive(Debug, Clone, Copy, PartialEq, Eq)]
pub enum Taken {
    /// The entry of this number is taken now.
    Got(u32),
    /// No entry waits.
    Nothing,
    /// An entry waits, and taken and finished entries together are the budget.
    Spent,
    /// An initial item was found, or the search was halted.
    Stopped,
}

/// How a search stands.
#[derive(Debug, Clone, Copy, PartialEq, Eq)]
pub enum Verdict {
    /// The entry of this number is the first whose item is initial.
    Found(u32),
    /// An item's expansion is past a limit.
    Halted(Large),
    /// Every live entry is finished.
    Done,
    /// The budget is spent.
    Open,
    /// There is more to do.
    Running,
}
