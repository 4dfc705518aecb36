ghost use Rattle.std.specs.Prelude.{◌≡◌};
ghost use Rattle.fold_core.specs.Machine.{is_live, is_waiting, is_taken, is_root};

use crate::error::Large;
use npa_list::List;

/// Where an item was placed.
#[derive(Debug, Clone, Copy, PartialEq, Eq)]
pub enum Placed {
    /// It was kept under this number.
    Kept(u32),
    /// It was folded into the live entry of this number, which covers it.
    Folded(u32),
}

/// Where the children of one expansion were placed, in their order.
pub type PlacedList = List<Placed>;

/// Where an entry's item comes from.
#[derive(Debug, Clone, Copy, PartialEq, Eq)]
pub enum Origin {
    /// It is the root of this number.
    Root(u32),
    /// It is the child of this number in the expansion of an earlier entry's item.
    Child { parent: u32, child: u64 },
}

/// How far an entry has come. One that isn't retired is live.
#[derive(Debug, Clone, Copy, PartialEq, Eq)]
pub enum Status {
    /// Nobody has taken it yet.
    Waiting,
    /// A worker expands it.
    Taken,
    /// Each child of it has been placed.
    Finished,
    /// A later entry covers it: the entry that it points to, and the place in the history of the
    /// event that retired it. A worker may still be expanding it.
    Retired { to: u32, tick: u64, taken: bool },
}

impl Status {
    /// Whether the entry isn't retired.
    pub fn is_live(&self) -> bool
        ensures { result ≡ is_live self.now }
    {
        !matches!(self, Status::Retired { .. })
    }

    /// Whether the entry waits for a worker.
    pub fn is_waiting(&self) -> bool
        ensures { result ≡ is_waiting self.now }
    {
        matches!(self, Status::Waiting)
    }

    /// Whether a worker is expanding the entry, retired or not.
    pub fn is_taken(&self) -> bool
        ensures { result ≡ is_taken self.now }
    {
        match self {
            Status::Taken => true,
            Status::Retired { taken, .. } => *taken,
            Status::Waiting | Status::Finished => false,
        }
    }
}

/// One step of the machine: what one call on the store does while it holds the lock.
#[derive(Debug, Drop)]
pub enum Event {
    /// The root of this number was placed.
    Root {
        number: u32,
        placed: Placed,
    },
    /// A worker took the entry.
    Take {
        entry: u32,
    },
    /// The child of this number in the parent's expansion was placed.
    Insert {
        parent: u32,
        child: u64,
        placed: Placed,
    },
    /// Each child of the entry was placed, and the entry isn't taken any more.
    Finish {
        entry: u32,
        places: PlacedList,
    },
    /// The expansion of the entry is past a limit.
    Halt {
        entry: u32,
        why: Large,
    },
    /// What was taken waits again.
    Reset,
}

impl Event {
    /// Whether a root was placed.
    pub fn is_root(&self) -> bool
        ensures { result ≡ is_root self.now }
    {
        matches!(self, Event::Root { .. })
    }
}

/// A history: the events in the order in which they came.
pub type Events = List<Event>;
