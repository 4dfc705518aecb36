use npa_model::Cause;

/// What comes of a run that is replayed against an aim.
#[derive(Debug, Drop)]
pub enum Replay {
    /// The run reaches an instance of the aim.
    Reaches,
    /// The run breaks at this step, counted from 1; step 0 is the list of instances.
    Stops { step: u32, cause: Cause },
    /// The run doesn't break, and this part of the aim, counted from 1, is the first that can't be
    /// met beside those before it.
    Misses { part: u16 },
}
