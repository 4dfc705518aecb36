ghost use Rattle.std.specs.Prelude.{◌≡◌};

use npa_list::List;
use npa_term::{NoMemory, Term, Terms};
use std::alloc::{AllocError, AllocFailed};

/// An instance of a strand: the strand's number and a term for each of its parameters.
#[derive(Debug, Drop)]
pub struct Instance {
    pub strand: u16,
    pub args: Terms,
}

/// The instances of a run, numbered from 0.
pub type Instances = List<Instance>;

/// A list of places in another list, counted from 0.
pub type Places = List<u32>;

/// A run: instances of strands, and a schedule. Each step of the schedule names the instance that
/// executes its next event.
#[derive(Debug, Drop)]
pub struct Run {
    pub instances: Instances,
    pub schedule: Places,
}

/// Why a run breaks. Instances and parameters are counted from 0.
#[derive(Debug, Drop)]
pub enum Cause {
    /// The instance has a wrong number of terms.
    Params(u32),
    /// The sort of the instance's term for this parameter isn't at or below the parameter's.
    Sort(u32, u16),
    /// The instance's term for this parameter isn't normal.
    Normal(u32, u16),
    /// The fresh name is the value of two fresh parameters.
    Twice(u32),
    /// The step names an instance that isn't there.
    Instance(u32),
    /// The step names an instance whose events are all executed.
    Ended(u32),
    /// The step receives this term, which wasn't sent.
    Unsent(Term),
}

/// Why a run wasn't begun or a step wasn't executed.
#[derive(Debug, Drop)]
pub enum RunFail {
    /// The run breaks here.
    Stop(Cause),
    NoMemory,
}

impl From<AllocError> for RunFail {
    ghost use Rattle.npa_model.specs.declared.run.RunFail.TheVariants.{NoMemory as OutOfMemory};

    ghost from_gives = { λ _ e. e ≡ OutOfMemory };

    fn from(_error: AllocError) -> RunFail {
        RunFail::NoMemory
    }
}

impl<T: Drop> From<AllocFailed<T>> for RunFail {
    ghost use Rattle.npa_model.specs.declared.run.RunFail.TheVariants.{NoMemory as OutOfMemory};

    ghost from_gives = { λ _ e. e ≡ OutOfMemory };

    fn from(_error: AllocFailed<T>) -> RunFail {
        RunFail::NoMemory
    }
}

impl From<NoMemory> for RunFail {
    ghost use Rattle.npa_model.specs.declared.run.RunFail.TheVariants.{NoMemory as OutOfMemory};

    ghost from_gives = { λ _ e. e ≡ OutOfMemory };

    fn from(_error: NoMemory) -> RunFail {
        RunFail::NoMemory
    }
}
