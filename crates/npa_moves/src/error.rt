use fold_core::Measure;
use npa_term::NoMemory;
use thiserror::Error;

/// Why there is no list of roots or steps.
#[derive(Debug, Drop, Error)]
pub enum StepFail {
    /// The result of this number, from 0, is past a limit, or a problem of unification is whose first
    /// result would have this number.
    #[error("result {rule} is past its limit")]
    Large {
        rule: u64,
        measure: Measure,
        value: u64,
    },
    #[error("out of memory")]
    NoMemory,
}

impl From<NoMemory> for StepFail {
    ghost use Rattle.std.specs.Prelude.{◌≡◌};
    ghost use Rattle.npa_moves.specs.declared.error.StepFail.TheVariants.{NoMemory as OutOfMemory};

    ghost from_gives = { λ _ e. e ≡ OutOfMemory };

    fn from(_error: NoMemory) -> StepFail {
        StepFail::NoMemory
    }
}
