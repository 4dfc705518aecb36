use npa_term::NoMemory;
use std::alloc::AllocError;
use thiserror::Error;

/// Why `matches` answered no matchers.
#[derive(Clone, Copy, Debug, PartialEq, Eq, Hash, Error)]
pub enum MatchFail {
    /// There are more than `MAX_MATCHERS` matchers.
    #[error("more than 4096 matchers")]
    TooMany,
    #[error("out of memory")]
    NoMemory,
}

impl From<NoMemory> for MatchFail {
    ghost use Rattle.std.specs.Prelude.{◌≡◌};
    ghost use Rattle.npa_match.specs.declared.error.MatchFail.TheVariants.{NoMemory as OutOfMemory};

    ghost from_gives = { λ _ e. e ≡ OutOfMemory };

    fn from(_error: NoMemory) -> MatchFail {
        MatchFail::NoMemory
    }
}

impl From<AllocError> for MatchFail {
    ghost use Rattle.std.specs.Prelude.{◌≡◌};
    ghost use Rattle.npa_match.specs.declared.error.MatchFail.TheVariants.{NoMemory as OutOfMemory};

    ghost from_gives = { λ _ e. e ≡ OutOfMemory };

    fn from(_error: AllocError) -> MatchFail {
        MatchFail::NoMemory
    }
}
