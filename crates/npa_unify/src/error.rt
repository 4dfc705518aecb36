use npa_term::NoMemory;
use thiserror::Error;

/// Why `unify` answered no unifiers.
#[derive(Clone, Copy, Debug, PartialEq, Eq, Hash, Error)]
pub enum UnifyFail {
    /// More than `MAX_UNIFIERS` branches succeed.
    #[error("more than 4096 unifiers")]
    TooMany,
    /// A value has more than 1,024 symbols, so many.
    #[error("a value of {0} symbols")]
    TooLarge(u64),
    #[error("out of memory")]
    NoMemory,
}

impl From<NoMemory> for UnifyFail {
    ghost use Rattle.std.specs.Prelude.{◌≡◌};
    ghost use Rattle.npa_unify.specs.declared.error.UnifyFail.TheVariants.{NoMemory as OutOfMemory};

    ghost from_gives = { λ _ e. e ≡ OutOfMemory };

    fn from(_error: NoMemory) -> UnifyFail {
        UnifyFail::NoMemory
    }
}
