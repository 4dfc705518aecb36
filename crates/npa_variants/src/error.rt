use crate::variant::Variants;
use npa_term::NoMemory;
use thiserror::Error;

/// Why `variants` answered no complete list.
#[derive(Debug, Drop, Error)]
pub enum VarFail {
    /// The search kept 65 variants at one moment, these, in the order in which they were found.
    #[error("more than 64 variants")]
    TooMany(Variants),
    /// An application and an equation's left side have more than 4,096 unifiers.
    #[error("more than 4096 unifiers")]
    Unifiers,
    /// A term has more than 1,024 symbols, so many.
    #[error("a term of {0} symbols")]
    Symbols(u64),
    #[error("out of memory")]
    NoMemory,
}

impl From<NoMemory> for VarFail {
    ghost use Rattle.std.specs.Prelude.{◌≡◌};
    ghost use Rattle.npa_variants.specs.declared.error.VarFail.TheVariants.{NoMemory as OutOfMemory};

    ghost from_gives = { λ _ e. e ≡ OutOfMemory };

    fn from(_error: NoMemory) -> VarFail {
        VarFail::NoMemory
    }
}
