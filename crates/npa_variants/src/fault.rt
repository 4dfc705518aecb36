use crate::variant::Variants;
use npa_term::{NoMemory, Var};
use thiserror::Error;

/// Why a protocol isn't ready. Strands and variants are told by their places, counted from 0.
#[derive(Debug, Drop, Error)]
pub enum ReadyFail {
    /// The search for the strand's variants kept 65 at one moment, these.
    #[error("strand {strand} has more than 64 variants")]
    Variants { strand: u16, list: Variants },
    /// An application and an equation's left side have more than 4,096 unifiers.
    #[error("strand {strand} makes more than 4096 unifiers")]
    Unifiers { strand: u16 },
    /// A term has more than 1,024 symbols, so many.
    #[error("strand {strand} makes a term of {value} symbols")]
    Symbols { strand: u16, value: u64 },
    /// In this variant of the strand, the variable doesn't originate. Its number is the one that it has in
    /// the order in which variables first occur in the variant's terms, from 0.
    #[error("a variable of strand {strand} doesn't originate")]
    Origin { strand: u16, variant: u16, var: Var },
    #[error("out of memory")]
    NoMemory,
}

impl From<NoMemory> for ReadyFail {
    ghost use Rattle.std.specs.Prelude.{◌≡◌};
    ghost use Rattle.npa_variants.specs.declared.fault.ReadyFail.TheVariants.{NoMemory as OutOfMemory};

    ghost from_gives = { λ _ e. e ≡ OutOfMemory };

    fn from(_error: NoMemory) -> ReadyFail {
        ReadyFail::NoMemory
    }
}
