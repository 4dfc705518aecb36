use npa_term::{NoMemory, Term};
use thiserror::Error;

/// Why a theory isn't shown to be convergent.
#[derive(Debug, Drop, Error)]
pub enum ConvFail {
    /// The equation of this place, from 0, has a variable as its left side, or a right side that isn't
    /// a variable of its left side.
    #[error("equation {0} doesn't cancel")]
    Shape(u16),
    /// The right side of the equation of this place is of a sort that isn't at or below the left
    /// side's.
    #[error("equation {0} raises the sort")]
    SortUp(u16),
    /// A critical pair with two different normal forms: `from` rewrites to both.
    #[error("a term has two normal forms")]
    Pair { from: Term, left: Term, right: Term },
    /// An overlap of the equations of these places has more than 4,096 unifiers.
    #[error("equations {0} and {1} overlap in too many ways")]
    Unifiers(u16, u16),
    /// A term that would have this many symbols, more than 1,024, comes of an overlap.
    #[error("a term has {0} symbols")]
    Symbols(u64),
    /// Memory was wanting.
    #[error("memory was wanting")]
    NoMemory,
}

impl From<NoMemory> for ConvFail {
    ghost use Rattle.std.specs.Prelude.{◌≡◌};
    ghost use Rattle.npa_conv.specs.declared.error.ConvFail.TheVariants.{NoMemory as OutOfMemory};

    ghost from_gives = { λ _ e. e ≡ OutOfMemory };

    fn from(_error: NoMemory) -> ConvFail {
        ConvFail::NoMemory
    }
}
