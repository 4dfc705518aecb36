use npa_conv::ConvFail;
use npa_term::{NoMemory, Term};
use npa_variants::ReadyFail;
use thiserror::Error;

/// The first check of a protocol and its aims that fails, with what failed first in it, in the order of
/// the checks.
#[derive(Debug, Drop, Error)]
pub enum CheckFail {
    /// The first sort without a ground term, `Msg` first.
    #[error("sort {0} has no ground term")]
    Inhabited(u16),
    /// The first sort whose least ground term has more than 64 symbols, and so many.
    #[error("the least ground term of sort {0} has {1} symbols")]
    Ground(u16, u64),
    /// The theory isn't shown to be convergent. Want of memory is none of these.
    #[error("the theory isn't shown to be convergent")]
    Conv(ConvFail),
    /// A strand has too many variants, or one in which a variable doesn't originate. Want of memory is
    /// none of these.
    #[error("a strand isn't ready")]
    Ready(ReadyFail),
    /// The first aim that isn't accepted, by its place from 0, the first part of its terms that is no
    /// variable and unifies with the left side of an equation, and the place of the first such equation.
    #[error("aim {aim} isn't accepted")]
    AimForm { aim: u16, term: Term, equation: u16 },
    #[error("out of memory")]
    NoMemory,
}

impl From<NoMemory> for CheckFail {
    ghost use Rattle.std.specs.Prelude.{◌≡◌};
    ghost use Rattle.npa_close.specs.declared.fail.CheckFail.TheVariants.{NoMemory as OutOfMemory};

    ghost from_gives = { λ _ e. e ≡ OutOfMemory };

    fn from(_error: NoMemory) -> CheckFail {
        CheckFail::NoMemory
    }
}
