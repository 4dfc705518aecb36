ghost use Rattle.std.specs.Prelude.{◌≡◌, Some, IfOk};
ghost use Rattle.npa_answers.specs.Commands.{usage_line};
ghost use Rattle.npa_outside.specs.Lines.{limit_bytes};
ghost use Rattle.npa_answers.specs.Lines.{refusal, refused_no_aim};

use npa_module::ReadError;
use npa_outside::{LIMIT_BYTES, Printed, put_counted, put_place, put_word, told};
use npa_term::NoMemory;
use std::alloc::{AllocError, Global};

// The line for words that are no command.
const USAGE: &[u8] =
    b"usage: npa check FILE | search FILE AIM [--budget N] [--workers N] | verify FILE AIM CERT | replay FILE AIM RUN | gen N [--workers N]\n";

/// The line for words that are no command, or one that isn't built yet.
#[tactic(auto, unfolding(crate::specs::Commands::usage_line))]
pub(crate) fn usage(alloc: Global) -> Result<Printed, AllocError>
    ensures text { IfOk result (λ a. a.text.items ≡ usage_line) }
    ensures status { IfOk result (λ a. a.status ≡ 2) }
{
    told(alloc, USAGE, 2)
}

/// The line for a file that is too long.
pub(crate) fn too_long(alloc: Global) -> Result<Printed, AllocError>
    ensures text { IfOk result (λ a. a.text.items ≡ limit_bytes) }
    ensures status { IfOk result (λ a. a.status ≡ 7) }
{
    told(alloc, LIMIT_BYTES, 7)
}

/// The line for a module text that is refused; there is none for want of memory.
pub(crate) fn refusal(alloc: Global, error: &ReadError) -> Result<Printed, NoMemory>
    ensures { IfOk result (λ a. refusal error.now ≡ Some (a.text.items, a.status)) }
{
    let mut text = Vec::new(alloc);
    let mut status = 3;
    match error {
        ReadError::Syntax { line, col } => {
            put_place(&mut text, b"refused syntax ", *line, *col)?;
        }
        ReadError::Later { line, col } => {
            put_place(&mut text, b"refused later ", *line, *col)?;
        }
        ReadError::Limit { part, value } => {
            put_counted(&mut text, b"limit ", part.word(), *value)?;
            status = 7;
        }
        ReadError::Name { name, line, col } => {
            put_word(&mut text, b"refused name ", name.as_slice(), *line, *col)?;
        }
        ReadError::Sort { name, line, col } => {
            put_word(&mut text, b"refused sort ", name.as_slice(), *line, *col)?;
        }
        ReadError::NoMemory => return Err(NoMemory),
    }
    Ok(Printed { text, status })
}

/// The line for an aim that isn't in the module.
pub(crate) fn refused_no_aim(alloc: Global, word: &[u8]) -> Result<Printed, AllocError>
    ensures text { IfOk result (λ a. a.text.items ≡ refused_no_aim word.now) }
    ensures status { IfOk result (λ a. a.status ≡ 3) }
{
    let mut text = Vec::from_slice(alloc, b"refused no aim ")?;
    text.extend_from_slice(word)?;
    text.extend_from_slice(b"\n")?;
    Ok(Printed { text, status: 3 })
}
