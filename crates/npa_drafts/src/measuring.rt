ghost use Rattle.std.specs.Prelude.{◌≡◌, ◌<◌, min, ℕ};
ghost use Rattle.npa_moves.specs.Finishing.{excess, past_limit};

use fold_core::Measure;
use npa_model::{Pattern, pattern_symbols};

const MAX_STRANDS: u64 = 32;

const MAX_FACTS: u64 = 64;

const MAX_PATTERN_SYMBOLS: u64 = 1024;

/// The first measure of a pattern that is past its limit, with what it is: its strands, of which there may
/// be 32, its facts, 64, and its symbols, 1,024. It takes no memory.
pub fn excess(p: &Pattern) -> Option<(Measure, u64)>
    ensures { result ≡ excess p.now }
{
    let strands = p.strands.len() as u64;
    let facts = (p.known.len() as u64).saturating_add(p.unknown.len() as u64);
    past_limit(MAX_STRANDS, Measure::Strands, strands)
        .or(past_limit(MAX_FACTS, Measure::Facts, facts))
        .or(past_limit(MAX_PATTERN_SYMBOLS, Measure::Symbols, pattern_symbols(p)))
}

// A count past its limit.
fn past_limit(most: u64, measure: Measure, count: u64) -> Option<(Measure, u64)>
    ensures { (n : ℕ) → count ≡ min n u64.MAX → most < u64.MAX → result ≡ past_limit most measure n }
{
    if count > most {
        return Some((measure, count));
    }
    None
}
