ghost use Rattle.std.specs.Prelude.{◌≡◌, min};
ghost use Rattle.npa_text.specs.Numerals.{decimal_value, is_plain, is_numeral, numeral_in};

use crate::bytes::digit_run;

/// The first number that is no 32-bit one.
const PAST: u64 = 4_294_967_296;

// The number that decimal digits stand for, or `PAST` where it is greater.
#[tactic(auto, using(crate::proofs::Values::capped_more))]
pub(crate) fn decimal_value(digits: &[u8]) -> u64
    ensures { result ≡ min (decimal_value digits.now) 4294967296 }
{
    let mut value: u64 = 0;
    for digit in digits {
        let more = value * 10 + digit.saturating_sub(b'0') as u64;
        value = more.min(PAST);
    }
    value
}

fn is_plain(digits: &[u8]) -> bool
    ensures { result ≡ is_plain digits.now }
{
    match digits {
        [] => false,
        [_only] => true,
        [first, _second, ..] => *first != b'0',
    }
}

/// Whether digits have no leading zero and stand for a number from `least` to `most`.
pub(crate) fn is_numeral(digits: &[u8], least: u32, most: u32) -> bool
    ensures { result ≡ is_numeral least most digits.now }
{
    if !is_plain(digits) {
        return false;
    }
    let value = decimal_value(digits);
    least as u64 <= value && value <= most as u64
}

/// The number that a word of decimal digits stands for, without a leading zero and from `least` to
/// `most`.
pub fn numeral_in(word: &[u8], least: u32, most: u32) -> Option<u32>
    ensures { result ≡ numeral_in least most word.now }
{
    if digit_run(word) != word.len() {
        return None;
    }
    if !is_numeral(word, least, most) {
        return None;
    }
    Some(decimal_value(word) as u32)
}
