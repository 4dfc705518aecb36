ghost use Rattle.std.specs.Prelude.{◌≡◌, ◌≤◌, ◌<◌, ◌^◌, length};
ghost use Rattle.npa_text.specs.Places.{moved, end_place};

/// A place in a text: the number of its line and of its byte in that line, both from 1. A line
/// ends at each line feed.
#[derive(Clone, Copy, Debug, PartialEq, Eq)]
pub struct Place {
    pub line: u32,
    pub col: u32,
}

/// The place of the first byte of a text.
pub(crate) const FIRST_PLACE: Place = Place { line: 1, col: 1 };

/// The place behind a byte that stands at a place.
pub(crate) fn moved(byte: u8, place: Place) -> Place
    requires line { place.line < 4294967295 }
    requires col { place.col < 4294967295 }
    ensures { result ≡ moved byte place }
{
    let Place { line, col } = place;
    if byte == b'\n' {
        Place {
            line: line + 1,
            col: 1,
        }
    } else {
        Place { line, col: col + 1 }
    }
}

/// The place behind the last byte of a text, where a fault at its end stands: the first place for
/// the empty text, and the next line after a last line feed.
pub fn end_place(bytes: &[u8]) -> Place
    requires { length bytes.now ≤ 1048576 }
    ensures { result ≡ end_place bytes.now }
{
    let mut place = FIRST_PLACE;
    for byte in bytes {
        place = moved(*byte, place);
    }
    place
}
