use npa_text::put_number;
use std::alloc::Global;
use std::test::Fail;

/// What answers the rows of a table.
pub trait Answers {
    /// Appends the answer for what a row gives.
    fn answer(&self, alloc: Global, given: &str, out: &mut Vec<u8>) -> Result<(), Fail>;
}

// Appends a text in which `~` stands for a line feed.
fn put_plain(text: &str, out: &mut Vec<u8>) -> Result<(), Fail> {
    for byte in text.as_bytes() {
        out.push(if *byte == b'~' { b'\n' } else { *byte })?;
    }
    Ok(())
}

// Appends a piece with a number in place of `%`.
fn put_numbered(piece: &str, number: u64, out: &mut Vec<u8>) -> Result<(), Fail> {
    let mut rest = piece;
    for _ in 0..piece.len() {
        let Some((front, behind)) = rest.split_once('%') else {
            return put_plain(rest, out);
        };
        put_plain(front, out)?;
        put_number(out, number)?;
        rest = behind;
    }
    put_plain(rest, out)
}

// Appends a piece so many times, each time with its number, from 0.
fn put_times(piece: &str, count: u64, out: &mut Vec<u8>) -> Result<(), Fail> {
    for number in 0..count {
        put_numbered(piece, number, out)?;
    }
    Ok(())
}

/// Appends a text of a table. In it `~` stands for a line feed, and `{N:PIECE}` for N times the
/// piece, each time with its number, from 0, in place of `%`.
pub fn put_text(text: &str, out: &mut Vec<u8>) -> Result<(), Fail> {
    let mut rest = text;
    for _ in 0..text.len() {
        let Some((front, repeated)) = rest.split_once('{') else {
            return put_plain(rest, out);
        };
        put_plain(front, out)?;
        let Some((count, more)) = repeated.split_once(':') else {
            return Err(Fail::new("a number stands without its piece"));
        };
        let Some((piece, behind)) = more.split_once('}') else {
            return Err(Fail::new("a piece has no end"));
        };
        put_times(piece, count.parse::<u64>()?, out)?;
        rest = behind;
    }
    Ok(())
}

// Whether what is in front of ` => ` has the answer that stands behind it.
fn is_right<A: Answers>(alloc: Global, answers: &A, row: &str) -> Result<bool, Fail> {
    let Some((given, wanted)) = row.split_once(" => ") else {
        return Ok(false);
    };
    let mut text = Vec::new(alloc);
    put_text(given, &mut text)?;
    let mut told = Vec::new(alloc);
    put_text(wanted, &mut told)?;
    let mut out = Vec::new(alloc);
    let given = String::from_utf8(text)?;
    answers.answer(alloc, given.as_str(), &mut out)?;
    Ok(out.as_slice() == told.as_slice())
}

/// The first line of a table that has another answer than it says.
pub fn first_wrong<'a, A: Answers>(
    alloc: Global,
    answers: &A,
    table: &'a str,
) -> Result<Option<&'a str>, Fail> {
    let mut rest = table;
    for _ in 0..table.len() {
        let Some((row, more)) = rest.split_once('\n') else {
            return Ok(if is_right(alloc, answers, rest)? {
                None
            } else {
                Some(rest)
            });
        };
        if !is_right(alloc, answers, row)? {
            return Ok(Some(row));
        }
        rest = more;
    }
    Ok(None)
}

/// Appends a kind of refusal with its word, where it has one, a blank and its place.
pub fn put_place(
    kind: &[u8],
    name: &[u8],
    line: u32,
    col: u32,
    out: &mut Vec<u8>,
) -> Result<(), Fail> {
    out.extend_from_slice(kind)?;
    out.extend_from_slice(name)?;
    out.push(b' ')?;
    put_number(out, line as u64)?;
    out.push(b':')?;
    put_number(out, col as u64)?;
    Ok(())
}
