//! Unification of terms that are given by their texts.
//!
//! A text is in prefix notation with one byte for each symbol: `a`, `b` and `n` are constants, `f`
//! and `g` take one argument, `p` takes two, and `+` takes two and is commutative. A digit is a
//! fresh name. A capital letter is a variable: `F` of sort `Fresh`, `N`, `M`, `J`, `K` and `L` of
//! the declared sorts 2 to 6, and every other one of sort `Msg`. Sorts 4 and 5 are both below 2
//! and 3, and `n` is of sort 4.

use npa_list::List;
use npa_sorts::{FRESH, MSG, SortPairs, Sorts};
use npa_term::{Op, Substs, Term, TermPairs, Terms, Var};
use npa_text::put_number;
use npa_unify::{UnifyFail, are_fit, unifiable, unify};
use std::alloc::Global;
use std::test::Fail;
use test_tables::Answers;

// New variables are numbered behind the 26 letters.
const NEXT: u32 = 26;

/// The order of the sorts of terms.
#[derive(Drop)]
pub(crate) struct Algebra {
    sorts: Sorts,
}

impl Algebra {
    /// The algebra of the texts.
    pub(crate) fn new(alloc: Global) -> Result<Algebra, Fail> {
        let pairs: SortPairs = List::from_slice(alloc, &[(4, 2), (4, 3), (5, 2), (5, 3)])?;
        let sorts = Sorts::new(alloc, 5, &pairs)?;
        Ok(Algebra { sorts })
    }
}

// The sort of the variable of a letter.
fn sort_of_letter(letter: u8) -> u16 {
    match letter {
        b'F' => FRESH,
        b'N' => 2,
        b'M' => 3,
        b'J' => 4,
        b'K' => 5,
        b'L' => 6,
        _ => MSG,
    }
}

// The operator of a byte, with the number of its arguments.
fn operator(byte: u8) -> Option<(Op, u64)> {
    let (result, com, arguments) = match byte {
        b'a' | b'b' => (MSG, false, 0),
        b'n' => (4, false, 0),
        b'f' | b'g' => (MSG, false, 1),
        b'p' => (MSG, false, 2),
        b'+' => (MSG, true, 2),
        _ => return None,
    };
    let num = byte as u16;
    Some((Op { num, result, com }, arguments))
}

// The term of a symbol with its arguments, which are the last ones of the stack, the first last.
fn symbol(alloc: Global, byte: u8, stack: &mut Terms) -> Result<Term, Fail> {
    if byte.is_ascii_digit() {
        return Ok(Term::Name((byte - b'0') as u32));
    }
    if byte.is_ascii_uppercase() {
        let num = (byte - b'A') as u32;
        let sort = sort_of_letter(byte);
        return Ok(Term::Var(Var { num, sort }));
    }
    let Some((op, count)) = operator(byte) else {
        return Err(Fail::new("no symbol"));
    };
    let mut arguments = List::new(alloc);
    for _ in 0..count {
        let Some(argument) = stack.pop() else {
            return Err(Fail::new("an argument is missing"));
        };
        arguments.push(argument)?;
    }
    Ok(Term::App(op, arguments))
}

// The term of a text.
fn term(alloc: Global, text: &str) -> Result<Term, Fail> {
    let mut stack = List::new(alloc);
    for byte in text.as_bytes().iter().rev() {
        let next = symbol(alloc, *byte, &mut stack)?;
        stack.push(next)?;
    }
    let Some(found) = stack.pop() else {
        return Err(Fail::new("no term"));
    };
    Ok(found)
}

// The pairs of texts with a blank behind each but the last.
pub(crate) fn pairs_of(alloc: Global, texts: &str) -> Result<TermPairs, Fail> {
    let mut pairs = List::new(alloc);
    let mut rest = texts;
    for _ in 0..texts.len() {
        let Some((first, more)) = rest.split_once(' ') else {
            return Err(Fail::new("a term without its partner"));
        };
        let Some((second, behind)) = more.split_once(' ') else {
            pairs.push((term(alloc, first)?, term(alloc, more)?))?;
            return Ok(pairs);
        };
        pairs.push((term(alloc, first)?, term(alloc, second)?))?;
        rest = behind;
    }
    Ok(pairs)
}

// The text of a term, which is given as it is written, where new variables are `?` with their
// numbers and sorts.
fn put(t: &Term, out: &mut Vec<u8>) -> Result<(), Fail> {
    match t {
        Term::Var(v) => put_var(*v, out)?,
        Term::Name(n) => put_number(out, *n as u64)?,
        Term::App(op, arguments) => {
            out.push((op.num % 256) as u8)?;
            for argument in arguments.as_slice() {
                put(argument, out)?;
            }
        }
    }
    Ok(())
}

fn put_var(v: Var, out: &mut Vec<u8>) -> Result<(), Fail> {
    if v.num < NEXT {
        out.push(b'A' + v.num as u8)?;
        return Ok(());
    }
    out.push(b'?')?;
    put_number(out, v.num as u64)?;
    out.push(b':')?;
    put_number(out, v.sort as u64)?;
    Ok(())
}

// The bindings of each unifier, with a `;` behind each, and a `|` behind each unifier.
fn put_unifiers(found: &Substs, out: &mut Vec<u8>) -> Result<(), Fail> {
    for s in found.as_slice() {
        for (v, value) in s.as_slice() {
            put_var(*v, out)?;
            out.push(b'=')?;
            put(value, out)?;
            out.push(b';')?;
        }
        out.push(b'|')?;
    }
    Ok(())
}

impl Algebra {
    /// The unifiers of pairs, the refusal, or that the pairs aren't fit.
    pub(crate) fn put_answer(
        &self,
        alloc: Global,
        pairs: &TermPairs,
        next: u32,
        out: &mut Vec<u8>,
    ) -> Result<(), Fail> {
        if !are_fit(alloc, &self.sorts, pairs, next)? {
            return Ok(out.extend_from_slice(b"unfit")?);
        }
        let some = unifiable(alloc, &self.sorts, pairs, next)?;
        match unify(alloc, &self.sorts, pairs, next) {
            Ok(found) => {
                if found.is_empty() == some {
                    return Err(Fail::new("unify and unifiable differ"));
                }
                put_unifiers(&found, out)
            }
            Err(UnifyFail::TooMany) => Ok(out.extend_from_slice(b"too many")?),
            Err(UnifyFail::TooLarge(count)) => {
                out.extend_from_slice(b"too large ")?;
                Ok(put_number(out, count)?)
            }
            Err(UnifyFail::NoMemory) => Err(Fail::new("out of memory")),
        }
    }
}

impl Answers for Algebra {
    /// The unifiers of the pairs of a row, the refusal, or that the pairs aren't fit.
    fn answer(&self, alloc: Global, given: &str, out: &mut Vec<u8>) -> Result<(), Fail> {
        let pairs = pairs_of(alloc, given)?;
        self.put_answer(alloc, &pairs, NEXT, out)
    }
}
