//! Terms of a small module, and patterns in a text form of their own.

use npa_list::List;
use npa_model::{PStrand, Pattern};
use npa_module::read;
use npa_sig::{MSG, Protocol, Scope, Scoped, Sig, print_term, resolve};
use npa_term::{Term, Terms, Var};
use npa_text::{MOST_BYTES, raw_term, tokens};
use std::alloc::Global;
use std::test::Fail;

const MODULE: &str = "protocol C; sort Name;
op a : -> Name; op b : -> Name; op c : -> Name;
op f : Msg -> Msg; op p : Msg Msg -> Msg; op plus : Msg Msg -> Msg comm;
strand s vars X:Msg : + X;";

// The number of `Name`, behind the sorts that every module has.
const NAME: u16 = 2;

/// The protocol of the module.
pub(crate) fn protocol(alloc: Global) -> Result<Protocol, Fail> {
    let module = MODULE;
    if module.len() > MOST_BYTES {
        return Err(Fail::new("the module is too long"));
    }
    Ok(read(alloc, module.as_bytes())?.protocol)
}

/// The variables of the terms: X0 to X15 are of sort `Msg`, N16 to N19 of sort `Name`.
pub(crate) fn variables(alloc: Global) -> Result<Scope, Fail> {
    let mut scope = Scope::new(alloc);
    for num in 0..20u32 {
        let (letter, sort) = if num < 16 { ("X", MSG) } else { ("N", NAME) };
        let text = format!(in alloc; "{letter}{num}")?;
        let name = List::from_slice(alloc, text.as_bytes())?;
        let var = Var { num, sort };
        scope.push(alloc, Scoped { name, var })?;
    }
    Ok(scope)
}

fn term(alloc: Global, sig: &Sig, scope: &Scope, text: &str) -> Result<Term, Fail> {
    let bytes = text.as_bytes();
    if bytes.len() > MOST_BYTES {
        return Err(Fail::new("a term is too long"));
    }
    let found = tokens(alloc, bytes)?;
    let raw = raw_term(alloc, bytes, &found, &mut 0)?;
    Ok(resolve(alloc, sig, scope, bytes, &raw)?)
}

/// Appends the terms of texts with a blank between them.
pub(crate) fn push_terms(
    alloc: Global,
    sig: &Sig,
    scope: &Scope,
    texts: &str,
    terms: &mut Terms,
) -> Result<(), Fail> {
    let mut rest = texts;
    for _ in 0..texts.len() {
        let Some((text, more)) = rest.split_once(' ') else {
            terms.push(term(alloc, sig, scope, rest)?)?;
            return Ok(());
        };
        terms.push(term(alloc, sig, scope, text)?)?;
        rest = more;
    }
    Ok(())
}

// A strand of this number: its bar, its parameters and, behind ` | `, its messages.
fn strand(
    alloc: Global,
    sig: &Sig,
    scope: &Scope,
    number: u16,
    text: &str,
) -> Result<PStrand, Fail> {
    let Some((bar, terms)) = text.split_once(' ') else {
        return Err(Fail::new("a strand has no terms"));
    };
    let (params, messages) = terms.split_once(" | ").unwrap_or((terms, ""));
    let mut args = List::new(alloc);
    push_terms(alloc, sig, scope, params, &mut args)?;
    let mut msgs = List::new(alloc);
    push_terms(alloc, sig, scope, messages, &mut msgs)?;
    Ok(PStrand {
        strand: number,
        bar: bar.parse::<u16>()?,
        args,
        msgs,
    })
}

// Adds what one piece of a text says: `known` or `unknown` terms, or a strand behind its number.
// One word alone says nothing.
fn add_piece(
    alloc: Global,
    sig: &Sig,
    scope: &Scope,
    piece: &str,
    pattern: &mut Pattern,
) -> Result<(), Fail> {
    let Some((word, rest)) = piece.split_once(' ') else {
        return Ok(());
    };
    match word {
        "known" => push_terms(alloc, sig, scope, rest, &mut pattern.known),
        "unknown" => push_terms(alloc, sig, scope, rest, &mut pattern.unknown),
        _ => {
            let strand = strand(alloc, sig, scope, word.parse::<u16>()?, rest)?;
            pattern.strands.push(strand)?;
            Ok(())
        }
    }
}

/// The pattern of a text, whose pieces stand with `; ` between them.
pub(crate) fn pattern_of(
    alloc: Global,
    sig: &Sig,
    scope: &Scope,
    text: &str,
) -> Result<Pattern, Fail> {
    let mut pattern = Pattern {
        strands: List::new(alloc),
        known: List::new(alloc),
        unknown: List::new(alloc),
    };
    let mut rest = text;
    for _ in 0..text.len() {
        let Some((piece, more)) = rest.split_once("; ") else {
            add_piece(alloc, sig, scope, rest, &mut pattern)?;
            return Ok(pattern);
        };
        add_piece(alloc, sig, scope, piece, &mut pattern)?;
        rest = more;
    }
    Ok(pattern)
}

/// Appends a binding with a `;` behind it.
pub(crate) fn put_binding(sig: &Sig, v: Var, term: &Term, out: &mut Vec<u8>) -> Result<(), Fail> {
    print_term(sig, &Term::Var(v), out)?;
    out.push(b'=')?;
    print_term(sig, term, out)?;
    out.push(b';')?;
    Ok(())
}
