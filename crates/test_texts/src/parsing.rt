use npa_syntax::{Grammar, child_of};
use npa_text::{
    MOST_BYTES, MOST_NESTED, NoMemory, Raw, TextFault, module_grammar, parse, put_number, raw_of,
    raw_term, run_grammar, symbols, token_at, token_text, tokens,
};
use std::alloc::Global;
use std::test::Fail;

const HELLO: &str = "protocol HELLO;
op a : -> Msg; op f : Msg -> Msg;
strand one : + f(a);
intruder two vars X:Msg : - X, + f(X);
aim got : known f(f(a));
";

// A term as it stands in a text, without blanks.
fn put_term(bytes: &[u8], term: &Raw, out: &mut Vec<u8>) -> Result<(), NoMemory> {
    out.extend_from_slice(token_text(bytes, term.head))?;
    for arg in term.args.as_slice() {
        out.push(b'(')?;
        put_term(bytes, arg, out)?;
        out.push(b')')?;
    }
    Ok(())
}

// The terms that a text consists of, each with its arguments in brackets of their own and a `;`
// behind it, and how many tokens were passed. At a fault its place stands behind them.
fn terms_of(alloc: Global, text: &str) -> Result<(String, u32), TextFault> {
    let mut out = Vec::new(alloc);
    let mut at = 0;
    if text.len() <= MOST_BYTES {
        let found = tokens(alloc, text.as_bytes())?;
        for _ in 0..found.len() {
            match raw_term(alloc, text.as_bytes(), &found, &mut at) {
                Ok(term) => put_term(text.as_bytes(), &term, &mut out)?,
                Err(TextFault::Syntax { line, col }) => {
                    put_number(&mut out, line as u64)?;
                    out.push(b':')?;
                    put_number(&mut out, col as u64)?;
                }
                Err(TextFault::NoMemory) => return Err(TextFault::NoMemory),
            }
            out.push(b';')?;
            if at as usize >= found.len() {
                break;
            }
        }
    }
    match String::from_utf8(out) {
        Ok(text) => Ok((text, at)),
        Err(_) => Err(TextFault::NoMemory),
    }
}

#[test]
fn terms_with_their_arguments(rt: HostRuntime) -> Result<(), Fail> {
    for (text, terms, passed) in [
        ("f(a)", "f(a);", 4),
        ("f(a) g b(c,h(d))", "f(a);g;b(c)(h(d));", 14),
        ("f(", "1:3;1:3;", 0),
        ("f()", "1:3;1:3;1:3;", 0),
        ("f(a", "1:4;1:4;1:4;", 0),
        ("a at", "a;1:3;", 1),
    ] {
        let (found, at) = terms_of(rt.alloc(), text)?;
        assert_eq!(rt; found.as_str(), terms);
        assert_eq!(rt; at, passed);
    }
    Ok(())
}

// A term in so many brackets.
fn nested(alloc: Global, depth: u32) -> Result<String, NoMemory> {
    let mut text = String::new(alloc);
    for _ in 0..depth {
        text.push_str("f(")?;
    }
    text.push_str("a")?;
    for _ in 0..depth {
        text.push_str(")")?;
    }
    Ok(text)
}

// How many tokens the first term of a text has, or where its fault is.
fn first_term(alloc: Global, text: &str) -> Result<u32, TextFault> {
    let mut at = 0;
    if text.len() <= MOST_BYTES {
        let found = tokens(alloc, text.as_bytes())?;
        let _term = raw_term(alloc, text.as_bytes(), &found, &mut at)?;
    }
    Ok(at)
}

#[test]
fn brackets_nest_so_deep(rt: HostRuntime) -> Result<(), Fail> {
    let deepest = nested(rt.alloc(), MOST_NESTED)?;
    assert_eq!(rt; first_term(rt.alloc(), deepest.as_str()), Ok(3_601));
    let deeper = nested(rt.alloc(), MOST_NESTED + 1)?;
    let fault = TextFault::Syntax {
        line: 1,
        col: 2_402,
    };
    assert_eq!(rt; first_term(rt.alloc(), deeper.as_str()), Err(fault));
    Ok(())
}

// How many trees a text has and how many nodes stand below the first, or where its fault is.
fn trees(alloc: Global, grammar: &Grammar, text: &str) -> Result<(usize, usize), TextFault> {
    if text.len() > MOST_BYTES {
        return Ok((0, 0));
    }
    let found = parse(alloc, grammar, text.as_bytes())?;
    let below = match found.nodes.get(0) {
        Some(node) => node.children.len(),
        None => 0,
    };
    Ok((found.nodes.len(), below))
}

#[test]
fn modules_and_their_first_faults(rt: HostRuntime) -> Result<(), Fail> {
    let grammar = module_grammar();
    assert_eq!(rt; trees(rt.alloc(), &grammar, HELLO), Ok((1, 7)));
    for (text, line, col) in [
        ("", 1, 1),
        ("protocol P; op op; $", 1, 16),
        ("protocol P; $", 1, 13),
        ("protocol P\n$ op", 2, 1),
        ("protocol P;\nop a", 2, 5),
        ("protocol P; protocol", 1, 13),
    ] {
        let fault = TextFault::Syntax { line, col };
        assert_eq!(rt; trees(rt.alloc(), &grammar, text), Err(fault), "at {text}");
    }
    Ok(())
}

#[test]
fn values_of_a_run(rt: HostRuntime) -> Result<(), Fail> {
    let text = b"use one use two X=f(#0,a) do 0 1 1";
    let found = parse(rt.alloc(), &run_grammar(), text)?;
    assert_eq!(rt; found.nodes.len(), 3);
    let mut out = Vec::new(rt.alloc());
    for used in found.nodes.as_slice() {
        if let Some(value) = child_of(used.children.as_slice(), symbols::VALUE) {
            put_term(text, &raw_of(rt.alloc(), &found.tokens, value)?, &mut out)?;
            assert_eq!(rt; token_at(&found.tokens, value).start, 16);
        }
    }
    assert_eq!(rt; out.as_slice(), b"X(f(#0)(a))".as_slice());
    Ok(())
}
