use npa_syntax::{
    Grammar, Node, ReadFault, Terminal, child_of, head_of, one, optional, production, read_all,
    read_front, repeated,
};
use std::alloc::{AllocError, Global};
use std::test::Fail;

const TERM: u8 = 0;

const ARGUMENTS: u8 = 1;

const NEXT_ARGUMENT: u8 = 2;

const CLOSING: u8 = 3;

const NAME: u8 = 0;

const OPEN: u8 = 1;

const COMMA: u8 = 2;

const CLOSE: u8 = 3;

// Terms in which at most `limit` brackets are open at once.
fn terms(limit: u32) -> Grammar {
    Grammar {
        productions: &[
            production!(TERM, NAME, [optional!(ARGUMENTS)]),
            production!(
                ARGUMENTS,
                OPEN,
                [one!(TERM), repeated!(NEXT_ARGUMENT), one!(CLOSING)]
            ),
            production!(NEXT_ARGUMENT, COMMA, [one!(TERM)]),
            production!(CLOSING, CLOSE, []),
        ],
        start: &[one!(TERM)],
        nesting: ARGUMENTS,
        limit,
    }
}

// The terminals of a text in which each byte is one.
fn terminals(alloc: Global, text: &[u8]) -> Result<Vec<Terminal>, AllocError> {
    let mut terminals = Vec::new(alloc);
    let mut at = 0u32;
    for byte in text {
        let kind = match byte {
            b'(' => OPEN,
            b',' => COMMA,
            b')' => CLOSE,
            _ => NAME,
        };
        terminals.push(Terminal { kind, at })?;
        at = at.saturating_add(1);
    }
    Ok(terminals)
}

// Writes each node's symbol, and its children in brackets.
fn write_trees(out: &mut Vec<u8>, nodes: &[Node]) -> Result<(), AllocError> {
    for node in nodes {
        out.push(b'0' + node.symbol % 10)?;
        if !node.children.is_empty() {
            out.push(b'[')?;
            write_trees(out, node.children.as_slice())?;
            out.push(b']')?;
        }
    }
    Ok(())
}

// What is read of a text: its trees as written above, or the place of the fault.
fn outcome(alloc: Global, grammar: &Grammar, text: &[u8]) -> Result<Vec<u8>, usize> {
    let Ok(terminals) = terminals(alloc, text) else {
        return Err(usize::MAX);
    };
    match read_all(alloc, grammar, terminals.as_slice()) {
        Ok(nodes) => {
            let mut out = Vec::new(alloc);
            match write_trees(&mut out, nodes.as_slice()) {
                Ok(()) => Ok(out),
                Err(_) => Err(usize::MAX),
            }
        }
        Err(ReadFault::Syntax { at }) => Err(at),
        Err(ReadFault::NoMemory) => Err(usize::MAX),
    }
}

#[test]
fn texts_have_their_trees(rt: HostRuntime) -> Result<(), Fail> {
    let cases = [
        ("f", "0"),
        ("f(a)", "0[1[03]]"),
        ("f(a,b,c)", "0[1[02[0]2[0]3]]"),
        ("f(g(h(a)))", "0[1[0[1[0[1[03]]3]]3]]"),
        ("f(g(a),g(b))", "0[1[0[1[03]]2[0[1[03]]]3]]"),
    ];
    for (text, trees) in cases {
        let read = outcome(rt.alloc(), &terms(3), text.as_bytes());
        let Ok(read) = read else {
            panic!(rt; "{text} is not read");
        };
        assert_eq!(rt; read.as_slice(), trees.as_bytes(), "at {text}");
    }
    Ok(())
}

#[test]
fn faults_have_their_places(rt: HostRuntime) {
    let cases = [
        ("", 0),
        ("(", 0),
        ("f(", 2),
        ("f()", 2),
        ("f(a", 3),
        ("f(a,", 4),
        ("f(a,)", 4),
        ("f(ab", 3),
        ("f(a)b", 4),
        ("f(a))", 4),
        ("f(g(h(k(a))))", 7),
        ("f(a,g(h(k(a))))", 9),
    ];
    for (text, place) in cases {
        match outcome(rt.alloc(), &terms(3), text.as_bytes()) {
            Ok(_) => panic!(rt; "{text} is read"),
            Err(at) => assert_eq!(rt; at, place, "at {text}"),
        }
    }
}

#[test]
fn fronts_are_the_longest(rt: HostRuntime) -> Result<(), Fail> {
    let text = terminals(rt.alloc(), b"f(a,b)c")?;
    let (nodes, end) = read_front(rt.alloc(), &terms(3), text.as_slice())?;
    assert_eq!(rt; end, 6);
    let term = child_of(nodes.as_slice(), TERM).ok_or("no term")?;
    assert!(rt; child_of(nodes.as_slice(), ARGUMENTS).is_none());
    let arguments = child_of(term.children.as_slice(), ARGUMENTS).ok_or("no arguments")?;
    assert_eq!(rt; arguments.head.at, 1);
    let second = child_of(arguments.children.as_slice(), NEXT_ARGUMENT).ok_or(
        "no second argument",
    )?;
    let head = head_of(second.children.as_slice(), TERM).ok_or("no name")?;
    assert_eq!(rt; head.at, 4);
    assert_eq!(rt; head.kind, NAME);
    Ok(())
}

#[test]
fn long_texts_are_read(rt: HostRuntime) -> Result<(), Fail> {
    let mut flat = Vec::new(rt.alloc());
    flat.extend_from_slice(b"f(a")?;
    for _ in 0..100_000 {
        flat.extend_from_slice(b",a")?;
    }
    flat.push(b')')?;
    let text = terminals(rt.alloc(), flat.as_slice())?;
    let nodes = read_all(rt.alloc(), &terms(1), text.as_slice())?;
    let term = child_of(nodes.as_slice(), TERM).ok_or("no term")?;
    let arguments = child_of(term.children.as_slice(), ARGUMENTS).ok_or("no arguments")?;
    assert_eq!(rt; arguments.children.len(), 100_002);
    Ok(())
}

#[test]
fn deep_texts_are_read(rt: HostRuntime) -> Result<(), Fail> {
    let mut deep = Vec::new(rt.alloc());
    for _ in 0..1_200 {
        deep.extend_from_slice(b"f(a,")?;
    }
    let text = terminals(rt.alloc(), deep.as_slice())?;
    let fault = read_all(rt.alloc(), &terms(1_199), text.as_slice());
    assert!(rt; matches!(fault, Err(ReadFault::Syntax { at: 4_797 })));
    deep.push(b'a')?;
    for _ in 0..1_200 {
        deep.push(b')')?;
    }
    let text = terminals(rt.alloc(), deep.as_slice())?;
    let nodes = read_all(rt.alloc(), &terms(1_200), text.as_slice())?;
    assert_eq!(rt; nodes.len(), 1);
    Ok(())
}
