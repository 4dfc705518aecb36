use npa_text::{
    Files, Kind, MOST_BYTES, Marks, MemEntries, MemEntry, MemFiles, MemSink, Name, NoMemory, Place,
    PutFail, ReadFail, RealFiles, RealOut, Sink, TextFault, Token, Word, end_place, lex, number_of,
    numeral_in, put_number, terminal_kind, terminals, token_text, tokens, word_kind,
};
use std::alloc::Global;
use std::test::Fail;
use std::{env, fs};

fn token(kind: Kind, start: u32, end: u32) -> Token {
    Token {
        kind,
        start,
        end,
        line: 1,
        col: start.saturating_add(1),
    }
}

#[test]
fn tokens_of_a_term(rt: HostRuntime) -> Result<(), Fail> {
    let found = tokens(rt.alloc(), b"f(a)")?;
    let wanted = [
        token(Kind::Word, 0, 1),
        token(Kind::Open, 1, 2),
        token(Kind::Word, 2, 3),
        token(Kind::Close, 3, 4),
    ];
    assert_eq!(rt; found.as_slice(), wanted.as_slice());
    Ok(())
}

// How many tokens a text has before its first fault, and the fault's place, 0:0 where there is none.
fn scanned(alloc: Global, text: &str) -> Result<(usize, u32, u32), NoMemory> {
    if text.len() > MOST_BYTES {
        return Ok((0, 0, 0));
    }
    let found = lex(alloc, text.as_bytes())?;
    let (line, col) = match found.fault {
        None => (0, 0),
        Some(Place { line, col }) => (line, col),
    };
    Ok((found.tokens.len(), line, col))
}

#[test]
fn longest_tokens_and_faults(rt: HostRuntime) -> Result<(), Fail> {
    for (text, wanted) in [
        ("", (0, 0, 0)),
        ("->", (1, 0, 0)),
        ("a->b - c", (5, 0, 0)),
        ("a - >", (2, 1, 5)),
        ("a1_", (1, 0, 0)),
        ("1a_", (2, 0, 0)),
        ("1_", (1, 1, 2)),
        ("0 01", (1, 1, 3)),
        ("4294967295", (1, 0, 0)),
        ("4294967296", (0, 1, 1)),
        ("#0 #4294967295", (2, 0, 0)),
        ("#", (0, 1, 1)),
        ("# 0", (0, 1, 1)),
        ("#01", (0, 1, 1)),
        ("?1 ?1000000", (2, 0, 0)),
        ("?0", (0, 1, 1)),
        ("?1000001", (0, 1, 1)),
        ("a // b $\r\n\tc$", (2, 2, 3)),
        ("//", (0, 0, 0)),
        ("/ a", (0, 1, 1)),
        ("protocol P; op op; $", (6, 1, 20)),
        ("(),:;=<+-", (9, 0, 0)),
    ] {
        assert_eq!(rt; scanned(rt.alloc(), text)?, wanted, "at {text}");
    }
    Ok(())
}

#[test]
fn faults_are_answers(rt: HostRuntime) -> Result<(), Fail> {
    let fault = TextFault::Syntax { line: 2, col: 2 };
    assert_eq!(rt;
        tokens(rt.alloc(), b"a\n $").map(|found| found.len()),
        Err(fault)
    );
    assert_eq!(rt; end_place(b""), Place { line: 1, col: 1 });
    assert_eq!(rt; end_place(b"a\n"), Place { line: 2, col: 1 });
    assert_eq!(rt; end_place(b"a\nbc"), Place { line: 2, col: 3 });
    Ok(())
}

#[test]
fn meanings_of_tokens(rt: HostRuntime) {
    let bytes = b"aims ?12 aim 0";
    let name = token(Kind::Word, 0, 4);
    let mark = token(Kind::VariableMark, 5, 8);
    let aim = token(Kind::Word, 9, 12);
    let zero = token(Kind::Number, 13, 14);
    assert_eq!(rt; token_text(bytes, aim), b"aim".as_slice());
    assert_eq!(rt; number_of(bytes, mark), 12);
    assert_eq!(rt; number_of(bytes, zero), 0);
    assert_eq!(rt; terminal_kind(bytes, name), terminals::NAME);
    assert_eq!(rt; terminal_kind(bytes, aim), terminals::AIM);
    assert_eq!(rt; terminal_kind(bytes, mark), terminals::VARIABLE_MARK);
    assert_eq!(rt; terminal_kind(bytes, zero), terminals::NUMBER);
    assert_eq!(rt; word_kind(b"unreachable"), terminals::UNREACHABLE);
}

#[test]
fn words_and_numbers(rt: HostRuntime) -> Result<(), Fail> {
    let word = Word::new(String::from_str(rt.alloc(), "check")?);
    assert_eq!(rt; word.as_str(), "check");
    assert_eq!(rt; word.as_bytes(), b"check".as_slice());
    let mut out = Vec::from_slice(rt.alloc(), b"n ")?;
    put_number(&mut out, 0)?;
    put_number(&mut out, u64::MAX)?;
    assert_eq!(rt; out.as_slice(), b"n 018446744073709551615".as_slice());
    Ok(())
}

#[test]
fn numerals(rt: HostRuntime) {
    assert_eq!(rt; numeral_in(b"0", 0, 9), Some(0));
    assert_eq!(rt; numeral_in(b"10", 0, 9), None);
    assert_eq!(rt; numeral_in(b"4294967295", 1, u32::MAX), Some(u32::MAX));
    for word in ["", "00", "4294967296", "1a", "-1"] {
        assert_eq!(rt; numeral_in(word.as_bytes(), 0, u32::MAX), None, "at {word}");
    }
}

// Reads a text through the trait.
fn read_from<F: Files>(alloc: Global, files: &mut F, name: &str) -> Result<Vec<u8>, ReadFail> {
    let mut text = Vec::new(alloc);
    files.read(name, &mut text)?;
    Ok(text)
}

#[test]
fn texts_in_memory(rt: HostRuntime) -> Result<(), Fail> {
    let mut entries = MemEntries::new(rt.alloc());
    assert!(rt; entries.is_empty());
    entries.push(MemEntry {
        name: Name::from_slice(rt.alloc(), b"a")?,
        bytes: Name::from_slice(rt.alloc(), b"text")?,
        faults: 0,
        longs: 0,
    })?;
    entries.push(MemEntry {
        name: Name::from_slice(rt.alloc(), b"b")?,
        bytes: Name::from_vec(vec![in rt.alloc(); 0u8; 1_048_577]?),
        faults: 0,
        longs: 0,
    })?;
    assert_eq!(rt; entries.len(), 2);
    let mut files = MemFiles {
        files: entries,
        failing: Marks::from_slice(rt.alloc(), &[2])?,
        calls: 0,
        strange: 0,
    };
    let first = read_from(rt.alloc(), &mut files, "a");
    assert!(rt; matches!(&first, Ok(text) if text.as_slice() == b"text".as_slice()));
    assert!(rt; matches!(read_from(rt.alloc(), &mut files, "a"), Err(ReadFail::Fault)));
    assert!(rt;
        matches!(
            read_from(rt.alloc(), &mut files, "b"),
            Err(ReadFail::TooLong)
        )
    );
    assert!(rt; matches!(read_from(rt.alloc(), &mut files, "c"), Err(ReadFail::Fault)));
    assert_eq!(rt; (files.calls, files.strange), (4, 1));
    assert!(rt; matches!(files.files.get(0), Some(entry) if entry.faults == 1));
    assert!(rt; matches!(files.files.find(b"b"), Some(entry) if entry.longs == 1));
    Ok(())
}

// Writes two pieces through the trait.
fn put_twice<K: Sink>(sink: &mut K) -> (Result<(), PutFail>, Result<(), PutFail>) {
    (sink.put(b"one "), sink.put(b"two\n"))
}

#[test]
fn writes_to_memory(rt: HostRuntime) -> Result<(), Fail> {
    let mut sink = MemSink {
        written: Name::new(rt.alloc()),
        failing: Marks::from_slice(rt.alloc(), &[1])?,
        calls: 0,
        faults: 0,
    };
    assert_eq!(rt; put_twice(&mut sink), (Err(PutFail::Fault), Ok(())));
    assert_eq!(rt; sink.written.as_slice(), b"two\n".as_slice());
    assert_eq!(rt; (sink.calls, sink.faults), (2, 1));
    Ok(())
}

#[test]
fn real_files(rt: HostRuntime) -> Result<(), Fail> {
    let path = env::temp_dir(&rt)?.join(rt.alloc(), "npa_text_real_files")?;
    let wanted = vec![in rt.alloc(); 7u8; 40_000]?;
    fs::write(&rt, path.as_path(), wanted.as_slice())?;
    let mut files = RealFiles::new(&rt);
    let found = read_from(rt.alloc(), &mut files, path.to_string_lossy())?;
    fs::remove_file(&rt, path.as_path())?;
    assert!(rt; found.as_slice() == wanted.as_slice());
    assert!(rt;
        matches!(
            read_from(rt.alloc(), &mut files, path.to_string_lossy()),
            Err(ReadFail::Fault)
        )
    );
    assert!(rt;
        matches!(
            read_from(rt.alloc(), &mut files, "/dev/zero"),
            Err(ReadFail::TooLong)
        )
    );
    assert_eq!(rt; (files.faults, files.longs), (1, 1));
    Ok(())
}

#[test]
fn real_output(rt: HostRuntime) {
    let mut out = RealOut::new(&rt);
    assert_eq!(rt; put_twice(&mut out), (Ok(()), Ok(())));
    assert_eq!(rt; out.faults, 0);
}
