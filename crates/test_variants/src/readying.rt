//! Protocols of module texts that are made ready, or why they aren't.

use npa_conv::convergent;
use npa_module::read;
use npa_rewrite::Theory;
use npa_text::{MOST_BYTES, put_number};
use npa_variants::{Ready, ReadyFail};
use std::alloc::Global;
use std::test::Fail;
use test_tables::{Answers, first_wrong};

// Protocols that are ready, with the numbers of their strands' variants, and others: a variable that
// originates in the first variant alone, or in no received message, as one that is only sent before;
// a sort that carries names and one that carries none; too many variants; all searches go before the
// first look at what originates.
const ROWS: &str =
    "sort Name; sort Nonce; op a : -> Name; op b : -> Name; op i : -> Name; op n : Name Fresh -> Nonce; op p : Msg Msg -> Msg; op pk : Name Msg -> Msg; op sk : Name Msg -> Msg; eq vars K:Name M:Msg : pk(K,sk(K,M)) = M; eq vars K:Name M:Msg : sk(K,pk(K,M)) = M; intruder join vars X:Msg Y:Msg : - X, - Y, + p(X,Y); intruder left vars X:Msg Y:Msg : - p(X,Y), + X; intruder right vars X:Msg Y:Msg : - p(X,Y), + Y; intruder seal vars A:Name X:Msg : - X, + pk(A,X); intruder unseal vars X:Msg : - X, + sk(i,X); intruder name vars A:Name : + A; strand init fresh r vars A:Name B:Name NB:Nonce : + pk(B,p(n(A,r),A)), - pk(A,p(n(A,r),NB)), + pk(B,NB); strand resp fresh r vars A:Name B:Name NA:Nonce : - pk(B,p(NA,A)), + pk(A,p(NA,n(B,r))), - pk(B,n(B,r)); => ready 1 1 1 2 2 1 1 1
sort Name; sort Key; op a : -> Name; op k : -> Key; op s : Name Fresh -> Msg; op e : Key Msg -> Msg; op d : Key Msg -> Msg; eq vars K:Key M:Msg : d(K,e(K,M)) = M; intruder dec vars K:Key X:Msg : - K, - X, + d(K,X); strand box fresh r vars A:Name : + e(k,s(A,r)); strand give : + k; => ready 2 1 1
op n : Fresh -> Msg; op p : Msg Msg -> Msg; op fst : Msg -> Msg; eq vars X:Msg Z:Msg : fst(p(X,Z)) = X; strand cut vars Y:Msg : - fst(Y), + Y; => origin 0 1 1
op n : Fresh -> Msg; op g : Msg Msg -> Msg; op m : Msg Msg -> Msg comm; op u : Msg Msg -> Msg; eq vars A:Msg B:Msg C:Msg D:Msg : u(m(g(A,C),g(B,D)),B) = A; strand one vars P:Msg Q:Msg : - u(Q,P), - P, + Q; => origin 0 1 1
sort Name; op a : -> Name; op n : Fresh -> Msg; op s : Name -> Msg; strand give vars X:Name : + s(X); => ready 1
sort Nonce; op n : Fresh -> Nonce; op s : Nonce -> Msg; strand give vars X:Nonce : + s(X); => origin 0 0 0
op n : Fresh -> Msg; op s : Msg -> Msg; strand one vars X:Msg : - X, + s(X); strand two vars X:Msg : + s(X), - X; => origin 1 0 0
sort Key; op k : -> Key; op e : Key Msg -> Msg; op d : Key Msg -> Msg; eq vars K:Key M:Msg : d(K,e(K,M)) = M; strand all vars {6: K%:Key X%:Msg} : {5:- K%, - X%, + d(K%,X%), }- K5, - X5, + d(K5,X5); => ready 64
sort A; op c : -> Msg; op n : Msg Msg -> A comm; op m : A A -> Msg comm; eq vars X:Msg : m(n(X,c),n(X,X)) = X; strand one vars P:A Q:Msg : - m(P,n(Q,Q)); => ready 2
sort A; sort B; sort C; sort D; subsort C < A; subsort D < A; subsort C < B; subsort D < B; op c : -> C; op d : -> D; op e : Msg Msg -> Msg; op x : Msg Msg -> Msg; eq vars K:A M:Msg : x(K,e(K,M)) = M; strand one vars L:B X:Msg : - X, - L, + x(L,X); => ready 3
op a : -> Msg; op f : Msg Msg -> Msg; op g : Msg -> Msg; op h : Msg -> Msg; eq vars X:Msg : f(X,X) = X; eq vars X:Msg : g(h(X)) = X; strand one vars Y:Msg X:Msg : - X, - Y, + f(Y,g(X)); => ready 4
sort Key; op k : -> Key; op n : Fresh -> Msg; op e : Key Msg -> Msg; op d : Key Msg -> Msg; eq vars K:Key M:Msg : d(K,e(K,M)) = M; strand first vars X:Msg : + X; strand all vars {7: K%:Key X%:Msg} : {6:- K%, - X%, + d(K%,X%), }- K6, - X6, + d(K6,X6); => variants 1 65";

// Why a protocol isn't ready: the strand, and the number of variants, the symbols, or the variant and
// the variable's number.
fn put_fail(fail: &ReadyFail, out: &mut Vec<u8>) -> Result<(), Fail> {
    match fail {
        ReadyFail::Variants { strand, list } => {
            put_numbers(b"variants", *strand as u64, list.len() as u64, out)
        }
        ReadyFail::Unifiers { strand } => put_numbers(b"unifiers", *strand as u64, 4_097, out),
        ReadyFail::Symbols { strand, value } => put_numbers(
            b"symbols",
            *strand as u64,
            *value,
            out,
        ),
        ReadyFail::Origin {
            strand,
            variant,
            var,
        } => {
            put_numbers(b"origin", *strand as u64, *variant as u64, out)?;
            out.push(b' ')?;
            put_number(out, var.num as u64)?;
            Ok(())
        }
        ReadyFail::NoMemory => Err(Fail::new("out of memory")),
    }
}

fn put_numbers(word: &[u8], first: u64, second: u64, out: &mut Vec<u8>) -> Result<(), Fail> {
    out.extend_from_slice(word)?;
    out.push(b' ')?;
    put_number(out, first)?;
    out.push(b' ')?;
    put_number(out, second)?;
    Ok(())
}

// The numbers of the variants of the strands.
fn put_counts(ready: &Ready, out: &mut Vec<u8>) -> Result<(), Fail> {
    out.extend_from_slice(b"ready")?;
    for i in 0..ready.protocol().strands.len() {
        let Ok(strand) = u16::try_from(i) else {
            return Err(Fail::new("too many strands"));
        };
        out.push(b' ')?;
        put_number(out, ready.strand_variants(strand).len() as u64)?;
    }
    Ok(())
}

// The protocol of a module of such items, made ready. The outer refusal is the text's or the theory's.
fn made(alloc: Global, items: &str) -> Result<Result<Ready, ReadyFail>, Fail> {
    let mut text = Vec::from_slice(alloc, b"protocol P; ")?;
    text.extend_from_slice(items.as_bytes())?;
    if text.len() > MOST_BYTES {
        return Err(Fail::new("a long text"));
    }
    let source = read(alloc, text.as_slice())?;
    let th = Theory::of(alloc, &source.protocol)?;
    match convergent(alloc, &th) {
        Ok(()) => Ok(Ready::make(alloc, source.protocol)),
        Err(_) => Err(Fail::new("a theory that isn't convergent")),
    }
}

/// Whether the protocols of modules are ready.
#[derive(Drop)]
struct Readiness {}

impl Answers for Readiness {
    fn answer(&self, alloc: Global, given: &str, out: &mut Vec<u8>) -> Result<(), Fail> {
        match made(alloc, given)? {
            Ok(ready) => put_counts(&ready, out),
            Err(fail) => put_fail(&fail, out),
        }
    }
}

#[test]
fn protocols_are_ready_or_not(rt: HostRuntime) -> Result<(), Fail> {
    assert_eq!(rt; first_wrong(rt.alloc(), &Readiness {}, ROWS)?, None);
    Ok(())
}
