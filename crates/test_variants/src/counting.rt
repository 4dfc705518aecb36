use crate::finding::{protocol, strand_variants};
use npa_rewrite::Theory;
use npa_sig::Strand;
use npa_text::put_number;
use npa_variants::{VarFail, Variants};
use std::alloc::Global;
use std::test::Fail;
use test_tables::{Answers, first_wrong};

// How many variants the strands of modules have. The first module is Needham and Schroeder's, with
// the intruder's abilities.
const ROWS: &str =
    "sort Name; sort Nonce; op a : -> Name; op b : -> Name; op i : -> Name; op n : Name Fresh -> Nonce; op p : Msg Msg -> Msg; op pk : Name Msg -> Msg; op sk : Name Msg -> Msg; eq vars K:Name M:Msg : pk(K,sk(K,M)) = M; eq vars K:Name M:Msg : sk(K,pk(K,M)) = M; intruder join vars X:Msg Y:Msg : - X, - Y, + p(X,Y); intruder left vars X:Msg Y:Msg : - p(X,Y), + X; intruder right vars X:Msg Y:Msg : - p(X,Y), + Y; intruder seal vars A:Name X:Msg : - X, + pk(A,X); intruder unseal vars X:Msg : - X, + sk(i,X); intruder name vars A:Name : + A; strand init fresh r vars A:Name B:Name NB:Nonce : + pk(B,p(n(A,r),A)), - pk(A,p(n(A,r),NB)), + pk(B,NB); strand resp fresh r vars A:Name B:Name NA:Nonce : - pk(B,p(NA,A)), + pk(A,p(NA,n(B,r))), - pk(B,n(B,r)); => join 1, left 1, right 1, seal 2, unseal 2, name 1, init 1, resp 1
sort Name; sort Key; op a : -> Name; op k : -> Key; op s : Name Fresh -> Msg; op e : Key Msg -> Msg; op d : Key Msg -> Msg; eq vars K:Key M:Msg : d(K,e(K,M)) = M; intruder dec vars K:Key X:Msg : - K, - X, + d(K,X); strand box fresh r vars A:Name : + e(k,s(A,r)); strand give : + k; => dec 2, box 1, give 1
op n : Fresh -> Msg; op p : Msg Msg -> Msg; op fst : Msg -> Msg; eq vars X:Msg Z:Msg : fst(p(X,Z)) = X; strand cut vars Y:Msg : - fst(Y), + Y; => cut 2
sort Key; op k : -> Key; op e : Key Msg -> Msg; op d : Key Msg -> Msg; eq vars K:Key M:Msg : d(K,e(K,M)) = M; strand all vars {5: K%:Key X%:Msg} : {4:- K%, - X%, + d(K%,X%), }- K4, - X4, + d(K4,X4); => all 32";

// Searches that stop, and one that is just within the limit: each of the pairs of a key and a text
// doubles the variants.
const LIMIT_ROWS: &str =
    "sort Key; op k : -> Key; op e : Key Msg -> Msg; op d : Key Msg -> Msg; eq vars K:Key M:Msg : d(K,e(K,M)) = M; strand all vars {6: K%:Key X%:Msg} : {5:- K%, - X%, + d(K%,X%), }- K5, - X5, + d(K5,X5); => all 64
sort Key; op k : -> Key; op e : Key Msg -> Msg; op d : Key Msg -> Msg; eq vars K:Key M:Msg : d(K,e(K,M)) = M; strand all vars {7: K%:Key X%:Msg} : {6:- K%, - X%, + d(K%,X%), }- K6, - X6, + d(K6,X6); => all too many, 65
op a : -> Msg; op p : Msg Msg -> Msg; op m : Msg Msg -> Msg comm; eq vars X:Msg : {13:p(m(a,a),}X{13:)} = X; strand all vars W:Msg{13: Y%:Msg Z%:Msg} : - {13:p(m(Y%,Z%),}W{13:)}; => all unifiers
op a : -> Msg; op f : Msg -> Msg; op d : Msg Msg -> Msg; op w : Msg Msg Msg Msg Msg Msg Msg Msg Msg Msg Msg Msg Msg Msg Msg Msg -> Msg; eq vars X:Msg : d({99:f(}a{99:)},X) = X; strand all vars Y:Msg Z:Msg : - d(Y,Z), - w({15:Y,}Y); => all symbols 1601";

// What is answered for a strand.
fn put_count(found: Result<Variants, VarFail>, out: &mut Vec<u8>) -> Result<(), Fail> {
    match found {
        Ok(list) => {
            put_number(out, list.len() as u64)?;
        }
        Err(VarFail::TooMany(list)) => {
            out.extend_from_slice(b"too many, ")?;
            put_number(out, list.len() as u64)?;
        }
        Err(VarFail::Unifiers) => out.extend_from_slice(b"unifiers")?,
        Err(VarFail::Symbols(count)) => {
            out.extend_from_slice(b"symbols ")?;
            put_number(out, count)?;
        }
        Err(VarFail::NoMemory) => return Err(Fail::new("out of memory")),
    }
    Ok(())
}

// The name of a strand, and what is answered for it.
fn put_strand(alloc: Global, th: &Theory, strand: &Strand, out: &mut Vec<u8>) -> Result<(), Fail> {
    out.extend_from_slice(strand.name.as_slice())?;
    out.push(b' ')?;
    put_count(strand_variants(alloc, th, strand)?, out)
}

/// The strands of a module with the numbers of their variants.
#[derive(Drop)]
struct Counts {}

impl Answers for Counts {
    fn answer(&self, alloc: Global, given: &str, out: &mut Vec<u8>) -> Result<(), Fail> {
        let protocol = protocol(alloc, given)?;
        let th = Theory::of(alloc, &protocol)?;
        let strands = protocol.strands.as_slice();
        for i in 0..strands.len() {
            if i > 0 {
                out.extend_from_slice(b", ")?;
            }
            put_strand(alloc, &th, &strands[i], out)?;
        }
        Ok(())
    }
}

#[test]
fn strands_have_so_many(rt: HostRuntime) -> Result<(), Fail> {
    assert_eq!(rt; first_wrong(rt.alloc(), &Counts {}, ROWS)?, None);
    Ok(())
}

#[test]
fn searches_stop(rt: HostRuntime) -> Result<(), Fail> {
    assert_eq!(rt; first_wrong(rt.alloc(), &Counts {}, LIMIT_ROWS)?, None);
    Ok(())
}
