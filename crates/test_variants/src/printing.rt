use crate::finding::{param_count, protocol, strand_variants};
use npa_rewrite::Theory;
use npa_sig::{Sig, print_term};
use npa_variants::Variant;
use std::alloc::Global;
use std::test::Fail;
use test_tables::{Answers, first_wrong};

// The values of the parameters in the variants of a module's only strand, in order: the identity,
// one for each maximal lower sort, a kept one that a later one drops, and applications that aren't
// tried where they equal a part of a value.
const ROWS: &str =
    "sort Name; op a : -> Name; op pk : Name Msg -> Msg; op sk : Name Msg -> Msg; eq vars K:Name M:Msg : pk(K,sk(K,M)) = M; eq vars K:Name M:Msg : sk(K,pk(K,M)) = M; intruder seal vars A:Name X:Msg : - X, + pk(A,X); => ?0:Name ?1:Msg / ?0:Name sk(?0:Name,?1:Msg)
sort A; op c : -> Msg; op n : Msg Msg -> A comm; op m : A A -> Msg comm; eq vars X:Msg : m(n(X,c),n(X,X)) = X; strand one vars P:A Q:Msg : - m(P,n(Q,Q)); => ?0:A ?1:Msg / n(?0:Msg,c) ?0:Msg
sort A; sort B; sort C; sort D; subsort C < A; subsort D < A; subsort C < B; subsort D < B; op c : -> C; op d : -> D; op e : Msg Msg -> Msg; op x : Msg Msg -> Msg; eq vars K:A M:Msg : x(K,e(K,M)) = M; strand one vars L:B X:Msg : - X, - L, + x(L,X); => ?0:B ?1:Msg / ?0:C e(?0:C,?1:Msg) / ?0:D e(?0:D,?1:Msg)
op a : -> Msg; op f : Msg Msg -> Msg; op g : Msg -> Msg; op h : Msg -> Msg; eq vars X:Msg : f(X,X) = X; eq vars X:Msg : g(h(X)) = X; strand one vars Y:Msg X:Msg : - X, - Y, + f(Y,g(X)); => ?0:Msg ?1:Msg / g(?0:Msg) ?0:Msg / ?0:Msg h(?1:Msg) / ?0:Msg h(?0:Msg)
op n : Fresh -> Msg; op p : Msg Msg -> Msg; op fst : Msg -> Msg; eq vars X:Msg Z:Msg : fst(p(X,Z)) = X; strand cut vars Y:Msg : - fst(Y), + Y; => ?0:Msg / p(?0:Msg,?1:Msg)";

// The values of the parameters, of which there are so many, in one variant.
fn put_values(sig: &Sig, variant: &Variant, count: usize, out: &mut Vec<u8>) -> Result<(), Fail> {
    let terms = variant.terms.as_slice();
    for i in 0..terms.len().min(count) {
        if i > 0 {
            out.push(b' ')?;
        }
        print_term(sig, &terms[i], out)?;
    }
    Ok(())
}

/// The values of a strand's parameters in its variants.
#[derive(Drop)]
struct Values {}

impl Answers for Values {
    fn answer(&self, alloc: Global, given: &str, out: &mut Vec<u8>) -> Result<(), Fail> {
        let protocol = protocol(alloc, given)?;
        let th = Theory::of(alloc, &protocol)?;
        let Some(strand) = protocol.strands.get(0) else {
            return Err(Fail::new("no strand"));
        };
        let Ok(list) = strand_variants(alloc, &th, strand)? else {
            return Err(Fail::new("no variants"));
        };
        for i in 0..list.len() {
            let Some(variant) = list.get(i) else {
                return Err(Fail::new("no variant"));
            };
            if i > 0 {
                out.extend_from_slice(b" / ")?;
            }
            put_values(&th.sig, variant, param_count(strand), out)?;
        }
        Ok(())
    }
}

#[test]
fn parameters_have_these_values(rt: HostRuntime) -> Result<(), Fail> {
    assert_eq!(rt; first_wrong(rt.alloc(), &Values {}, ROWS)?, None);
    Ok(())
}
