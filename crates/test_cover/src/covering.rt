use crate::reading::{pattern_of, protocol, put_binding, variables};
use npa_sig::Sig;
use npa_subsume::{Cover, covers, covers_by};
use npa_text::put_number;
use std::alloc::Global;
use std::test::Fail;
use test_tables::{Answers, first_wrong};

// Answers whether the pattern in front of ` covers ` covers the one behind it, and if so what is
// bound and to which places the strands are sent.
#[derive(Drop)]
struct Covers {}

impl Answers for Covers {
    fn answer(&self, alloc: Global, given: &str, out: &mut Vec<u8>) -> Result<(), Fail> {
        let protocol = protocol(alloc)?;
        let sig = &protocol.sig;
        let scope = variables(alloc)?;
        let Some((t, s)) = given.split_once(" covers ") else {
            return Err(Fail::new("a row has one pattern"));
        };
        let t = pattern_of(alloc, sig, &scope, t)?;
        let s = pattern_of(alloc, sig, &scope, s)?;
        let found = covers_by(alloc, sig.sorts(), &t, &s)?;
        if covers(alloc, sig.sorts(), &t, &s)? != found.is_some() {
            return Err(Fail::new("covers and covers_by differ"));
        }
        put_cover(sig, found.as_ref(), out)
    }
}

fn put_cover(sig: &Sig, found: Option<&Cover>, out: &mut Vec<u8>) -> Result<(), Fail> {
    let Some(cover) = found else {
        out.extend_from_slice(b"no")?;
        return Ok(());
    };
    out.extend_from_slice(b"yes")?;
    for (v, term) in cover.subst.as_slice() {
        out.push(b' ')?;
        put_binding(sig, *v, term, out)?;
    }
    for place in cover.strands.as_slice() {
        out.push(b' ')?;
        put_number(out, *place as u64)?;
    }
    Ok(())
}

// Known facts go into known ones and unknown into unknown, several into one where they must, under
// one substitution that respects sorts.
const FACTS: &str = "known p(X0,b) covers known p(a,b) => yes ?0:Msg=a;
known p(a,b) covers known p(X0,b) => no
known p(X0,b) p(a,X1) covers known p(a,b) => yes ?0:Msg=a; ?1:Msg=b;
known plus(X0,b) covers known plus(b,f(a)) => yes ?0:Msg=f(a);
known plus(a,b) covers known plus(b,a) => yes
known plus(X0,X0) covers known plus(a,b) => no
known plus(X0,X0) covers known plus(f(a),f(a)) => yes ?0:Msg=f(a);
known X0 covers unknown a => no
unknown X0 covers known a => no
known X0; unknown X0 covers known a b; unknown b => yes ?0:Msg=b;
known X0; unknown X0 covers known a; unknown b => no
nothing covers unknown a => yes
known X0 covers known N16 => yes ?0:Msg=?16:Name;
known N16 covers known X0 => no
known N16 covers known f(a) a => yes ?16:Name=a;";

#[test]
fn sends_facts_into_facts(rt: HostRuntime) -> Result<(), Fail> {
    let wrong = first_wrong(rt.alloc(), &Covers {}, FACTS)?;
    assert!(&rt; wrong.is_none());
    Ok(())
}

// Strands go to different strands of the same number and bar, with equal terms.
const STRANDS: &str = "0 1 X0 | f(X0) covers 0 1 a | f(a) => yes ?0:Msg=a; 0
0 1 X0 | f(X0) covers 0 1 a | f(b) => no
0 1 X0 covers 0 2 X0 => no
0 1 X0 covers 1 1 X0 => no
0 1 X0; 0 1 X1 covers 0 1 a => no
0 1 X0; 0 1 a covers 0 1 a; 0 1 b => yes ?0:Msg=b; 1 0
0 1 X0; known X0 covers 0 1 a; 0 1 b; known b => yes ?0:Msg=b; 1
{8:0 1 X%; }nothing covers {8:0 1 f(X%); }nothing => yes{8: ?%:Msg=f(?%:Msg);}{8: %}
{8:0 1 X%; }nothing covers {7:0 1 f(X%); }nothing => no
{8:0 1 plus(X%,a); }nothing covers {7:0 1 plus(a,b); }0 1 b => no";

#[test]
fn sends_strands_to_different_strands(rt: HostRuntime) -> Result<(), Fail> {
    let wrong = first_wrong(rt.alloc(), &Covers {}, STRANDS)?;
    assert!(&rt; wrong.is_none());
    Ok(())
}
