ghost use Rattle.std.specs.Prelude.{◌<◌};

use crate::algebra::{Algebra, pairs_of};
use npa_list::List;
use npa_sorts::MSG;
use npa_term::{Op, Term, TermPair, Var};
use std::alloc::Global;
use std::test::Fail;
use test_tables::first_wrong;

// Pairs of terms, and their unifiers.
const ROWS: &str = "a a => |
a b => 
a fa => 
X a => X=a;|
a X => X=a;|
X Y => Y=X;|
X X => |
X fX => 
X fY Y fX => 
X fY Y a => X=fa;Y=a;|
+XY +ab => X=a;Y=b;|X=b;Y=a;|
+Xa +bY => X=b;Y=a;|
+Xa +bb => 
+aa +XY => X=a;Y=a;|
+XX +ab => 
+X+ab ++baY => Y=X;|X=+ab;Y=+ab;|
pXX pYgY => 
pXY pab => X=a;Y=b;|
pab pba => 
pXX pab => 
pXa pbX => 
X a X b => 
X +ab X +ba => X=+ab;|
0 0 => |
0 1 => 
0 a => 
F 0 => F=0;|
X 0 => 
F a => 
F X => 
N n => N=n;|
N a => 
N M => N=?26:4;M=?26:4;|N=?26:5;M=?26:5;|
N L => 
N M M J => N=?26:4;M=?26:4;J=?26:4;|
N M M J N K => 
N X => X=N;|
X N => X=N;|
pNM pMN => N=?26:4;M=?26:4;|N=?26:5;M=?26:5;|
X fY Y fZ Z fX => 
X fY Y fZ Z a => X=ffa;Y=fa;Z=a;|
a a{12: +aa +aa} => |
a a{13: +aa +aa} => too many
B pAA C pBB D pCC E pDD G pEE H pGG I pHH O pII P pOO Q pPP R pQQ S pRR => too large 2047
S pRR R pQQ Q pPP P pOO O pII I pHH H pGG G pEE E pDD D pCC C pBB B pAA => too large 8191
X a{13: +aa +aa} => too many
S pRR R pQQ Q pPP P pOO O pII I pHH H pGG G pEE E pDD D pCC C pBB B pAA{13: +aa +aa} => too large 8191
{1999:g}X {1999:g}a => X=a;|
{1999:g}a {1999:g}b => 
p{20:+a}XY p{20:+a}aZ => X=a;Z=Y;|
pX{30:g}a pY{30:g}b => 
+pXYZ +apXY => Z=a;|";

#[test]
fn unifiers(rt: HostRuntime) -> Result<(), Fail> {
    let algebra = Algebra::new(rt.alloc())?;
    assert_eq!(rt; first_wrong(rt.alloc(), &algebra, ROWS)?, None);
    Ok(())
}

// The variable of a number from 1 on, against a pair of the one before it.
fn doubling(alloc: Global, num: u32) -> Result<TermPair, Fail>
    requires { 0 < num }
{
    let mut arguments = List::new(alloc);
    arguments.push(variable(num - 1))?;
    arguments.push(variable(num - 1))?;
    let op = Op {
        num: 0,
        result: MSG,
        com: false,
    };
    Ok((variable(num), Term::App(op, arguments)))
}

fn variable(num: u32) -> Term {
    Term::Var(Var { num, sort: MSG })
}

// The answer for 64 variables, each of which is bound to a pair of the one before it.
fn answer(alloc: Global, rising: bool) -> Result<Vec<u8>, Fail> {
    let mut pairs = List::new(alloc);
    for k in 0..64u32 {
        let num = if rising { k + 1 } else { 64 - k };
        pairs.push(doubling(alloc, num)?)?;
    }
    let mut out = Vec::new(alloc);
    Algebra::new(alloc)?.put_answer(alloc, &pairs, 65, &mut out)?;
    Ok(out)
}

// The last of 4,097 branches is too large, and the last of 4,098 is.
const LAST_ROWS: &str = "+XY +a{32:g}a B pXX C pBB D pCC E pDD G pEE{12: +aX +Xa} => too large 1087
+XY +a{32:g}a +XY +VW B pXV C pBB D pCC E pDD G pEE{11: +aX +Xa} => too many";

#[test]
fn last_branches(rt: HostRuntime) -> Result<(), Fail> {
    let algebra = Algebra::new(rt.alloc())?;
    assert_eq!(rt; first_wrong(rt.alloc(), &algebra, LAST_ROWS)?, None);
    Ok(())
}

// New variables may be numbered up to 2^32 - 1, and no further.
#[test]
fn numbers_of_new_variables(rt: HostRuntime) -> Result<(), Fail> {
    let algebra = Algebra::new(rt.alloc())?;
    let pairs = pairs_of(rt.alloc(), "N M")?;
    let mut last = Vec::new(rt.alloc());
    algebra.put_answer(rt.alloc(), &pairs, 2147483648, &mut last)?;
    let new = "N=?2147483648:4;M=?2147483648:4;|N=?2147483648:5;M=?2147483648:5;|";
    assert_eq!(rt; last.as_slice(), new.as_bytes());
    let mut past = Vec::new(rt.alloc());
    algebra.put_answer(rt.alloc(), &pairs, 2147483649, &mut past)?;
    assert_eq!(rt; past.as_slice(), b"unfit".as_slice());
    Ok(())
}

// Values of more symbols than a number can tell are searched and refused without being made.
#[test]
fn sizes_past_numbers(rt: HostRuntime) -> Result<(), Fail> {
    let falling = answer(rt.alloc(), false)?;
    assert_eq!(rt;
        falling.as_slice(),
        b"too large 18446744073709551615".as_slice()
    );
    let rising = answer(rt.alloc(), true)?;
    assert_eq!(rt; rising.as_slice(), b"too large 2047".as_slice());
    Ok(())
}
