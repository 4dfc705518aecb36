use npa_list::List;
use npa_sig::{
    Equation, FRESH, MSG, OpDecl, OpDecls, Scope, Scoped, Sig, SigFail, all_name_sorts,
    copy_equations, names_sorts, resolve, sort_at,
};
use npa_sorts::Sorts;
use npa_term::{Term, Var, same};
use npa_text::{Kind, Raw, Token};
use std::alloc::{AllocError, Global};
use std::test::Fail;

const NAME: u16 = 2;

const NONCE: u16 = 3;

// The declaration of an operator.
fn operator(
    alloc: Global,
    name: &[u8],
    args: &[u16],
    sort: u16,
    com: bool,
) -> Result<OpDecl, AllocError> {
    Ok(OpDecl {
        name: List::from_slice(alloc, name)?,
        args: List::from_slice(alloc, args)?,
        result: sort,
        com,
    })
}

// The signature with one more operator.
fn with_op(alloc: Global, sig: Sig, decl: OpDecl) -> Result<Sig, SigFail> {
    if sig.ops().len() >= 65535 || !names_sorts(sig.sorts(), &decl) {
        return Ok(sig);
    }
    sig.declare(alloc, decl)
}

// The signature of `op a : -> Msg; op f : Msg -> Msg;`.
fn messages(alloc: Global) -> Result<Sig, SigFail> {
    let a = operator(alloc, b"a", &[], MSG, false)?;
    let f = operator(alloc, b"f", &[MSG], MSG, false)?;
    with_op(alloc, with_op(alloc, Sig::bare(alloc)?, a)?, f)
}

// The signature of `sort Name; sort Nonce;`.
fn sorts(alloc: Global) -> Result<Sig, SigFail> {
    let sig = Sig::bare(alloc)?.declare_sort(alloc, List::from_slice(alloc, b"Name")?)?;
    Ok(sig.declare_sort(alloc, List::from_slice(alloc, b"Nonce")?)?)
}

// The signature of `sort Name; sort Nonce; op a : -> Name; op n : Name Fresh -> Nonce;`.
fn nonces(alloc: Global) -> Result<Sig, SigFail> {
    let a = operator(alloc, b"a", &[], NAME, false)?;
    let n = operator(alloc, b"n", &[NAME, FRESH], NONCE, false)?;
    with_op(alloc, with_op(alloc, sorts(alloc)?, a)?, n)
}

// Whether the operators of `nonces` are found by name and by number.
fn finds_operators(sig: &Sig) -> bool {
    if sig.ops().len() != 2 {
        return false;
    }
    let n = sig.op(1);
    sig.number_of(b"n") == Some(1)
        && sig.number_of(b"f").is_none()
        && n.name.as_slice() == b"n".as_slice()
        && n.args.as_slice() == [NAME, FRESH].as_slice()
        && n.result == NONCE
}

#[test]
fn operators(rt: HostRuntime) -> Result<(), Fail> {
    let sig = nonces(rt.alloc())?;
    assert!(&rt; finds_operators(&sig));
    Ok(())
}

// The constant a, so many times.
fn constants(alloc: Global, count: usize) -> Result<OpDecls, AllocError> {
    let mut ops = List::new(alloc);
    for _ in 0..count {
        ops.push(operator(alloc, b"a", &[], MSG, false)?)?;
    }
    Ok(ops)
}

// The signature of these operators, without declared sorts.
fn signature_of(alloc: Global, ops: OpDecls) -> Result<Sig, SigFail> {
    let sorts = Sorts::built_in(alloc)?;
    if ops.len() >= 65535 || !all_name_sorts(&sorts, ops.as_slice()) {
        return Err(SigFail::NoMemory);
    }
    Sig::new(alloc, sorts, List::new(alloc), ops)
}

#[test]
fn new_signatures(rt: HostRuntime) -> Result<(), Fail> {
    let sig = signature_of(rt.alloc(), constants(rt.alloc(), 1)?)?;
    assert!(&rt; sig.number_of(b"a") == Some(0) && sig.sorts().declared() == 0);
    Ok(())
}

#[test]
fn names_stand_once(rt: HostRuntime) -> Result<(), Fail> {
    let twice = signature_of(rt.alloc(), constants(rt.alloc(), 2)?);
    assert!(&rt; matches!(twice, Err(SigFail::Twice(1))));
    Ok(())
}

// Whether an operator behind those of `messages` has this fault, `None` where it has none.
fn has_fault(alloc: Global, decl: OpDecl, wanted: Option<SigFail>) -> bool {
    match messages(alloc) {
        Ok(sig) => match with_op(alloc, sig, decl) {
            Ok(_) => wanted.is_none(),
            Err(fault) => wanted == Some(fault),
        },
        Err(_) => false,
    }
}

// Whether a commutative operator of these sorts has this fault.
fn is_commutative(alloc: Global, args: &[u16], sort: u16, wanted: Option<SigFail>) -> bool {
    match operator(alloc, b"g", args, sort, true) {
        Ok(decl) => has_fault(alloc, decl, wanted),
        Err(_) => false,
    }
}

#[test]
fn refused_operators(rt: HostRuntime) -> Result<(), Fail> {
    let alloc = rt.alloc();
    let comm = Some(SigFail::Comm(2));
    assert!(&rt; is_commutative(alloc, &[MSG, FRESH], FRESH, Some(SigFail::Fresh(2))));
    assert!(&rt; is_commutative(alloc, &[MSG, FRESH], MSG, comm));
    assert!(&rt; is_commutative(alloc, &[MSG], MSG, comm));
    assert!(&rt; is_commutative(alloc, &[FRESH, FRESH], MSG, None));
    let again = operator(alloc, b"f", &[MSG, FRESH], MSG, false)?;
    assert!(&rt; has_fault(alloc, again, Some(SigFail::Twice(2))));
    Ok(())
}

// An operator's sorts are those of its signature.
#[test]
fn sorts_of_operators(rt: HostRuntime) -> Result<(), Fail> {
    let sig = messages(rt.alloc())?;
    sig.laws();
    let named = operator(rt.alloc(), b"g", &[FRESH], MSG, false)?;
    let unnamed = operator(rt.alloc(), b"g", &[], 9, false)?;
    assert!(&rt; names_sorts(sig.sorts(), &named) && !names_sorts(sig.sorts(), &unnamed));
    Ok(())
}

// Whether sort 3 is below sort 2, and both have their names.
fn orders_sorts(sig: &Sig) -> bool {
    sig.is_below(NONCE, NAME)
        && sig.is_below(NONCE, MSG)
        && !sig.is_below(NAME, NONCE)
        && !sig.is_below(FRESH, MSG)
        && sig.is_sort(NONCE)
        && !sig.is_sort(4)
}

fn has_sort_names(sig: &Sig) -> bool {
    sig.sorts().declared() == 2
        && sig.sort_name(FRESH) == b"Fresh".as_slice()
        && sig.sort_name(NAME) == b"Name".as_slice()
        && sig.sort_name(NONCE) == b"Nonce".as_slice()
        && sig.sort_name(4) == b"".as_slice()
}

// The sorts of `sorts`, of which the second is below the first.
fn ordered(alloc: Global) -> Result<Sig, SigFail> {
    let sig = sorts(alloc)?;
    if sig.sorts().declared() != 2 || sig.is_below(NAME, NONCE) {
        return Ok(sig);
    }
    Ok(sig.put_below(alloc, NONCE, NAME)?)
}

#[test]
fn declared_sorts(rt: HostRuntime) -> Result<(), Fail> {
    let sig = ordered(rt.alloc())?;
    assert!(&rt; orders_sorts(&sig) && has_sort_names(&sig));
    Ok(())
}

#[test]
fn copies_signatures(rt: HostRuntime) -> Result<(), Fail> {
    let sig = nonces(rt.alloc())?;
    assert!(&rt; finds_operators(&sig.copy(rt.alloc())?));
    Ok(())
}

#[test]
fn copies_equations(rt: HostRuntime) -> Result<(), Fail> {
    let x = Term::Var(Var { num: 0, sort: MSG });
    let mut equations = List::new(rt.alloc());
    equations.push(Equation {
        left: Term::Name(0),
        right: x,
    })?;
    let copies = copy_equations(rt.alloc(), equations.as_slice())?;
    assert!(&rt; copies.len() == 1);
    if let Some(copy) = copies.get(0) {
        assert!(&rt; same(&copy.left, &Term::Name(0)));
        assert!(&rt; !same(&copy.right, &copy.left));
    }
    Ok(())
}

// The variables of these names, with their numbers and sorts.
fn scope_of(alloc: Global, rows: &[(&str, u32, u16)]) -> Result<Scope, AllocError> {
    let mut scope = Scope::new(alloc);
    for k in 0..rows.len() {
        let (name, num, sort) = rows[k];
        put_in(alloc, &mut scope, name.as_bytes(), num, sort)?;
    }
    Ok(scope)
}

fn put_in(
    alloc: Global,
    scope: &mut Scope,
    name: &[u8],
    num: u32,
    sort: u16,
) -> Result<(), AllocError> {
    let name = List::from_slice(alloc, name)?;
    let var = Var { num, sort };
    scope.push(alloc, Scoped { name, var })
}

// The variables X, F and f, an operator's name. X stands there twice, and its first place counts.
fn variables(alloc: Global) -> Result<Scope, AllocError> {
    let rows = [("X", 0, MSG), ("F", 1, FRESH), ("X", 2, FRESH), ("f", 3, 2)];
    scope_of(alloc, &rows)
}

// Whether the scope has these four names and finds the variables of three.
fn finds_variables(scope: &Scope) -> bool {
    scope.len() == 4
        && scope.as_slice().len() == 4
        && matches!(scope.get(2), Some(scoped) if scoped.var.num == 2)
        && scope.get(4).is_none()
        && scope.variable(b"X") == Some(Var { num: 0, sort: MSG })
        && scope.variable(b"f") == Some(Var { num: 3, sort: 2 })
        && scope.variable(b"Y").is_none()
}

#[test]
fn variables_of_a_scope(rt: HostRuntime) -> Result<(), Fail> {
    let scope = variables(rt.alloc())?;
    assert!(&rt; finds_variables(&scope));
    Ok(())
}

// The fresh name of the text `#12`.
fn fresh_name(alloc: Global) -> Raw {
    let head = Token {
        kind: Kind::FreshName,
        start: 0,
        end: 3,
        line: 1,
        col: 1,
    };
    Raw {
        head,
        args: List::new(alloc),
    }
}

// Whether the fresh name stands for itself and has the sort of fresh values.
fn reads_fresh_names(alloc: Global, sig: &Sig, scope: &Scope) -> bool {
    let raw = fresh_name(alloc);
    sort_at(sig, scope, b"#12", &raw) == Some(FRESH)
        && matches!(resolve(alloc, sig, scope, b"#12", &raw), Ok(Term::Name(12)))
}

#[test]
fn fresh_names(rt: HostRuntime) -> Result<(), Fail> {
    let sig = messages(rt.alloc())?;
    assert!(&rt; reads_fresh_names(rt.alloc(), &sig, &Scope::new(rt.alloc())));
    Ok(())
}

// A variable stands before an operator of its name.
#[test]
fn variables_before_operators(rt: HostRuntime) -> Result<(), Fail> {
    let sig = messages(rt.alloc())?;
    let scope = variables(rt.alloc())?;
    let raw = word(rt.alloc());
    let term = resolve(rt.alloc(), &sig, &scope, b"f", &raw)?;
    assert!(rt; matches!(term, Term::Var(Var { num: 3, sort: 2 })));
    Ok(())
}

// The term of the text `f`.
fn word(alloc: Global) -> Raw {
    let head = Token {
        kind: Kind::Word,
        start: 0,
        end: 1,
        line: 1,
        col: 1,
    };
    Raw {
        head,
        args: List::new(alloc),
    }
}
