use npa_list::List;
use npa_sorts::{FRESH, MSG};
use npa_term::{NoMemory, Op, Term, Terms, Var, numbering, renumber, replace, same};
use std::alloc::{AllocError, Global};
use std::test::Fail;

// A variable of a number and a sort.
fn var(num: u32, sort: u16) -> Term {
    Term::Var(Var { num, sort })
}

// Two terms under an operator, which commutes or not.
fn pair(alloc: Global, com: bool, t: Term, u: Term) -> Result<Term, AllocError> {
    let op = Op {
        num: 0,
        result: MSG,
        com,
    };
    let mut args = List::new(alloc);
    args.push(t)?;
    args.push(u)?;
    Ok(Term::App(op, args))
}

// `p(X, F)` and `c(Y, X)` with variables of three numbers, two of them with one number.
fn terms(alloc: Global, numbers: [u32; 3]) -> Result<Terms, AllocError> {
    let [x, f, y] = numbers;
    let mut ts = List::new(alloc);
    ts.push(pair(alloc, false, var(x, MSG), var(f, FRESH))?)?;
    ts.push(pair(alloc, true, var(y, MSG), var(x, MSG))?)?;
    Ok(ts)
}

// Whether lists have the same terms at their first two places.
fn are_same(ts: &Terms, us: &Terms) -> bool {
    match (ts.as_slice(), us.as_slice()) {
        ([s, t], [u, v]) => same(s, u) && same(t, v),
        _ => false,
    }
}

// The terms with the variables of all of them numbered anew, arguments as they stand.
fn replaced(alloc: Global, ts: &Terms) -> Result<Terms, NoMemory> {
    let numbers = numbering(alloc, ts.as_slice())?;
    let mut made = List::new(alloc);
    for t in ts.as_slice() {
        made.push(replace(alloc, &numbers, t)?)?;
    }
    Ok(made)
}

#[test]
fn numbers_by_first_occurrence(rt: HostRuntime) -> Result<(), Fail> {
    let alloc = rt.alloc();
    let given = terms(alloc, [7, 7, 3])?;
    assert!(&rt; are_same(&replaced(alloc, &given)?, &terms(alloc, [0, 1, 2])?));
    Ok(())
}

// The arguments of the commutative operator are put in order by the new numbers.
#[test]
fn renumbers_to_canonical_terms(rt: HostRuntime) -> Result<(), Fail> {
    let alloc = rt.alloc();
    let given = terms(alloc, [7, 7, 3])?;
    let mut wanted = List::new(alloc);
    wanted.push(pair(alloc, false, var(0, MSG), var(1, FRESH))?)?;
    wanted.push(pair(alloc, true, var(0, MSG), var(2, MSG))?)?;
    assert!(&rt; are_same(&renumber(alloc, given.as_slice())?, &wanted));
    Ok(())
}
