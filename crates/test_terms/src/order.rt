use npa_list::List;
use npa_sorts::{FRESH, MSG, NoMemory, SortFail, Sorts};
use std::alloc::Global;

#[test]
fn orders_sorts(rt: HostRuntime) -> Result<(), SortFail> {
    let alloc = rt.alloc();
    let pairs = List::from_slice(alloc, &[(4, 2), (4, 3), (5, 2), (5, 3)])?;
    let sorts = Sorts::new(alloc, 4, &pairs)?;
    assert!(&rt; sorts.declared() == 4);
    assert!(&rt; sorts.pairs().as_slice() == [(4, 2), (4, 3), (5, 2), (5, 3)].as_slice());
    assert!(&rt; sorts.le(4, 2) && sorts.le(4, MSG) && sorts.le(FRESH, FRESH));
    assert!(&rt; !sorts.le(2, 4) && !sorts.le(2, 3) && !sorts.le(FRESH, MSG));
    assert!(&rt; sorts.maximal_lower(alloc, 2, 3)?.as_slice() == [4, 5].as_slice());
    assert!(&rt; sorts.maximal_lower(alloc, 2, FRESH)?.is_empty());
    sorts.laws();
    Ok(())
}

#[test]
fn refuses_cycles_and_fresh(rt: HostRuntime) -> Result<(), SortFail> {
    let alloc = rt.alloc();
    let cycle = List::from_slice(alloc, &[(2, 3), (3, 2)])?;
    assert!(&rt; matches!(Sorts::new(alloc, 2, &cycle), Err(SortFail::Cycle(2))));
    let itself = List::from_slice(alloc, &[(2, MSG), (3, 3)])?;
    assert!(&rt; matches!(Sorts::new(alloc, 2, &itself), Err(SortFail::Cycle(3))));
    let below = List::from_slice(alloc, &[(MSG, 2)])?;
    assert!(&rt; matches!(Sorts::new(alloc, 2, &below), Err(SortFail::Cycle(MSG))));
    let fresh = List::from_slice(alloc, &[(2, 2), (2, FRESH)])?;
    assert!(&rt; matches!(Sorts::new(alloc, 2, &fresh), Err(SortFail::Fresh(1))));
    Ok(())
}

#[test]
fn grows_an_order(rt: HostRuntime) -> Result<(), NoMemory> {
    let alloc = rt.alloc();
    let mut sorts = Sorts::built_in(alloc)?;
    assert!(&rt; sorts.declared() == 0 && !sorts.le(FRESH, MSG) && sorts.le(9, 9));
    sorts.declare(alloc)?;
    sorts.declare(alloc)?;
    assert!(&rt; sorts.declared() == 2 && sorts.le(3, MSG) && !sorts.le(4, MSG));
    sorts.put_below(alloc, 2, 3)?;
    assert!(&rt; sorts.le(2, 3) && !sorts.le(3, 2));
    sorts.declare(alloc)?;
    sorts.put_below(alloc, 3, 4)?;
    assert!(&rt; sorts.le(2, 4) && sorts.le(4, MSG) && !sorts.le(4, 2));
    assert!(&rt; sorts.pairs().as_slice() == [(2, 3), (3, 4)].as_slice());
    Ok(())
}

// The order of two declared sorts, of which the first is below the second.
fn two_sorts(alloc: Global) -> Result<Sorts, SortFail> {
    let pairs = List::from_slice(alloc, &[(2, 3)])?;
    Sorts::new(alloc, 2, &pairs)
}

#[test]
fn copies_an_order(rt: HostRuntime) -> Result<(), SortFail> {
    let sorts = two_sorts(rt.alloc())?;
    let copy = sorts.copy(rt.alloc())?;
    assert!(&rt; copy.declared() == 2 && copy.le(2, 3) && !copy.le(3, 2));
    assert!(&rt; copy.pairs().as_slice() == [(2, 3)].as_slice());
    Ok(())
}
