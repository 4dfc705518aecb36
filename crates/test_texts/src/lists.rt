use npa_list::List;
use npa_names::NameTable;
use std::alloc::{AllocError, Global};
use std::test::Fail;

#[test]
fn members_keep_their_order(rt: HostRuntime) -> Result<(), Fail> {
    let alloc = rt.alloc();
    let mut list: List<u16> = List::new(alloc);
    assert!(rt; list.is_empty());
    assert_eq!(rt; list.pop(), None);
    list.push(3)?;
    list.extend_from_slice(&[5, 7])?;
    assert!(rt; !list.is_empty());
    assert_eq!(rt; list.as_slice(), [3, 5, 7].as_slice());
    if list.len() == 3 {
        list.set(1, 4);
    }
    assert_eq!(rt; list.get(1), Some(&4));
    assert_eq!(rt; list.get(3), None);
    assert_eq!(rt; list.pop(), Some(7));
    assert_eq!(rt; list.len(), 2);
    Ok(())
}

#[test]
fn lists_of_slices_and_vectors(rt: HostRuntime) -> Result<(), Fail> {
    let alloc = rt.alloc();
    let list = List::from_slice(alloc, b"ab")?;
    let mut members = list.into_vec();
    members.push(b'c')?;
    assert_eq!(rt; List::from_vec(members).as_slice(), b"abc".as_slice());
    Ok(())
}

fn two_names(alloc: Global) -> Result<NameTable, AllocError> {
    let mut table = NameTable::new(alloc);
    table.insert(alloc, b"key")?;
    table.insert(alloc, b"nonce")?;
    Ok(table)
}

// Whether the table has the two names at their places, and no third.
fn has_two(table: &NameTable) -> bool {
    table.len() == 2
        && table.place(b"key") == Some(0)
        && table.place(b"nonce") == Some(1)
        && table.place(b"name").is_none()
}

// Whether a third name is added, and the first isn't added again.
fn grows(alloc: Global, table: &mut NameTable) -> bool {
    matches!(table.insert(alloc, b"key"), Ok(false))
        && matches!(table.insert(alloc, b"name"), Ok(true))
        && table.place(b"name") == Some(2)
}

// Whether a copy has the same names, and grows without its source.
fn copies(alloc: Global, table: &NameTable) -> Result<bool, AllocError> {
    let mut copy = table.copy()?;
    Ok(has_two(&copy) && grows(alloc, &mut copy) && has_two(table))
}

#[test]
fn names_keep_their_places(rt: HostRuntime) -> Result<(), Fail> {
    let table = two_names(rt.alloc())?;
    assert!(rt; has_two(&table) && matches!(copies(rt.alloc(), &table), Ok(true)));
    Ok(())
}
