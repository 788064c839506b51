//! What no clause says of what is due: that calls with ample memory succeed.
use due_table::DueTable;
use std::alloc::{AllocError, Global};
use std::test::Fail;

// Twenty keys at each of so many moments.
fn twenty_each(alloc: Global, moments: u32) -> Result<DueTable, AllocError> {
    let mut due = DueTable::empty(alloc);
    for moment in 0..moments {
        for key in 0..20 {
            due = due.with(moment, key)?;
        }
    }
    Ok(due)
}

#[test]
fn pairs_come_in_order(rt: HostRuntime) -> Result<(), Fail> {
    let due = DueTable::empty(rt.alloc())
        .with(7, 1)?
        .with(5, 4294967295)?
        .with(5, 2)?;
    assert_eq!(rt; due.next_from(0, 0), Some((5, 2)));
    assert_eq!(rt; due.next_from(5, 3), Some((5, 4294967295)));
    assert_eq!(rt; due.without(5, 4294967295)?.next_from(5, 3), Some((7, 1)));
    assert_eq!(rt; due.next_from(7, 2), None);
    Ok(())
}

#[test]
fn all_go_again(rt: HostRuntime) -> Result<(), Fail> {
    let mut due = twenty_each(rt.alloc(), 50)?;
    let kept = due.share()?;
    for _ in 0..1_000 {
        if let Some((moment, key)) = due.next_from(0, 0) {
            due = due.without(moment, key)?;
        }
    }
    assert!(rt; due.is_empty());
    assert_eq!(rt; kept.next_from(49, 19), Some((49, 19)));
    Ok(())
}
