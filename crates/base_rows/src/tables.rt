//! What no clause says: that calls with ample memory succeed, and how few blocks many changes of one table build.
use std::alloc::{AllocError, Global};
use std::test::Fail;
use world_table::Table;

// Records at every third key, put in place.
fn thirds(alloc: Global, count: u64) -> Result<Table<u64, 4>, AllocError> {
    let mut table = Table::empty(alloc);
    for n in 0..count {
        let key = n.wrapping_mul(3);
        if table.fits(key) {
            table.put(key, n)?;
        }
    }
    Ok(table)
}

// Of the lowest level 32 blocks, and one of each of the others.
#[test]
fn no_block_is_copied_twice(rt: HostRuntime) -> Result<(), Fail> {
    let table = thirds(rt.alloc(), 20_000)?;
    let mut fork = table.fork()?;
    for key in 0..1_000 {
        fork.put(key, 5)?;
    }
    assert_eq!(rt; fork.blocks(), 35);
    Ok(())
}

#[test]
fn an_empty_block_goes(rt: HostRuntime) -> Result<(), Fail> {
    let mut table = Table::<u64, 7>::empty(rt.alloc());
    table.put((1 << 35) - 1, 5)?;
    assert_eq!(rt; table.blocks(), 7);
    assert_eq!(rt; table.without((1 << 35) - 1)?.blocks(), 0);
    Ok(())
}
