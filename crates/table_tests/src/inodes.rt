use fop_types::{Gfid, Kind};
use inode_table::InodeTable;
use std::test::*;

const FILE: Gfid = Gfid { hi: 0, lo: 2 };

// Whether the file has this number of links, and the set of the first.
fn has_links(table: &InodeTable, count: u32) -> bool {
    match table.get(FILE) {
        Some(inode) => inode.set == 0 && inode.held == count,
        None => count == 0,
    }
}

// An entry stays until each link of it was released.
#[test]
fn basic(rt: HostRuntime) -> Result<(), Fail> {
    let mut table = InodeTable::new(rt.alloc());
    table.link(rt.alloc(), FILE, Kind::File, 0)?;
    assert!(rt; has_links(&table, 1));
    table.link(rt.alloc(), FILE, Kind::File, 1)?;
    assert!(rt; has_links(&table, 2));
    table.release(FILE);
    table.release(FILE);
    assert!(rt; has_links(&table, 0));
    Ok(())
}
