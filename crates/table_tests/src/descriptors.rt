use fd_table::{FdOpen, FdTable};
use fop_types::Gfid;
use std::alloc::{AllocError, Global};
use std::test::*;

const FILE: Gfid = Gfid { hi: 0, lo: 2 };

// A session, a descriptor that it opens, and whether this is the first time.
const OPENS: [(u8, u8, bool); 6] = [
    (2, 0, true),
    (2, 0, false),
    (0, 7, true),
    (1, 255, true),
    (0, 7, false),
    (1, 255, false),
];

const BY_SESSION: [(u8, u8); 3] = [(0, 7), (1, 255), (2, 0)];

// Each opens once, and they are listed by session and then by number.
#[test]
fn basic(rt: HostRuntime) -> Result<(), Fail> {
    let mut table = FdTable::new(rt.alloc());
    for (session, fd, first) in &OPENS {
        let answer = table.open(rt.alloc(), *session, *fd, FILE, 0);
        assert!(rt;
            matches!(
                (answer, *first),
                (FdOpen::Opened, true) | (FdOpen::InUse, false)
            )
        );
    }
    assert!(rt; listed(rt.alloc(), &table)?.as_slice() == BY_SESSION.as_slice());
    Ok(())
}

fn listed(alloc: Global, table: &FdTable) -> Result<Vec<(u8, u8)>, AllocError> {
    let mut keys = Vec::new(alloc);
    for (key, _fd) in table.iter() {
        keys.push((key.session, key.fd))?;
    }
    Ok(keys)
}
