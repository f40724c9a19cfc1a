ghost use Rattle.std.specs.Prelude.{◌≡◌, []};

use crate::tables::serve;
use brick_machine::Brick;
use fop_types::Seq;
use std::alloc::{AllocError, Global};
use std::test::Fail;

// Graph 1 connects; the data of gfid 2 is replaced by `hi`, marked, and posted with replica 2 accused; gfid 3 is made as
// the copy of a directory on set 1 of two, with a link `foo` to the set `v-replicate-0` in it.
const INPUTS: [&[u32]; 6] = [
    &[3, 1, 1],
    &[0, 0, 1, 1, 7, 0, 0, 0, 2, 0, 0, 2, 0, 2, 0x68690000],
    &[0, 0, 2, 1, 3, 0, 3, 1, 0, 0, 0, 2, 0],
    &[0, 0, 3, 1, 5, 0, 3, 1, 0, 0, 0, 2, 0, 4],
    &[
        0, 0, 4, 1, 4, 0, 0, 0, 9, 0, 0, 0, 3, 1, 2147483648, 4294967295,
    ],
    &[
        0, 0, 5, 1, 4, 0, 4, 0, 5, 0, 0, 0, 3, 3, 0x666f6f00, 0, 0, 0, 2, 2, 13, 0x762d7265,
        0x706c6963, 0x6174652d, 0x30000000, 0, 0,
    ],
];

const NAMES: [&[u8]; 3] = [b"v-client-0", b"v-client-1", b"v-client-2"];

const SHOWN: &[u8] =
    b"00000000000000000000000000000002 trusted.afr.v-client-2 000000010000000000000000
00000000000000000000000000000003 trusted.glusterfs.dht 000000010000000080000000ffffffff
00000000000000000000000000000003/foo 01000 trusted.glusterfs.dht.linkto v-replicate-0
";

fn names(alloc: Global) -> Result<Seq<Seq<u8>>, AllocError> {
    let mut names = Seq::new(alloc);
    for name in &NAMES {
        names.push(Seq::from_bytes(alloc, name)?)?;
    }
    Ok(names)
}

// What a brick without inputs shows, once its replicas have names and the inputs are served.
fn shown_by(alloc: Global, brick: &mut Brick) -> Result<Vec<u8>, AllocError>
    requires { brick.old.journal ≡ [] }
{
    brick.bind_names(names(alloc)?);
    for input in &INPUTS {
        serve(alloc, brick, input)?;
    }
    brick.dump(alloc)
}

// Whether it shows this.
fn shows(alloc: Global, brick: &mut Brick, wanted: &[u8]) -> Result<bool, AllocError>
    requires { brick.old.journal ≡ [] }
{
    let shown = shown_by(alloc, brick)?;
    Ok(shown.as_slice() == wanted)
}

fn is_shown(alloc: Global, wanted: &[u8]) -> Result<bool, AllocError> {
    let mut brick = Brick::new(alloc)?;
    shows(alloc, &mut brick, wanted)
}

#[test]
fn attributes_and_links_are_shown(rt: HostRuntime) -> Result<(), Fail> {
    assert!(rt; is_shown(rt.alloc(), SHOWN)?);
    Ok(())
}
