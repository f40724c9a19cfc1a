use crate::play::first_wrong;

const ROWS: [&str; 37] = [
    // A name is dropped where the file is, and then the link that the look saw.
    "1 unlink f0 long: ENOTDIR -",
    "1 unlink / long: ENAMETOOLONG -",
    "1 unlink / fo: 0 names removed; ENOENT 7",
    "1 unlink / fo: 0 names none; ENOENT 7",
    "1 unlink / fo: 0 names fo:dir; EISDIR 7",
    "1 unlink / fo: 0 names[1e,dir] fo:file; 0 drop.1[1e,1/fo] 3; ok 3",
    "2 unlink / foo: 1 names none; 0 names removed; ENOENT 7",
    "2 unlink / foo: 1 names none; 0 names foo:dir; EISDIR 7",
    "2 unlink / foo: 1 names foo:file; 1 drop.1 3; ok 3",
    "2 unlink / foo: 1 names foo:s0; 0 names foo:file; 0 drop.1[1e,1/foo] 3; 1 link-[1e,1/foo] ok; ok 3",
    "2 unlink / foo: 1 names foo:s1; 0 names foo:file; 0 drop.1 3; 1 link- ok; ok 3",
    "2 unlink / foo: 1 names none; 0 names foo:file; 0 drop.1 3; ok 3",
    "2 unlink / foo: 1 names foo:s0; 0 names none; ENOENT 7",
    "2 unlink d fo: 0 meta low; 1 meta high; 0 names fo:file; 0 drop.1[8e,8/fo] 3; ok 3",
    "3 unlink / fo: 1 names none; 0 names none; 2 names fo:file; 2 drop.1 3; ok 3",
    "3 unlink / old: 2 names old:s1; 1 names old:file; 1 drop.1 3; 2 link- ok; ok 3",
    "3 unlink / old: 2 names old:s1; 1 names none; 0 names old:file; 0 drop.1 3; 2 link- ok; ok 3",
    "3 unlink / old: 2 names old:s1; 1 names none; 0 names none; ENOENT 7",
    // A directory is read on every set under the extended hold; links are no names of it.
    "1 rmdir f0 long: ENOTDIR -",
    "1 rmdir / long: ENAMETOOLONG -",
    "1 rmdir / fo: 0 names removed; ENOENT 7",
    "1 rmdir / fo: 0 names none; ENOENT 7",
    "1 rmdir / fo: 0 names fo:file; ENOTDIR 7",
    "1 rmdir / fo: 0 names fo:dir; hold 2 ok; 0 names[2e,dir] a:file; ENOTEMPTY 7",
    "1 rmdir / fo: 0 names[1e,dir] fo:dir; hold 2 ok; 0 names[2e,dir] none; 0 dropdir.1[1e+2e,1/fo,2] 3; ok 3",
    "1 rmdir e fo: 0 names[9e,dir] fo:dir; hold 2 ok; 0 names[2e,dir] none; 0 dropdir.1[2e+9e,9/fo,2] 3; ok 3",
    "2 rmdir / fo: 0 names fo:dir; hold 2 ok; 0 names none; 1 names a:dir; ENOTEMPTY 8",
    "2 rmdir / fo: 0 names fo:dir; hold 2 ok; 0 names a:s1+b:file; ENOTEMPTY 7",
    "2 rmdir / fo: 0 names fo:dir; hold 2 ok; 0 names a:s1; 1 names none; 0 dropdir.1 3; ok 3",
    "2 rmdir / foo: 1 names none; 0 names foo:dir; hold 2 ok; 0 names none; 1 names none; 0 dropdir.1 3; ok 3",
    "2 rmdir / foo: 1 names foo:s0; 0 names foo:file; ENOTDIR 7",
    "2 rmdir / foo: 1 names foo:s0; 0 names foo:dir; hold 2 ok; 0 names none; 1 names none; 0 dropdir.1 3; ok 3",
    "2 rmdir / foo: 1 names foo:s0; 0 names none; ENOENT 7",
    "3 rmdir / fo: 1 names none; 0 names fo:dir; hold 2 ok; 0 names none; 1 names a:s0; 2 names absent; 0 dropdir.1 3; ok 3",
    "3 rmdir / fo: 1 names none; 0 names fo:dir; hold 2 ok; 0 names none; 1 names none; 2 names a:file; ENOTEMPTY 9",
    "3 rmdir / old: 2 names old:s1; 1 names none; 0 names old:dir; hold 2 ok; 0 names none; 1 names absent; 2 names absent; 0 dropdir.1 3; ok 3",
    "3 rmdir / old: 2 names old:s1; 1 names old:file; ENOTDIR 8",
];

#[test]
fn dropped_names(rt: HostRuntime) {
    assert_eq!(rt; first_wrong(rt.alloc(), &ROWS), "");
}
