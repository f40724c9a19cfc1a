use crate::play::first_wrong_in_order;

// The fops that the mount submits by itself: an error in one job stops none of the others. A heal of one file takes four
// cells of a set at most.
const INTERNAL: [&str; 13] = [
    "1 migrate 1: 0 open[1,2] opened; ok -",
    "2 migrate 2: 0 open opened; 1 open opened; ok -",
    "2 migrate 2: 0 open io; 1 open io; ok -",
    "3 migrate 3: 0 open[1,2] opened; 1 open[1,2] fault; 2 open[1,2] opened; ok -",
    "3 migrate 0: ok -",
    "1 heal: 0 index cells; 0 heal healed; ok -",
    "1 heal: 0 index io; ok -",
    "1 heal: 0 index cells-5; 0 heal[0d] healed; 0 heal[1d] skipped; 0 heal[2d] io; 0 heal[3d] healed; ok -",
    "2 heal: 0 index cells; 1 index cells; 0 heal healed; 1 heal healed; ok -",
    "2 heal: 0 index cells; 1 index cells; 0 heal io; 1 heal io; ok -",
    "2 heal: 0 index short; 1 index short; 0 heal[0d] skipped; 1 heal[0d] healed; ok -",
    "3 heal: 0 index io; 1 index cells; 2 index io; 1 heal healed; ok -",
    "3 heal: 0 index cells; 1 index cells; 2 index cells; 0 heal io; 1 heal skipped; 2 heal healed; ok -",
];

// A layout is read once, also where the fop fails after it; one of another number of sets is not looked at.
const KEPT: [&str; 8] = [
    "2 lookup d fo: 0 meta low; 1 meta high; 0 names fault; fault[0] -",
    "2 lookup d foo: 1 names foo:file; found1 8",
    "2 create d foo: 1 names none; 0 names none; 1 add.1 3; found1 3",
    "2 rename d fo d foo: 0 names fo:file; 1 names none; 0 names none; 0 move.2 3; 1 link+ ok; ok 3",
    "2 rename / fo e foo: 0 names fo:file; 0 meta low; 1 meta high; 1 names none; 0 names none; 0 move.2 3; 1 link+ ok; ok 3",
    "2 rename e foo d fo: 1 names foo:file; 0 names none; 1 names none; 1 move.2 3; 0 link+ ok; ok 3",
    "3 lookup d fo: 0 meta low; 1 meta absent; 2 meta high; 0 names fo:file; found0 7",
    "3 unlink d foo: 2 names foo:file; 2 drop.1 3; ok 3",
];

// A layout of which a set could not be read is not kept.
const NOT_KEPT: [&str; 2] = [
    "2 lookup d fo: 0 meta low; 1 meta split; split[1] -",
    "2 lookup d fo: 0 meta low; 1 meta high; 0 names fo:file; found0 7",
];

// A file is renamed to a name of the other set, and found by its link.
const RENAMED: [&str; 4] = [
    "2 create / fo: 0 names[1e,dir] none@0; 1 names[1e,dir] none@0; 0 add.1[1e,1/fo,2,file,644] 1; found0[2,file] 1",
    "2 rename / fo / foo: 0 names[1e,dir] fo:file@1; 1 names[1e,dir] none@1; 0 names[1e,dir] fo:file@1; 0 move.2[1e,1/fo,1/foo] 2; 1 link+[1e,1/foo,2,link,000,s0] ok; ok 2",
    "2 lookup / foo: 1 names[1e,dir] foo:s0@2; 0 names[1e,dir] foo:file@2; found0[2,file] 2",
    "2 stat f0: 0 both[2d+2m] empty@2; stat[file,644,0] 2",
];

// The same where the link could not be added.
const WITHOUT_LINK: [&str; 3] = [
    "2 rename / fo / foo: 0 names fo:file@1; 1 names none@1; 0 names fo:file@1; 0 move.2[1e,1/fo,1/foo] 2; 1 link+[1e,1/foo,2,link,000,s0] io; ok[] 2",
    "2 lookup / foo: 1 names none@2; 0 names foo:file@2; found0[2,file] 2",
    "2 stat f0: 0 both empty@2; stat[file,644,0] 2",
];

// A file of the new name on the other set is unlinked first, and stays unlinked where the move fails.
const REPLACED: [&str; 4] = [
    "2 create / fo: 0 names none@0; 1 names none@0; 0 add.1[1e,1/fo,2,file,644] 1; found0 1",
    "2 create / foo: 1 names none@1; 0 names fo:file@1; 1 add.1[1e,1/foo,2,file,644] 2; found1[2,file] 2",
    "2 rename / fo / foo: 0 names fo:file@2; 1 names foo:file:3@2; 0 names fo:file@2; 1 drop.1[1e,1/foo] 3; 0 move.2[1e,1/fo,1/foo] 4; 1 link+[1e,1/foo,2,link,000,s0] ok; ok 4",
    "2 rename / fo / foo: 0 names fo:file@2; 1 names foo:file:3@2; 0 names fo:file@2; 1 drop.1[1e,1/foo] 3; 0 move.2[1e,1/fo,1/foo] io; quorum[0] -",
];

// A directory with a file, over one set.
const ONE_SET: [&str; 11] = [
    "1 mkdir / a: 0 names[1e,dir] none@0; 0 add.1[1e,1/a,8,dir,755,0-4294967295] 1; ok 1",
    "1 mkdir / a: 0 names a:dir:8@1; EEXIST 1",
    "1 lookup / a: 0 names a:dir:8@1; found0[8,dir] 1",
    "1 create d f: 0 names[8e,dir] none@1; 0 add.1[8e,8/f,2,file,644] 2; found0[2,file] 2",
    "1 rmdir / a: 0 names[1e,dir] a:dir:8@2; hold 8 ok; 0 names[8e,dir] f:file@2; ENOTEMPTY 2",
    "1 rename / a / b: 0 names a:dir:8@2; EOPNOTSUPP 2",
    "1 lookup d f: 0 names f:file@2; found0[2,file] 2",
    "1 lookup f0 x: ENOTDIR -",
    "1 list d: 0 names[8e,dir] f:file@2; list[f/file] 2",
    "1 rename d f d f: 0 names[8e,dir] f:file@2; ok 2",
    "1 lookup / b: 0 names a:dir:8@2; ENOENT 2",
];

const TABLES: [&[&str]; 7] = [
    &INTERNAL,
    &KEPT,
    &NOT_KEPT,
    &RENAMED,
    &WITHOUT_LINK,
    &REPLACED,
    &ONE_SET,
];

#[test]
fn in_order(rt: HostRuntime) {
    assert_eq!(rt; first_wrong_in_order(rt.alloc(), &TABLES), "");
}
