use crate::play::first_wrong;

const ROWS: [&str; 52] = [
    // Refused.
    "1 rename f0 fo / foo: ENOTDIR -",
    "1 rename f0 long f0 long: ENOTDIR -",
    "1 rename / long / foo: ENAMETOOLONG -",
    "1 rename / long f0 long: ENAMETOOLONG -",
    "1 rename / fo / foo: 0 names removed; ENOENT 7",
    "1 rename / fo f0 long: 0 names removed; ENOENT 7",
    "1 rename / fo / foo: 0 names none; ENOENT 7",
    "1 rename / fo f0 long: 0 names none; ENOENT 7",
    "1 rename / fo f0 long: 0 names fo:dir; EOPNOTSUPP 7",
    "1 rename / fo f0 long: 0 names fo:file; ENOTDIR 7",
    "1 rename / fo / long: 0 names fo:file; ENAMETOOLONG 7",
    "1 rename / fo d foo: 0 names[1e,dir] fo:file; 0 names[8e,dir] removed; ENOENT 7",
    "1 rename / fo / foo: 0 names fo:file; 0 names foo:dir; EISDIR 7",
    "2 rename / foo / fo: 1 names foo:s0; 0 names none; ENOENT 7",
    "2 rename / foo / fo: 1 names none; 0 names foo:dir; EOPNOTSUPP 7",
    "2 rename / fo d foo: 0 names fo:file; 0 meta low; 1 meta high; 1 names none; 0 names removed; ENOENT 7",
    "2 rename / foo / fo: 1 names foo:file; 0 names fo:dir; EISDIR 7",
    "2 rename / fo / foo: 0 names fo:file; 1 names none; 0 names foo:dir; EISDIR 7",
    "3 rename / old / new: 2 names old:s1; 1 names none; 0 names old:dir; EOPNOTSUPP 7",
    "3 rename / old / new: 2 names old:s1; 1 names none; 0 names none; ENOENT 7",
    "3 rename / new / old: 0 names new:file; 2 names old:s1; 1 names none; 0 names old:dir; EISDIR 7",
    "3 rename / new d long: 0 names new:file; ENAMETOOLONG 7",
    // The move is on the file's set. A link is added where the new name belongs to another set, and the link of the first
    // name is dropped.
    "1 rename / fo / fo: 0 names fo:file; ok 7",
    "1 rename / fo d fo: 0 names fo:file; 0 names none; 0 move.2[1e+8e,1/fo,8/fo] 3; ok 3",
    "1 rename e fo d foo: 0 names[9e,dir] fo:file; 0 names[8e,dir] none; 0 move.2[8e+9e,9/fo,8/foo] 3; ok 3",
    "2 rename / fo / fo: 0 names fo:s1; 1 names fo:file; ok 8",
    "2 rename / fo / foo: 0 names fo:file; 1 names none; 0 names none; 0 move.2[1e,1/fo,1/foo] 3; 1 link+[1e,1/foo,2,link,000,s0] ok; ok 3",
    "2 rename / fo / foo: 0 names fo:file; 1 names foo:s0; 0 names none; 0 move.2 3; 1 link+ ok; ok 3",
    "2 rename / foo / fo: 1 names foo:s0; 0 names foo:file; 0 names none; 1 names none; 0 move.2 3; 1 link-[1e,1/foo] ok; ok 3",
    "2 rename / foo / fo: 1 names none; 0 names foo:file; 0 names none; 1 names none; 0 move.2 3; ok 3",
    "2 rename d fo d foo: 0 meta low; 1 meta high; 0 names fo:file; 1 names none; 0 names none; 0 move.2[8e,8/fo,8/foo] 3; 1 link+[8e,8/foo,2,link,000,s0] ok; ok 3",
    "2 rename d fo / foo: 0 meta low; 1 meta high; 0 names fo:file; 1 names none; 0 names none; 0 move.2[1e+8e,8/fo,1/foo] 3; 1 link+ ok; ok 3",
    "2 rename d fo e foo: 0 meta[8m,dir] low; 1 meta[8m,dir] high; 0 names[8e,dir] fo:file; 0 meta[9m,dir] low; 1 meta[9m,dir] high; 1 names[9e,dir] none; 0 names[9e,dir] none; 0 move.2[8e+9e,8/fo,9/foo] 3; 1 link+[9e,9/foo,2,link,000,s0] ok; ok 3",
    "2 rename / foo d fo: 1 names foo:file; 0 meta low; 1 meta absent; 0 names none; 1 names absent; 1 birth[8m+8e,8] ok; 1 move.2[1e+8e,1/foo,8/fo] 3; 0 link+[8e,8/fo,2,link,000,s1] ok; ok 3",
    "2/1 rename / fo / foo: 0 names fo:file; 0 names none; 1 names none; 0 move.2 3; ok 3",
    "3 rename / new / old: 0 names new:file; 2 names none; 0 names none; 1 names none; 0 move.2 3; 2 link+[1e,1/old,2,link,000,s0] ok; ok 3",
    "3 rename / new / old: 0 names new:file; 2 names old:s1; 1 names none; 0 names none; 0 move.2 3; 2 link+ ok; ok 3",
    "3 rename / old / new: 2 names old:s1; 1 names old:file; 0 names none; 1 names none; 2 names none; 1 move.2 3; 0 link+[1e,1/new,2,link,000,s1] ok; 2 link-[1e,1/old] ok; ok 3",
    "3 rename / old / new: 2 names old:s1; 1 names none; 0 names old:file; 0 names none; 1 names none; 2 names none; 0 move.2 3; 2 link- ok; ok 3",
    "3 rename / old / fo: 2 names none; 0 names none; 1 names old:file; 1 names none; 0 names none; 2 names none; 1 move.2 3; ok 3",
    "3 rename / fo d fo: 1 names fo:file; 0 meta low; 1 meta absent; 2 meta high; 0 names none; 1 names absent; 2 names none; 1 birth[8m+8e,8] ok; 1 move.2 3; 0 link+ ok; ok 3",
    // A file of the new name on the file's set is replaced by the move; one on another set is unlinked first, as part 1.
    "1 rename / fo / foo: 0 names fo:file; 0 names foo:file:3; 0 move.2[1e,1/fo,1/foo] 3; ok 3",
    "2 rename / fo / foo: 0 names fo:file; 1 names foo:file:3; 0 names none; 1 drop.1[1e,1/foo] 3; 0 move.2[1e,1/fo,1/foo] 4; 1 link+[1e,1/foo,2,link,000,s0] ok; ok 4",
    "2 rename / fo / foo: 0 names fo:file; 1 names foo:s0; 0 names foo:file:3; 0 move.2 3; 1 link+ ok; ok 3",
    "2 rename / fo / foo: 0 names fo:s1; 1 names fo:file; 1 names foo:file:3; 1 move.2 3; 0 link- ok; ok 3",
    "2 rename / foo / fo: 1 names foo:s0; 0 names foo:file; 0 names fo:s1; 1 names fo:file:3; 1 drop.1[1e,1/fo] 3; 0 move.2 4; 1 link- ok; ok 4",
    "2 rename / foo d fo: 1 names foo:file; 0 meta low; 1 meta high; 0 names fo:file:3; 1 names none; 0 drop.1 3; 1 move.2 4; 0 link+ ok; ok 4",
    "2 rename / foo d fo: 1 names foo:file; 0 meta low; 1 meta absent; 0 names fo:file:3; 1 names[8e,dir] absent; 0 drop.1[8e,8/fo] 3; 1 birth[8m+8e,8] ok; 1 move.2[1e+8e,1/foo,8/fo] 4; 0 link+[8e,8/fo,2,link,000,s1] ok; ok 4",
    "3 rename / new / old: 0 names new:file; 2 names old:s1; 1 names old:file:3; 0 names none; 1 drop.1 3; 0 move.2 4; 2 link+ ok; ok 4",
    "3 rename / new / old: 0 names new:file; 2 names old:s1; 1 names none; 0 names old:file:3; 0 move.2 3; 2 link+ ok; ok 3",
    "3 rename / old / new: 2 names old:s1; 1 names old:file; 0 names new:file:3; 1 names none; 0 drop.1 3; 1 move.2 4; 0 link+ ok; 2 link- ok; ok 4",
    "3 rename / new / fo: 0 names new:file; 1 names none; 0 names none; 2 names fo:file:3; 2 drop.1 3; 0 move.2 4; 1 link+ ok; ok 4",
];

#[test]
fn renames(rt: HostRuntime) {
    assert_eq!(rt; first_wrong(rt.alloc(), &ROWS), "");
}
