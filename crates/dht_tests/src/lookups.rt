use crate::play::first_wrong;

const ROWS: [&str; 47] = [
    // The name `fo` belongs to set 0 of two and `foo` to set 1; of three sets, `new`, `fo` and `old` belong to 0, 1 and 2.
    "1 lookup f0 long: ENOTDIR -",
    "1 lookup f0 fo: ENOTDIR -",
    "1 lookup / long: ENAMETOOLONG -",
    "2 lookup d long: ENAMETOOLONG -",
    "1 lookup / fo: 0 names removed; ENOENT 7",
    "1 lookup / fo: 0 names none; ENOENT 7",
    "1 lookup / fo: 0 names[1e,dir] fo:file; found0[2,file] 7",
    "1 lookup d fo: 0 names[8e,dir] fo:dir; found0[2,dir] 7",
    "2 lookup / fo: 0 names fo:file; found0 7",
    "2 lookup / foo: 1 names a:file+foo:file:3+g:dir; found1[3,file] 8",
    "2 lookup / foo: 1 names foo:s0; 0 names foo:file; found0 7",
    "2 lookup / foo: 1 names foo:s0; 0 names none; ENOENT 7",
    "2 lookup / foo: 1 names foo:s1; 0 names foo:file; found0 7",
    "2 lookup / foo: 1 names none; 0 names foo:dir; found0[2,dir] 7",
    "2 lookup / foo: 1 names none; 0 names removed; ENOENT 7",
    "2 lookup / foo: 1 names absent; 0 names foo:file; found0 7",
    "2 lookup / foo: 1 names split; split[1] -",
    "2 lookup / foo: 1 names foo:s0; 0 names fault; fault[0] -",
    "2 lookup d fo: 0 meta[8m,dir] low; 1 meta[8m,dir] high; 0 names[8e,dir] fo:file; found0 7",
    "2 lookup d fo: 0 meta high; 1 meta low; 1 names fo:file; found1 8",
    "2 lookup d fo: 0 meta low; 1 meta low; 0 names fo:file; found0 7",
    "2 lookup d foo: 0 meta absent; 1 meta absent; 0 names foo:file; found0 7",
    "2 lookup d foo: 0 meta low; 1 meta absent; 0 names none; 1 names absent; ENOENT 8",
    "3 lookup / fo: 1 names fo:file; found1[2,file] 8",
    "3 lookup / fo: 1 names none; 0 names none; 2 names fo:file; found2[2,file] 9",
    "3 lookup / fo: 1 names none; 0 names fo:s2; 2 names none; ENOENT 9",
    "3 lookup / old: 2 names none; 0 names none; 1 names none; ENOENT 8",
    "3 lookup / old: 2 names old:s1; 1 names old:file; found1 8",
    "3 lookup / old: 2 names old:s1; 1 names none; 0 names old:file; found0 7",
    "3 lookup / old: 2 names old:s1; 1 names absent; 0 names old:file; found0 7",
    "3 lookup / old: 2 names old:s1; 1 names old:s0; 0 names none; ENOENT 7",
    "3 lookup / old: 2 names old:s9; 0 names none; 1 names old:file; found1 8",
    "3 lookup d old: 0 meta low; 1 meta absent; 2 meta high; 2 names old:file; found2 9",
    // The root's layout is that of the first graph.
    "2/1 lookup / foo: 0 names none; 1 names foo:file; found1 8",
    "3/2 lookup / old: 1 names old:file; found1 8",
    // The names of the sets are merged by rising bytes; links are left out.
    "1 list f0: ENOTDIR -",
    "2 list f1: ENOTDIR -",
    "1 list /: 0 names removed; ENOENT 7",
    "1 list /: 0 names[1e,dir] a:file; list[a/file] 7",
    "2 list d: 0 names removed; ENOENT 7",
    "2 list d: 0 names[8e,dir] none; 1 names[8e,dir] absent; list[] 8",
    "2 list /: 0 names a:dir; 1 names a:s0; list[a/dir] 8",
    "2 list /: 0 names a:file; 1 names b:file; list[a/file,b/file] 8",
    "2 list /: 0 names b:file+d:dir; 1 names a:file+c:file+d:s0; list[a/file,b/file,c/file,d/dir] 8",
    "3 list /: 0 names c:s1; 1 names c:file; 2 names a:file+b:s0; list[a/file,c/file] 9",
    "3 list d: 0 names none; 1 names absent; 2 names none; list[] 9",
    "3 list d: 0 names none; 1 names removed; ENOENT 8",
];

#[test]
fn lookups(rt: HostRuntime) {
    assert_eq!(rt; first_wrong(rt.alloc(), &ROWS), "");
}
