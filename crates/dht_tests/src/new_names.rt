use crate::play::first_wrong;

const ROWS: [&str; 36] = [
    // Copies are born on the further sets, each with its part of the even split, before the name is added on the first.
    "1 mkdir f0 long: ENOTDIR -",
    "1 mkdir / long: ENAMETOOLONG -",
    "1 mkdir / fo: 0 names removed; ENOENT 7",
    "1 mkdir / fo: 0 names fo:file; EEXIST 7",
    "1 mkdir / fo: 0 names[1e,dir] none; 0 add.1[1e,1/fo,8,dir,755,0-4294967295] 3; ok 3",
    "2 mkdir f1 fo: ENOTDIR -",
    "2 mkdir d fo: 0 meta low; 1 meta high; 0 names removed; ENOENT 7",
    "2 mkdir / fo: 0 names none; 1 names fo:dir; EEXIST 8",
    "2 mkdir / fo: 0 names none; 1 names none; 1 birth[8m+8e,8,2147483648-4294967295] ok; 0 add.1[1e,1/fo,8,dir,755,0-2147483647] 3; ok 3",
    "2 mkdir d fo: 0 meta low; 1 meta high; 0 names none; 1 names none; 1 birth ok; 0 add.1[8e,8/fo,8,dir,755,0-2147483647] 3; ok 3",
    "2 mkdir / foo: 1 names foo:s0; 0 names foo:file; EEXIST 7",
    "2 mkdir / foo: 1 names foo:s0; 0 names none; 1 birth ok; 0 add.1 3; ok 3",
    "3 mkdir / fo: 1 names none; 0 names none; 2 names none; 1 birth[8m+8e,8,1431655765-2863311529] ok; 2 birth[8m+8e,8,2863311530-4294967295] ok; 0 add.1[1e,1/fo,8,dir,755,0-1431655764] 3; ok 3",
    "3 mkdir / old: 2 names old:s1; 1 names old:file; EEXIST 8",
    "3 mkdir / old: 2 names old:s1; 1 names none; 0 names old:file; EEXIST 7",
    "3 mkdir / old: 2 names old:s1; 1 names none; 0 names none; 1 birth ok; 2 birth ok; 0 add.1 3; ok 3",
    "3/2 mkdir / old: 1 names none; 0 names none; 2 names none; 1 birth ok; 2 birth ok; 0 add.1[1e,1/old,8,dir,755,0-1431655764] 3; ok 3",
    // A file is added on the set to which its name belongs, in place of a link.
    "1 create f0 long: ENOTDIR -",
    "1 create / long: ENAMETOOLONG -",
    "1 create / fo: 0 names removed; ENOENT 7",
    "1 create / fo: 0 names fo:file; EEXIST 7",
    "1 create / fo: 0 names[1e,dir] none; 0 add.1[1e,1/fo,2,file,644] 3; found0[2,file] 3",
    "2 create / foo: 1 names none; 0 names foo:file; EEXIST 7",
    "2 create / foo: 1 names none; 0 names foo:dir; EEXIST 7",
    "2 create / foo: 1 names none; 0 names removed; ENOENT 7",
    "2 create / foo: 1 names none; 0 names none; 1 add.1 3; found1[2,file] 3",
    "2 create / foo: 1 names foo:s0; 0 names foo:file; EEXIST 7",
    "2 create / foo: 1 names foo:s0; 0 names none; 1 add.1[1e,1/foo,2,file,644] 3; found1 3",
    "2 create d fo: 0 meta high; 1 meta low; 1 names none; 0 names none; 1 add.1 3; found1 3",
    "2 create d foo: 0 meta low; 1 meta absent; 0 names none; 1 names absent; 0 add.1[8e,8/foo,2,file,644] 3; found0 3",
    "3 create / old: 2 names old:s1; 1 names old:file; EEXIST 8",
    "3 create / old: 2 names old:s1; 1 names none; 0 names old:file; EEXIST 7",
    "3 create / old: 2 names old:s1; 1 names none; 0 names none; 2 add.1 3; found2[2,file] 3",
    "3 create / fo: 1 names none; 0 names none; 2 names none; 1 add.1 3; found1 3",
    "3 create / fo: 1 names none; 0 names none; 2 names fo:file; EEXIST 9",
    "3/2 create / old: 1 names none; 0 names none; 2 names none; 1 add.1 3; found1 3",
];

#[test]
fn new_names(rt: HostRuntime) {
    assert_eq!(rt; first_wrong(rt.alloc(), &ROWS), "");
}
