use crate::reader::are_answered;

// 255 bytes are a name, 256 are too many; a name is looked up in a directory that is there.
const ENTRY: [(&[u8], &[u8]); 12] = [
    (
        b"mkdir /a 755;mkdir /a/b 700;stat /a;stat /a/b;list /",
        b"ok ok dir,755,0 dir,700,0 [a/ ] ",
    ),
    (
        b"mkdir / 755;mkdir /x/y 755;mkdir /a 755;mkdir /a 700;stat /a",
        b"EEXIST ENOENT ok EEXIST dir,755,0 ",
    ),
    (
        b"create 0 /f 644;mkdir /f/d 755;mkdir /f/256*n 755;mkdir /f 755",
        b"ok ENOTDIR ENOTDIR EEXIST ",
    ),
    (
        b"mkdir /255*n 755;mkdir /256*n 755;mkdir /256*n/a 755;stat /256*n",
        b"ok ENAMETOOLONG ENAMETOOLONG ENAMETOOLONG ",
    ),
    (
        b"rmdir /;rmdir /x/y;rmdir /x;create 0 /f 644;rmdir /f/x;rmdir /f;rmdir /256*n",
        b"EBUSY ENOENT ENOENT ok ENOTDIR ENOTDIR ENAMETOOLONG ",
    ),
    (
        b"mkdir /d 755;create 0 /d/f 644;rmdir /d;unlink /d/f;rmdir /d;stat /d;list /",
        b"ok ok ENOTEMPTY ok ok ENOENT [] ",
    ),
    (
        b"unlink /;unlink /x/y;unlink /x;mkdir /d 755;unlink /d;unlink /256*n;create 0 /f 600;unlink /f/x;unlink /f;unlink /f",
        b"EISDIR ENOENT ENOENT ok EISDIR ENAMETOOLONG ok ENOTDIR ok ENOENT ",
    ),
    (
        b"create 0 /f 640;stat /f;create 0 / 644;create 1 / 644;create 1 /x/y 644;create 1 /f/x 644;create 1 /f 600;create 1 /256*n 644",
        b"ok file,640,0 EINVAL EEXIST ENOENT ENOTDIR EEXIST ENAMETOOLONG ",
    ),
    (
        b"mkdir /d 755;mkdir /d 755;create 0 /d 644;open 0 /d;create 0 /f 644;create 0 /d 644;create 0 /f 644",
        b"ok EEXIST EEXIST EISDIR ok EINVAL EINVAL ",
    ),
    (
        b"mkdir /b 755;mkdir /ab 755;mkdir /a 755;create 0 /B 644;list /;list /a;list /B;list /x",
        b"ok ok ok ok [B a/ ab/ b/ ] [] ENOTDIR ENOENT ",
    ),
    (
        b"mkdir /a 755;mkdir /a/b 755;mkdir /a/b/c 755;stat /a/b/c;stat /a/x/c;rmdir /a/b;rmdir /a/b/c;rmdir /a/b;stat /a/b/c",
        b"ok ok ok dir,755,0 ENOENT ENOTEMPTY ok ok ENOENT ",
    ),
    (
        b"create 0 /f 644;stat /f;stat /f/g;stat /f/256*n;stat /g/256*n",
        b"ok file,644,0 ENOTDIR ENOTDIR ENOENT ",
    ),
];

const RENAME: [(&[u8], &[u8]); 8] = [
    (
        b"rename / /;rename / /x;rename /x /;create 0 /f 644;rename /f /;rename /f/x /",
        b"EOPNOTSUPP EOPNOTSUPP EISDIR ok EISDIR EISDIR ",
    ),
    (
        b"rename /x/y /z;rename /x /y/z;create 0 /f 644;rename /f/x /g;rename /256*n /g;rename /x /g",
        b"ENOENT ENOENT ok ENOTDIR ENAMETOOLONG ENOENT ",
    ),
    (
        b"mkdir /d 755;rename /d /e;rename /d /256*n;rename /d /x/y;stat /d",
        b"ok EOPNOTSUPP EOPNOTSUPP ENOENT dir,755,0 ",
    ),
    (
        b"create 0 /f 644;rename /f /x/y;rename /f /f/y;rename /f /256*n;mkdir /d 755;rename /f /d;list /",
        b"ok ENOENT ENOTDIR ENAMETOOLONG ok EISDIR [d/ f ] ",
    ),
    (
        b"create 0 /f 644;write 0 one;rename /f /g;stat /f;stat /g;list /",
        b"ok 3 ok ENOENT file,644,3 [g ] ",
    ),
    (
        b"create 0 /f 644;write 0 one;create 1 /g 600;write 1 twotwo;rename /f /g;stat /g;seek 1 0;read 1 9;list /",
        b"ok 3 ok 6 ok file,644,3 0 'twotwo' [g ] ",
    ),
    (
        b"mkdir /a 755;mkdir /b 755;create 0 /a/f 644;rename /a/f /b/a;list /a;list /b;rename /b/a /b/a;list /b;rename /b/x /b/x",
        b"ok ok ok ok [] [a ] ok [a ] ENOENT ",
    ),
    (
        b"mkdir /d 755;rename /d /d;create 0 /f 644;rename /f /f;stat /f",
        b"ok EOPNOTSUPP ok ok file,644,0 ",
    ),
];

#[test]
fn entries(rt: HostRuntime) {
    assert!(rt; are_answered(rt.alloc(), &ENTRY));
}

#[test]
fn renames(rt: HostRuntime) {
    assert!(rt; are_answered(rt.alloc(), &RENAME));
}
