use crate::reader::are_answered;

// Calls on one object: modes, lengths, attributes. A directory's size is 0.
const CASES: [(&[u8], &[u8]); 11] = [
    (
        b"stat /;chmod / 700;stat /;list /",
        b"dir,755,0 ok dir,700,0 [] ",
    ),
    (
        b"create 0 /f 644;chmod /f 7;stat /f;chmod /x 7;chmod /f/x 7;chmod /256*n 7",
        b"ok ok file,007,0 ENOENT ENOTDIR ENAMETOOLONG ",
    ),
    (
        b"truncate / 0;truncate / 65537;truncate /x 0;mkdir /d 755;truncate /d 65537",
        b"EISDIR EISDIR ENOENT ok EISDIR ",
    ),
    (
        b"create 0 /f 644;write 0 hello;truncate /f 2;stat /f;truncate /f 4;seek 0 0;read 0 9;truncate /f 65537;truncate /f 65536;stat /f",
        b"ok 5 ok file,644,2 ok 0 'he\0\0' EFBIG ok file,644,65536 ",
    ),
    (
        b"getattr / user.a;delattr / user.a;setattr / user.a one;getattr / user.a;delattr / user.a;getattr / user.a",
        b"ENODATA ENODATA ok 'one' ok ENODATA ",
    ),
    (
        b"create 0 /f 644;setattr /f user.b one;setattr /f user.a two;setattr /f user.b three;getattr /f user.a;getattr /f user.b;getattr /f user.",
        b"ok ok ok ok 'two' 'three' ENODATA ",
    ),
    (
        b"create 0 /f 644;setattr /f user.a one;setattr /f user.b two;delattr /f user.a;delattr /f user.a;getattr /f user.b",
        b"ok ok ok ok ENODATA 'two' ",
    ),
    (
        b"setattr /x user.a one;getattr /x user.a;delattr /x user.a;create 0 /f 644;setattr /f/x user.a one;getattr /f/x user.a;delattr /f/x user.a",
        b"ENOENT ENOENT ENOENT ok ENOTDIR ENOTDIR ENOTDIR ",
    ),
    (
        b"create 0 /f 644;setattr /f user.a one;rename /f /g;getattr /g user.a;setattr /g user.a ;getattr /g user.a",
        b"ok ok ok 'one' ok '' ",
    ),
    (
        b"open 0 /;open 0 /x;mkdir /d 755;open 0 /d;create 0 /d/f 644;open 0 /d/f;open 1 /d/f/x;open 1 /d/f;open 1 /x",
        b"EISDIR ENOENT ok EISDIR ok EINVAL ENOTDIR ok EINVAL ",
    ),
    (
        b"stat /x;list /x;stat /256*n;list /256*n;create 0 /f 644;list /f",
        b"ENOENT ENOENT ENAMETOOLONG ENAMETOOLONG ok ENOTDIR ",
    ),
];

#[test]
fn objects(rt: HostRuntime) {
    assert!(rt; are_answered(rt.alloc(), &CASES));
}
