use crate::reader::are_answered;

// Descriptors are a session's own; read, write and seek move the offset; a file whose name is gone stays.
const CASES: [(&[u8], &[u8]); 11] = [
    (
        b"read 0 1;write 0 a;write 0 ;seek 0 0;seek 0 65537;close 0",
        b"EBADF EBADF EBADF EBADF EBADF EBADF ",
    ),
    (
        b"create 0 /f 644;close 0;close 0;read 0 1;open 0 /f;read 0 1",
        b"ok ok EBADF EBADF ok '' ",
    ),
    (
        b"create 255 /f 644;@ 1;read 255 1;create 255 /g 644;write 255 b;@ 0;write 255 aa;stat /f;stat /g",
        b"ok EBADF ok 1 2 file,644,2 file,644,1 ",
    ),
    (
        b"create 0 /f 644;write 0 hello;write 0 world;seek 0 3;read 0 4;read 0 9;read 0 9",
        b"ok 5 5 3 'lowo' 'rld' '' ",
    ),
    (
        b"create 0 /f 644;write 0 abc;open 1 /f;write 1 X;read 1 1;read 0 5;seek 0 0;read 0 5",
        b"ok 3 ok 1 'b' '' 0 'Xbc' ",
    ),
    (
        b"create 0 /f 644;seek 0 2;write 0 b;stat /f;seek 0 0;read 0 9;seek 0 9;read 0 1;stat /f",
        b"ok 2 1 file,644,3 0 '\0\0b' 9 '' file,644,3 ",
    ),
    (
        b"create 0 /f 644;seek 0 65536;seek 0 65537;write 0 ;write 0 a;read 0 65536;seek 0 65535;write 0 ab;write 0 a;write 0 a;stat /f",
        b"ok 65536 EINVAL 0 EFBIG '' 65535 EFBIG 1 EFBIG file,644,65536 ",
    ),
    (
        b"create 0 /f 644;write 0 65536*a;stat /f;write 0 a;seek 0 65534;read 0 9;create 1 /g 644;write 1 a;write 1 65536*a;stat /g",
        b"ok 65536 file,644,65536 EFBIG 65534 'aa' ok 1 EFBIG file,644,1 ",
    ),
    (
        b"create 0 /f 644;write 0 abc;unlink /f;stat /f;seek 0 1;read 0 9;write 0 d;seek 0 0;read 0 9;create 1 /f 600;stat /f",
        b"ok 3 ok ENOENT 1 'bc' 1 0 'abcd' ok file,600,0 ",
    ),
    (
        b"create 0 /f 644;seek 0 5;write 0 ;stat /f;read 0 0;seek 0 5;read 0 4",
        b"ok 5 0 file,644,0 '' 5 '' ",
    ),
    (
        b"create 0 /f 644;write 0 abcdef;seek 0 2;write 0 XY;seek 0 0;read 0 9;truncate /f 1;seek 0 3;write 0 z;seek 0 0;read 0 9",
        b"ok 6 2 2 0 'abXYef' ok 3 1 0 'a\0\0z' ",
    ),
];

#[test]
fn descriptors(rt: HostRuntime) {
    assert!(rt; are_answered(rt.alloc(), &CASES));
}
