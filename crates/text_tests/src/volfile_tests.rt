use std::alloc::Global;
use std::process::Abort;
use volfile::{VolError, VolKind, parse, print};

const REFUSED: [(&[u8], u32, VolKind); 36] = [
    (b"\nvolume \x7f\n", 2, VolKind::BadByte),
    (b"volume \x1f", 1, VolKind::BadByte),
    (b"x \"` \x01 # \x02", 1, VolKind::BadByte),
    (b"volume `a`\n", 1, VolKind::Backquote),
    (b"x \"`", 1, VolKind::Backquote),
    (b"volume a\noption k \"v\n", 2, VolKind::OpenQuote),
    (b"volume a\noption k v\"w\"\n", 2, VolKind::OpenQuote),
    (b"volume a\noption k \"v\"w\n", 2, VolKind::OpenQuote),
    (b"volume a\noption k \"v\" \"w\"\n", 2, VolKind::OpenQuote),
    (b"volume \"a\"\n", 1, VolKind::OpenQuote),
    (b"volume a\nsubvolumes b \"c\"\n", 2, VolKind::OpenQuote),
    (b"x \"", 1, VolKind::OpenQuote),
    (b"type a/b\n", 1, VolKind::Unexpected),
    (b"option k \"v\"\n", 1, VolKind::Unexpected),
    (b"volume a\nvolume b\n", 2, VolKind::Unexpected),
    (b"volume a\ntype a/b\ntype a/b\n", 3, VolKind::Unexpected),
    (b"type", 1, VolKind::Unexpected),
    (b"volume\n", 1, VolKind::WordCount),
    (b"volume a b\n", 1, VolKind::WordCount),
    (b"volume / /", 1, VolKind::WordCount),
    (b"volume a\noption k \"v\" x\n", 2, VolKind::WordCount),
    (b"volume a\nsubvolumes\n", 2, VolKind::WordCount),
    (b"volume a\nend-volume a\n", 2, VolKind::WordCount),
    (b"volume a/b\n", 1, VolKind::BadWord),
    (
        b"volume a234567890123456789012345678901234567890123456789012345678901234.\n",
        1,
        VolKind::BadWord,
    ),
    (b"volume a\ntype a/b/c\n", 2, VolKind::BadWord),
    (b"volume a\ntype /b\n", 2, VolKind::BadWord),
    (b"volume a\ntype b\n", 2, VolKind::BadWord),
    (b"volume a\nsubvolumes b /\n", 2, VolKind::BadWord),
    (
        b"volume a\ntype a/b\nend-volume\nvolume a\n",
        4,
        VolKind::Repeated,
    ),
    (b"volume a\nsubvolumes b\n", 2, VolKind::UnknownSubvolume),
    (b"volume a\nsubvolumes a\n", 2, VolKind::UnknownSubvolume),
    (b"volume a\n\nend-volume\n", 3, VolKind::MissingType),
    (b"volume a\n\n", 2, VolKind::Unclosed),
    (b"", 0, VolKind::Empty),
    (b"#\n\n", 2, VolKind::Empty),
];

fn is_refused(alloc: Global, text: &[u8], line: u32, kind: VolKind) -> bool {
    match parse(alloc, text) {
        Ok(_) => false,
        Err(e) => e == VolError::At { line, kind },
    }
}

#[test]
fn refused_volfiles(rt: HostRuntime) {
    for (text, line, kind) in &REFUSED {
        assert!(rt; is_refused(rt.alloc(), text, *line, *kind));
    }
}

// A text, and how its volfile is printed.
const PRINTED: [(&[u8], &[u8]); 6] = [
    (
        b"volume a\n  option k \"v\"  # c\n\ttype  a/b\n option l \"x y#\"\n option m \"\"\nend-volume\nvolume b\nsubvolumes a  a\ntype c/d\nend-volume",
        b"volume a\ntype a/b\noption k v\noption l \"x y#\"\noption m \"\"\nend-volume\nvolume b\ntype c/d\nsubvolumes a a\nend-volume\n",
    ),
    (
        b"\n# all of it `\x01\"\n \t\r\nvolume a # \"\ntype a/b#`\n  end-volume\t\r",
        b"volume a\ntype a/b\nend-volume\n",
    ),
    (
        b"volume a\r\n\ttype\ta/b\r\nend-volume\r\n",
        b"volume a\ntype a/b\nend-volume\n",
    ),
    (
        b"volume a\ntype a/b\noption k \"v\"#c\nend-volume",
        b"volume a\ntype a/b\noption k v\nend-volume\n",
    ),
    (
        b"volume a\ntype a/b\noption k \"a # b\"\nend-volume",
        b"volume a\ntype a/b\noption k \"a # b\"\nend-volume\n",
    ),
    (
        b"volume a234567890123456789012345678901234567890123456789012345678901234\ntype a/b\noption k 1\noption k 2\nend-volume\n",
        b"volume a234567890123456789012345678901234567890123456789012345678901234\ntype a/b\noption k 1\noption k 2\nend-volume\n",
    ),
];

fn is_printed(alloc: Global, text: &[u8], wanted: &[u8]) -> bool {
    match parse(alloc, text) {
        Err(_) => false,
        Ok(v) => match print(alloc, &v) {
            Err(_) => false,
            Ok(printed) => printed.as_slice() == wanted,
        },
    }
}

#[test]
fn printed_volfiles(rt: HostRuntime) {
    for (text, wanted) in &PRINTED {
        assert!(rt; is_printed(rt.alloc(), text, wanted));
    }
}
