//! The cases of the program as one table: words and a script, and the status and the bytes that must come.
use crate::tops::{top, top_mount};
use hub_calls::Rack;
use run_commands::end_rack;
use std::alloc::{AllocError, Global};
use std::process::Abort;
use std::sync::Wait;
use std::test::Fail;
use std::thread::Threads;
use std::time::Clock;
use xl_base::{MemSink, MemSource};

// A piece of a script, and how often it is there.
type Piece = (&'static [u8], usize);

// The volume that a script begins with: its bricks, its volfiles, and the start of the first.
#[derive(Clone, Copy)]
enum Volume {
    Absent,
    One,
    Cached,
    Three,
    Common,
    Twice,
    Six,
}

struct Row {
    name: &'static str,
    words: &'static [&'static str],
    volume: Volume,
    script: &'static [Piece],
    status: u8,
    written: &'static [u8],
}

// One brick, a volfile of one client, and its start: 9 lines.
const ONE: &[u8] =
    b"brick b0 h /b0\nvolfile g\nvolume c0\ntype protocol/client\noption remote-host h\noption remote-subvolume /b0\nend-volume\nend-volfile\nstart g\n";

// The same brick below a cache: 13 lines.
const CACHED: &[u8] =
    b"brick b0 h /b0\nvolfile g\nvolume c0\ntype protocol/client\noption remote-host h\noption remote-subvolume /b0\nend-volume\nvolume c\ntype performance/io-cache\nsubvolumes c0\nend-volume\nend-volfile\nstart g\n";

// Three bricks, and a volfile of one set of replicas: 25 lines.
const THREE: &[u8] =
    b"brick b0 h0 /b\nbrick b1 h1 /b\nbrick b2 h2 /b\nvolfile g\nvolume v-client-0\ntype protocol/client\noption remote-host h0\noption remote-subvolume /b\nend-volume\nvolume v-client-1\ntype protocol/client\noption remote-host h1\noption remote-subvolume /b\nend-volume\nvolume v-client-2\ntype protocol/client\noption remote-host h2\noption remote-subvolume /b\nend-volume\nvolume v-replicate-0\ntype cluster/replicate\nsubvolumes v-client-0 v-client-1 v-client-2\nend-volume\nend-volfile\nstart g\n";

// The same bricks, with what is above the set in a common mount: 60 lines.
const COMMON: &[u8] =
    b"brick b0 h0 /b\nbrick b1 h1 /b\nbrick b2 h2 /b\nvolfile g\nvolume v-client-0\ntype protocol/client\noption remote-host h0\noption remote-subvolume /b\nend-volume\nvolume v-client-1\ntype protocol/client\noption remote-host h1\noption remote-subvolume /b\nend-volume\nvolume v-client-2\ntype protocol/client\noption remote-host h2\noption remote-subvolume /b\nend-volume\nvolume v-replicate-0\ntype cluster/replicate\nsubvolumes v-client-0 v-client-1 v-client-2\nend-volume\nvolume v-dht\n    type cluster/distribute\n    option lock-migration off\n    subvolumes v-replicate-0\nend-volume\n\nvolume v-write-behind\n    type performance/write-behind\n    subvolumes v-dht\nend-volume\n\nvolume v-io-cache\n    type performance/io-cache\n    option cache-size 32MB\n    subvolumes v-write-behind\nend-volume\n\nvolume v-md-cache\n    type performance/md-cache\n    option cache-invalidation \"on\"   # kept and ignored\n    subvolumes v-io-cache\nend-volume\n\nvolume v-io-threads\n    type performance/io-threads\n    option thread-count 16\n    subvolumes v-md-cache\nend-volume\n\nvolume v\n    type debug/io-stats\n    option log-level INFO\n    option count-fop-hits off\n    subvolumes v-io-threads\nend-volume\nend-volfile\nstart g\n";

// The same bricks, and the volfile of `THREE` twice, as g and as h: 46 lines.
const TWICE: &[u8] =
    b"brick b0 h0 /b\nbrick b1 h1 /b\nbrick b2 h2 /b\nvolfile g\nvolume v-client-0\ntype protocol/client\noption remote-host h0\noption remote-subvolume /b\nend-volume\nvolume v-client-1\ntype protocol/client\noption remote-host h1\noption remote-subvolume /b\nend-volume\nvolume v-client-2\ntype protocol/client\noption remote-host h2\noption remote-subvolume /b\nend-volume\nvolume v-replicate-0\ntype cluster/replicate\nsubvolumes v-client-0 v-client-1 v-client-2\nend-volume\nend-volfile\nvolfile h\nvolume v-client-0\ntype protocol/client\noption remote-host h0\noption remote-subvolume /b\nend-volume\nvolume v-client-1\ntype protocol/client\noption remote-host h1\noption remote-subvolume /b\nend-volume\nvolume v-client-2\ntype protocol/client\noption remote-host h2\noption remote-subvolume /b\nend-volume\nvolume v-replicate-0\ntype cluster/replicate\nsubvolumes v-client-0 v-client-1 v-client-2\nend-volume\nend-volfile\nstart g\n";

// Six bricks, and a volfile that distributes over two sets of replicas: 51 lines.
const SIX: &[u8] =
    b"brick b0 h0 /b\nbrick b1 h1 /b\nbrick b2 h2 /b\nbrick b3 h3 /b\nbrick b4 h4 /b\nbrick b5 h5 /b\nvolfile g\nvolume v-client-0\ntype protocol/client\noption remote-host h0\noption remote-subvolume /b\nend-volume\nvolume v-client-1\ntype protocol/client\noption remote-host h1\noption remote-subvolume /b\nend-volume\nvolume v-client-2\ntype protocol/client\noption remote-host h2\noption remote-subvolume /b\nend-volume\nvolume v-client-3\ntype protocol/client\noption remote-host h3\noption remote-subvolume /b\nend-volume\nvolume v-client-4\ntype protocol/client\noption remote-host h4\noption remote-subvolume /b\nend-volume\nvolume v-client-5\ntype protocol/client\noption remote-host h5\noption remote-subvolume /b\nend-volume\nvolume v-replicate-0\ntype cluster/replicate\nsubvolumes v-client-0 v-client-1 v-client-2\nend-volume\nvolume v-replicate-1\ntype cluster/replicate\nsubvolumes v-client-3 v-client-4 v-client-5\nend-volume\nvolume v-dht\ntype cluster/distribute\nsubvolumes v-replicate-0 v-replicate-1\nend-volume\nend-volfile\nstart g\n";

fn lines_of(volume: Volume) -> &'static [u8] {
    match volume {
        Volume::Absent => b"",
        Volume::One => ONE,
        Volume::Cached => CACHED,
        Volume::Three => THREE,
        Volume::Common => COMMON,
        Volume::Twice => TWICE,
        Volume::Six => SIX,
    }
}

// Calls on one brick, of one session and of several.
const CALLS: [Row; 13] = [
    Row {
        name: "a_script_without_calls_is_an_empty_run",
        words: &["run", "1"],
        volume: Volume::One,
        script: &[],
        status: 0,
        written: b"report 1\nhistory 0\ngraph 1 g winds 0 ended 0 drained\nend\n",
    },
    Row {
        name: "mkdir_and_stat_answer_as_a_file_system",
        words: &["run", "1"],
        volume: Volume::One,
        script: &[(
            b"phase\ndo s mkdir /a 755\ndo s stat /a\ndo s mkdir /a 755\ndo s stat /b\n",
            1,
        )],
        status: 0,
        written: b"report 1\ncall 1 session s line 11 places 1 ok\ncall 2 session s line 12 places 1,1 ok dir 755 0\ncall 3 session s line 13 places 1 error 17 EEXIST\ncall 4 session s line 14 places 1 error 2 ENOENT\nhistory 1\nentry 1 call 1 part 1\ngraph 1 g winds 51 ended 51 drained\nend\n",
    },
    Row {
        name: "a_write_behind_the_end_fills_the_gap_with_zeros",
        words: &["run", "1"],
        volume: Volume::One,
        script: &[(
            b"phase\ndo s create 1 /f 600\ndo s seek 1 4\ndo s write 1 t:xy\ndo s seek 1 0\ndo s read 1 100\ndo s read 1 1\n",
            1,
        )],
        status: 0,
        written: b"report 1\ncall 1 session s line 11 places 1 ok\ncall 2 session s line 12 places - ok 4\ncall 3 session s line 13 places 2 ok 2\ncall 4 session s line 14 places - ok 0\ncall 5 session s line 15 places 2 ok x:000000007879\ncall 6 session s line 16 places 2 ok x:\nhistory 2\nentry 1 call 1 part 1\nentry 2 call 3 part 1\ngraph 1 g winds 47 ended 47 drained\nend\n",
    },
    Row {
        name: "calls_without_a_fop_have_no_place",
        words: &["run", "1"],
        volume: Volume::One,
        script: &[(
            b"phase\ndo s read 9 1\ndo s mkdir / 755\ndo s mkdir /a 755\ndo s mkdir /a 755\ndo s create 1 /a/f 600\ndo s rmdir /a\ndo s rename /a /b\ndo s stat /a/f/x\ndo s list /a\ndo s rename /a/f /a/f\n",
            1,
        )],
        status: 0,
        written: b"report 1\ncall 1 session s line 11 places - error 9 EBADF\ncall 2 session s line 12 places - error 17 EEXIST\ncall 3 session s line 13 places 1 ok\ncall 4 session s line 14 places 1 error 17 EEXIST\ncall 5 session s line 15 places 1,2 ok\ncall 6 session s line 16 places 2 error 39 ENOTEMPTY\ncall 7 session s line 17 places 2 error 95 EOPNOTSUPP\ncall 8 session s line 18 places 2,2,2 error 20 ENOTDIR\ncall 9 session s line 19 places 2,2 ok 1 f/file\ncall 10 session s line 20 places 2,2,2 ok\nhistory 2\nentry 1 call 3 part 1\nentry 2 call 5 part 1\ngraph 1 g winds 134 ended 134 drained\nend\n",
    },
    Row {
        name: "a_rename_replaces_a_file",
        words: &["run", "1"],
        volume: Volume::One,
        script: &[(
            b"phase\ndo s create 1 /a 644\ndo s write 1 t:one\ndo s create 2 /b 600\ndo s rename /a /b\ndo s stat /b\ndo s stat /a\ndo s seek 1 0\ndo s read 1 9\ndo s list /\n",
            1,
        )],
        status: 0,
        written: b"report 1\ncall 1 session s line 11 places 1 ok\ncall 2 session s line 12 places 2 ok 3\ncall 3 session s line 13 places 3 ok\ncall 4 session s line 14 places 4 ok\ncall 5 session s line 15 places 4,4 ok file 644 3\ncall 6 session s line 16 places 4 error 2 ENOENT\ncall 7 session s line 17 places - ok 0\ncall 8 session s line 18 places 4 ok x:6f6e65\ncall 9 session s line 19 places 4 ok 1 b/file\nhistory 4\nentry 1 call 1 part 1\nentry 2 call 2 part 1\nentry 3 call 3 part 1\nentry 4 call 4 part 2\ngraph 1 g winds 118 ended 118 drained\nend\n",
    },
    Row {
        name: "a_file_without_a_name_lives_on_for_its_descriptor",
        words: &["run", "1"],
        volume: Volume::One,
        script: &[(
            b"phase\ndo s create 1 /f 644\ndo s write 1 t:abc\ndo s unlink /f\ndo s create 2 /f 600\ndo s seek 1 0\ndo s read 1 9\ndo s stat /f\ndo s close 1\ndo s read 1 9\n",
            1,
        )],
        status: 0,
        written: b"report 1\ncall 1 session s line 11 places 1 ok\ncall 2 session s line 12 places 2 ok 3\ncall 3 session s line 13 places 3 ok\ncall 4 session s line 14 places 4 ok\ncall 5 session s line 15 places - ok 0\ncall 6 session s line 16 places 4 ok x:616263\ncall 7 session s line 17 places 4,4 ok file 600 0\ncall 8 session s line 18 places - ok\ncall 9 session s line 19 places - error 9 EBADF\nhistory 4\nentry 1 call 1 part 1\nentry 2 call 2 part 1\nentry 3 call 3 part 1\nentry 4 call 4 part 1\ngraph 1 g winds 95 ended 95 drained\nend\n",
    },
    Row {
        name: "a_descriptor_number_that_is_opened_again_is_at_its_start",
        words: &["run", "1"],
        volume: Volume::One,
        script: &[(
            b"phase\ndo s create 1 /f 644\ndo s write 1 t:abc\ndo s close 1\ndo s open 1 /f\ndo s read 1 2\ndo s read 1 2\n",
            1,
        )],
        status: 0,
        written: b"report 1\ncall 1 session s line 11 places 1 ok\ncall 2 session s line 12 places 2 ok 3\ncall 3 session s line 13 places - ok\ncall 4 session s line 14 places 2,2 ok\ncall 5 session s line 15 places 2 ok x:6162\ncall 6 session s line 16 places 2 ok x:63\nhistory 2\nentry 1 call 1 part 1\nentry 2 call 2 part 1\ngraph 1 g winds 59 ended 59 drained\nend\n",
    },
    Row {
        name: "a_write_of_no_bytes_and_a_rename_to_itself_have_none",
        words: &["run", "1"],
        volume: Volume::One,
        script: &[(
            b"phase\ndo s create 1 /f 644\ndo s write 1 t:\ndo s rename /f /f\ndo s stat /f\n",
            1,
        )],
        status: 0,
        written: b"report 1\ncall 1 session s line 11 places 1 ok\ncall 2 session s line 12 places 1 ok 0\ncall 3 session s line 13 places 1 ok\ncall 4 session s line 14 places 1,1 ok file 644 0\nhistory 1\nentry 1 call 1 part 1\ngraph 1 g winds 46 ended 46 drained\nend\n",
    },
    Row {
        name: "phases_comments_and_blanks_are_read",
        words: &["run", "1"],
        volume: Volume::One,
        script: &[(
            b"phase\n# calls\n\n\tdo s1  mkdir /b 0\r\nphase\ndo s1 stat /b",
            1,
        )],
        status: 0,
        written: b"report 1\ncall 1 session s1 line 13 places 1 ok\ncall 2 session s1 line 15 places 1,1 ok dir 0 0\nhistory 1\nentry 1 call 1 part 1\ngraph 1 g winds 35 ended 35 drained\nend\n",
    },
    Row {
        name: "a_name_has_255_bytes_at_most",
        words: &["run", "1"],
        volume: Volume::One,
        script: &[
            (b"phase\ndo s mkdir /", 1),
            (b"n", 255),
            (b" 755\ndo s list /\ndo s stat /", 1),
            (b"n", 255),
            (b"/", 1),
            (b"n", 255),
            (b"\ndo s stat /", 1),
            (b"n", 256),
            (b"\n", 1),
        ],
        status: 0,
        written: b"report 1\ncall 1 session s line 11 places 1 ok\ncall 2 session s line 12 places 1 ok 1 nnnnnnnnnnnnnnnnnnnnnnnnnnnnnnnnnnnnnnnnnnnnnnnnnnnnnnnnnnnnnnnnnnnnnnnnnnnnnnnnnnnnnnnnnnnnnnnnnnnnnnnnnnnnnnnnnnnnnnnnnnnnnnnnnnnnnnnnnnnnnnnnnnnnnnnnnnnnnnnnnnnnnnnnnnnnnnnnnnnnnnnnnnnnnnnnnnnnnnnnnnnnnnnnnnnnnnnnnnnnnnnnnnnnnnnnnnnnnnnnnnnnnnnnnnnnnnn/dir\ncall 3 session s line 13 places 1,1 error 2 ENOENT\ncall 4 session s line 14 places 1 error 36 ENAMETOOLONG\nhistory 1\nentry 1 call 1 part 1\ngraph 1 g winds 44 ended 44 drained\nend\n",
    },
    Row {
        name: "sessions_that_make_one_name_wait_for_one_another",
        words: &["run", "1"],
        volume: Volume::One,
        script: &[(
            b"phase\ndo a mkdir /x 755\ndo b mkdir /x 700\ndo c mkdir /x 711\ndo d rmdir /x\nphase\ndo a list /\n",
            1,
        )],
        status: 0,
        written: b"report 1\ncall 1 session d line 14 places 0 error 2 ENOENT\ncall 2 session b line 12 places 1 ok\ncall 3 session a line 11 places 1 error 17 EEXIST\ncall 4 session c line 13 places 1 error 17 EEXIST\ncall 5 session a line 16 places 1 ok 1 x/dir\nhistory 1\nentry 1 call 2 part 1\ngraph 1 g winds 51 ended 51 drained\nend\n",
    },
    Row {
        name: "a_reader_beside_a_writer_sees_all_of_a_write_or_nothing",
        words: &["run", "5"],
        volume: Volume::One,
        script: &[(
            b"phase\ndo a create 1 /f 644\nphase\ndo b open 1 /f\nphase\ndo a write 1 r:8:61\ndo b read 1 8\ndo c stat /f\n",
            1,
        )],
        status: 0,
        written: b"report 1\ncall 1 session a line 11 places 1 ok\ncall 2 session b line 13 places 1,1 ok\ncall 3 session c line 17 places 1,2 ok file 644 8\ncall 4 session b line 16 places 1 ok x:\ncall 5 session a line 15 places 2 ok 8\nhistory 2\nentry 1 call 1 part 1\nentry 2 call 5 part 1\ngraph 1 g winds 69 ended 69 drained\nend\n",
    },
    Row {
        name: "a_directory_that_was_removed_while_calls_waited_for_it",
        words: &["run", "7"],
        volume: Volume::One,
        script: &[(
            b"phase\ndo a mkdir /d 755\nphase\ndo a list /d\ndo b rmdir /d\ndo c mkdir /d/x 755\ndo e chmod /d 700\n",
            1,
        )],
        status: 0,
        written: b"report 1\ncall 1 session a line 11 places 1 ok\ncall 2 session e line 16 places 1,2 ok\ncall 3 session a line 13 places 1,3 error 2 ENOENT\ncall 4 session c line 15 places 1,3 error 2 ENOENT\ncall 5 session b line 14 places 3 ok\nhistory 3\nentry 1 call 1 part 1\nentry 2 call 2 part 1\nentry 3 call 5 part 1\ngraph 1 g winds 97 ended 97 drained\nend\n",
    },
];

// Errors of calls, each in its order.
const ERRORS: [Row; 2] = [
    Row {
        name: "errors_of_rename",
        words: &["run", "1"],
        volume: Volume::One,
        script: &[
            (
                b"phase\ndo s mkdir /d 755\ndo s create 1 /f 644\ndo s rename / /x\ndo s rename /f /\ndo s rename /f/x /y\ndo s rename /",
                1,
            ),
            (b"n", 256),
            (
                b" /y\ndo s rename /none /y\ndo s rename /none/x /f/y\ndo s rename /d /f/y\ndo s rename /f /f/y\ndo s rename /f /",
                1,
            ),
            (b"n", 256),
            (
                b"\ndo s rename /f /none/y\ndo s rename /f /d\ndo s list /\n",
                1,
            ),
        ],
        status: 0,
        written: b"report 1\ncall 1 session s line 11 places 1 ok\ncall 2 session s line 12 places 2 ok\ncall 3 session s line 13 places - error 95 EOPNOTSUPP\ncall 4 session s line 14 places - error 21 EISDIR\ncall 5 session s line 15 places 2,2 error 20 ENOTDIR\ncall 6 session s line 16 places 2 error 36 ENAMETOOLONG\ncall 7 session s line 17 places 2 error 2 ENOENT\ncall 8 session s line 18 places 2 error 2 ENOENT\ncall 9 session s line 19 places 2,2 error 95 EOPNOTSUPP\ncall 10 session s line 20 places 2,2 error 20 ENOTDIR\ncall 11 session s line 21 places 2 error 36 ENAMETOOLONG\ncall 12 session s line 22 places 2 error 2 ENOENT\ncall 13 session s line 23 places 2 error 21 EISDIR\ncall 14 session s line 24 places 2 ok 2 d/dir f/file\nhistory 2\nentry 1 call 1 part 1\nentry 2 call 2 part 1\ngraph 1 g winds 135 ended 135 drained\nend\n",
    },
    Row {
        name: "errors_of_calls_on_descriptors",
        words: &["run", "1"],
        volume: Volume::One,
        script: &[(
            b"phase\ndo s create 1 /f 644\ndo s read 2 1\ndo s write 2 t:a\ndo s write 2 t:\ndo s seek 2 65537\ndo s close 2\ndo s seek 1 65537\ndo s seek 1 65536\ndo s write 1 t:\ndo s write 1 t:a\ndo s read 1 1\ndo t read 1 1\n",
            1,
        )],
        status: 0,
        written: b"report 1\ncall 1 session s line 11 places 1 ok\ncall 2 session t line 22 places - error 9 EBADF\ncall 3 session s line 12 places - error 9 EBADF\ncall 4 session s line 13 places - error 9 EBADF\ncall 5 session s line 14 places - error 9 EBADF\ncall 6 session s line 15 places - error 9 EBADF\ncall 7 session s line 16 places - error 9 EBADF\ncall 8 session s line 17 places - error 22 EINVAL\ncall 9 session s line 18 places - ok 65536\ncall 10 session s line 19 places 1 ok 0\ncall 11 session s line 20 places 1 error 27 EFBIG\ncall 12 session s line 21 places 1 ok x:\nhistory 1\nentry 1 call 1 part 1\ngraph 1 g winds 29 ended 29 drained\nend\n",
    },
];

// Limits, and words that are no command.
const LIMITS: [Row; 12] = [
    Row {
        name: "a_write_past_65536_bytes_is_too_big",
        words: &["run", "1"],
        volume: Volume::One,
        script: &[(
            b"phase\ndo s create 1 /f 600\ndo s write 1 z:65536\ndo s write 1 t:a\n",
            1,
        )],
        status: 0,
        written: b"report 1\ncall 1 session s line 11 places 1 ok\ncall 2 session s line 12 places 2 ok 65536\ncall 3 session s line 13 places 2 error 27 EFBIG\nhistory 2\nentry 1 call 1 part 1\nentry 2 call 2 part 1\ngraph 1 g winds 32 ended 32 drained\nend\n",
    },
    Row {
        name: "a_name_of_255_bytes_is_looked_for",
        words: &["run", "1"],
        volume: Volume::One,
        script: &[(b"phase\ndo s stat /", 1), (b"n", 255)],
        status: 0,
        written: b"report 1\ncall 1 session s line 11 places 0 error 2 ENOENT\nhistory 0\ngraph 1 g winds 8 ended 8 drained\nend\n",
    },
    Row {
        name: "a_line_of_140000_bytes_is_read",
        words: &["run", "1"],
        volume: Volume::One,
        script: &[(b"phase\ndo s stat /", 1), (b"n", 139989)],
        status: 0,
        written: b"report 1\ncall 1 session s line 11 places 0 error 36 ENAMETOOLONG\nhistory 0\ngraph 1 g winds 1 ended 1 drained\nend\n",
    },
    Row {
        name: "a_line_of_140001_bytes_is_too_long",
        words: &["run", "1"],
        volume: Volume::One,
        script: &[(b"phase\ndo s stat /", 1), (b"n", 139990)],
        status: 1,
        written: b"fault line 11 LongLine\n",
    },
    Row {
        name: "the_longest_path_of_a_line_is_run",
        words: &["run", "1"],
        volume: Volume::One,
        script: &[(b"phase\ndo s mkdir /d 755\ndo s stat ", 1), (b"/d", 69995)],
        status: 0,
        written: b"report 1\ncall 1 session s line 11 places 1 ok\ncall 2 session s line 12 places 1,1 error 2 ENOENT\nhistory 1\nentry 1 call 1 part 1\ngraph 1 g winds 35 ended 35 drained\nend\n",
    },
    Row {
        name: "calls_up_to_4096_are_accepted",
        words: &["check"],
        volume: Volume::One,
        script: &[(b"phase\n", 1), (b"do s stat /a\n", 4096)],
        status: 0,
        written: b"ok bricks 1 volfiles 1 phases 1 calls 4096\n",
    },
    Row {
        name: "call_number_4097_is_too_many",
        words: &["check"],
        volume: Volume::One,
        script: &[(b"phase\n", 1), (b"do s stat /a\n", 4097)],
        status: 1,
        written: b"fault line 4107 TooMany\n",
    },
    Row {
        name: "a_text_of_2097153_bytes_is_too_long",
        words: &["run", "1"],
        volume: Volume::Absent,
        script: &[(b"x", 2097153)],
        status: 1,
        written: b"fault line 0 TooLong\n",
    },
    Row {
        name: "a_text_of_2097152_bytes_is_read",
        words: &["run", "1"],
        volume: Volume::Absent,
        script: &[(b"x", 2097152)],
        status: 1,
        written: b"fault line 1 LongLine\n",
    },
    Row {
        name: "no_words_are_no_command",
        words: &[],
        volume: Volume::One,
        script: &[],
        status: 2,
        written: b"",
    },
    Row {
        name: "check_with_a_seed_is_no_command",
        words: &["check", "1"],
        volume: Volume::One,
        script: &[],
        status: 2,
        written: b"",
    },
    Row {
        name: "mount_without_a_worker_is_no_command",
        words: &["mount", "0"],
        volume: Volume::One,
        script: &[],
        status: 2,
        written: b"",
    },
];

// Three replicas, a common mount, and a cache.
const REPLICAS: [Row; 4] = [
    Row {
        name: "sessions_on_three_replicas",
        words: &["run", "3"],
        volume: Volume::Three,
        script: &[(
            b"phase\ndo a mkdir /x 755\ndo b mkdir /x 700\ndo c create 1 /f 644\nphase\ndo a list /\ndo b create 1 /x/f 600\ndo c write 1 t:abc\ndo a stat /f\n",
            1,
        )],
        status: 0,
        written: b"report 1\ncall 1 session b line 28 places 1 ok\ncall 2 session a line 27 places 1 error 17 EEXIST\ncall 3 session c line 29 places 2 ok\ncall 4 session b line 32 places 2,4 ok\ncall 5 session a line 31 places 2 ok 2 f/file x/dir\ncall 6 session c line 33 places 3 ok 3\ncall 7 session a line 34 places 2,4 ok file 644 3\nhistory 4\nentry 1 call 1 part 1\nentry 2 call 3 part 1\nentry 3 call 6 part 1\nentry 4 call 4 part 1\ngraph 1 g winds 255 ended 255 drained\nend\n",
    },
    Row {
        name: "a_file_on_three_replicas",
        words: &["run", "1"],
        volume: Volume::Three,
        script: &[(
            b"phase\ndo s mkdir /a 755\ndo s create 3 /a/f 644\ndo s write 3 t:hello\ndo s seek 3 0\ndo s read 3 10\ndo s stat /a/f\n",
            1,
        )],
        status: 0,
        written: b"report 1\ncall 1 session s line 27 places 1 ok\ncall 2 session s line 28 places 1,2 ok\ncall 3 session s line 29 places 3 ok 5\ncall 4 session s line 30 places - ok 0\ncall 5 session s line 31 places 3 ok x:68656c6c6f\ncall 6 session s line 32 places 3,3,3 ok file 644 5\nhistory 3\nentry 1 call 1 part 1\nentry 2 call 2 part 1\nentry 3 call 3 part 1\ngraph 1 g winds 208 ended 208 drained\nend\n",
    },
    Row {
        name: "the_volumes_of_a_common_mount_change_no_answer",
        words: &["run", "1"],
        volume: Volume::Common,
        script: &[(
            b"phase\ndo s mkdir /a 755\ndo s create 3 /a/f 644\ndo s write 3 t:hello\ndo s seek 3 0\ndo s read 3 10\ndo s stat /a/f\n",
            1,
        )],
        status: 0,
        written: b"report 1\ncall 1 session s line 62 places 1 ok\ncall 2 session s line 63 places 1,2 ok\ncall 3 session s line 64 places 3 ok 5\ncall 4 session s line 65 places - ok 0\ncall 5 session s line 66 places 3 ok x:68656c6c6f\ncall 6 session s line 67 places 3,3,3 ok file 644 5\nhistory 3\nentry 1 call 1 part 1\nentry 2 call 2 part 1\nentry 3 call 3 part 1\ngraph 1 g winds 248 ended 248 drained\nend\n",
    },
    Row {
        name: "held_pages_answer_without_a_brick",
        words: &["run", "1"],
        volume: Volume::Cached,
        script: &[(
            b"phase\ndo s create 1 /f 644\ndo s write 1 t:abc\ndo s seek 1 0\ndo s read 1 3\ndo s seek 1 0\nphase\ncontrol down b0 0\nphase\ndo s read 1 3\nphase\ndo s write 1 t:d\n",
            1,
        )],
        status: 0,
        written: b"report 1\ncall 1 session s line 15 places 1 ok\ncall 2 session s line 16 places 2 ok 3\ncall 3 session s line 17 places - ok 0\ncall 4 session s line 18 places 2 ok x:616263\ncall 5 session s line 19 places - ok 0\ncall 6 session s line 23 places 2 ok x:616263\ncall 7 session s line 25 places - error 107 ENOTCONN quorum c0 lost b0:1\nhistory 2\nentry 1 call 1 part 1\nentry 2 call 2 part 1\ngraph 1 g winds 46 ended 46 drained\nend\n",
    },
];

// Losses, faults, copies and heals.
const LOSSES: [Row; 12] = [
    Row {
        name: "two_of_three_bricks_down_are_no_quorum",
        words: &["run", "1"],
        volume: Volume::Three,
        script: &[(
            b"phase\ndo s create 1 /f 644\nphase\ncontrol down b1 0\ncontrol down b2 0\nphase\ndo s write 1 t:a\nphase\ncontrol up b1\ncontrol up b2\nphase\ndo s read 1 5\n",
            1,
        )],
        status: 0,
        written: b"report 1\ncall 1 session s line 27 places 1 ok\ncall 2 session s line 32 places - error 107 ENOTCONN quorum v-replicate-0 lost b1:1 b2:1\ncall 3 session s line 37 places 1 ok x:\nhistory 1\nentry 1 call 1 part 1\ngraph 1 g winds 69 ended 69 drained\nend\n",
    },
    Row {
        name: "a_change_that_bricks_carried_out_late_is_adopted",
        words: &["run", "1"],
        volume: Volume::Three,
        script: &[(
            b"phase\ndo s create 1 /f 644\nphase\ncontrol before b1 op 1 down b1 1\ncontrol before b2 op 1 down b2 1\ndo s write 1 t:a\nphase\ncontrol up b1\ncontrol up b2\nphase\ndo s seek 1 0\ndo s read 1 5\n",
            1,
        )],
        status: 0,
        written: b"report 1\ncall 1 session s line 27 places 1 ok\ncall 2 session s line 31 places - error 107 ENOTCONN quorum v-replicate-0 lost b1:1 b2:1\ncall 3 session s line 36 places - ok 0\ncall 4 session s line 37 places 2 ok x:61\nhistory 2\nentry 1 call 1 part 1\nentry 2 call 2 part 1\ngraph 1 g winds 103 ended 103 drained\nend\n",
    },
    Row {
        name: "a_connection_cut_behind_a_post_costs_nothing",
        words: &["run", "1"],
        volume: Volume::Three,
        script: &[(
            b"phase\ndo s create 1 /f 644\nphase\ncontrol after b1 post 1 cut b1\ndo s write 1 t:a\nphase\ncontrol up b1\nphase\ndo s write 1 t:b\n",
            1,
        )],
        status: 0,
        written: b"report 1\ncall 1 session s line 27 places 1 ok\ncall 2 session s line 30 places 2 ok 1\ncall 3 session s line 34 places 3 ok 1\nhistory 3\nentry 1 call 1 part 1\nentry 2 call 2 part 1\nentry 3 call 3 part 1\ngraph 1 g winds 109 ended 109 drained\nend\n",
    },
    Row {
        name: "a_settling_that_was_stopped_twice_drops_the_change",
        words: &["run", "1"],
        volume: Volume::Three,
        script: &[(
            b"phase\ndo s create 1 /f 644\nphase\ncontrol before b0 op 1 down b0 0\ncontrol before b1 op 1 down b1 0\ndo s write 1 t:a\nphase\ncontrol up b1\nphase\ncontrol before b2 settle 1 down b2 0\ndo s read 1 5\nphase\ncontrol down b1 0\ncontrol up b0\ncontrol up b2\nphase\ncontrol before b2 settle 1 down b2 0\ndo s read 1 5\nphase\ncontrol up b1\ncontrol up b2\nphase\ndo s read 1 5\n",
            1,
        )],
        status: 0,
        written: b"report 1\ncall 1 session s line 27 places 1 ok\ncall 2 session s line 31 places - error 107 ENOTCONN quorum v-replicate-0 lost b0:1 b1:1\ncall 3 session s line 36 places - error 107 ENOTCONN quorum v-replicate-0 lost b0:1 b2:1\ncall 4 session s line 43 places - error 107 ENOTCONN quorum v-replicate-0 lost b1:2 b2:2\ncall 5 session s line 48 places 1 ok x:\nhistory 1\nentry 1 call 1 part 1\nheal 00000000000000000000000000000002/data from b0 to b2\ngraph 1 g winds 137 ended 137 drained\nend\n",
    },
    Row {
        name: "two_bricks_that_accuse_each_other_are_split_until_the_third_is_back",
        words: &["run", "1"],
        volume: Volume::Three,
        script: &[(
            b"phase\ndo s create 1 /f 644\ndo s write 1 t:a\nphase\ncontrol down b2 0\nphase\ndo s write 1 t:b\nphase\ncontrol down b1 0\ncontrol up b2\nphase\ndo s write 1 t:c\nphase\ncontrol down b0 0\ncontrol up b1\nphase\ndo s seek 1 0\ndo s read 1 9\nphase\ncontrol up b0\nphase\ndo s read 1 9\n",
            1,
        )],
        status: 0,
        written: b"report 1\ncall 1 session s line 27 places 1 ok\ncall 2 session s line 28 places 2 ok 1\ncall 3 session s line 32 places 3 ok 1\ncall 4 session s line 37 places 4 ok 1\ncall 5 session s line 42 places - ok 0\ncall 6 session s line 43 places - error 5 EIO split v-replicate-0 row 00000000000000000000000000000002/data b1 1 0 0,0,1 3 row 00000000000000000000000000000002/data b2 1 0 0,1,0 4\ncall 7 session s line 47 places 4 ok x:616263\nhistory 4\nentry 1 call 1 part 1\nentry 2 call 2 part 1\nentry 3 call 3 part 1\nentry 4 call 4 part 1\nheal 00000000000000000000000000000002/data from b0 to b2\ngraph 1 g winds 157 ended 157 drained\nend\n",
    },
    Row {
        name: "a_heal_copies_what_a_brick_missed",
        words: &["run", "1"],
        volume: Volume::Three,
        script: &[(
            b"phase\ndo s create 1 /f 644\nphase\ncontrol down b2 0\nphase\ndo s write 1 t:hi\nphase\ncontrol up b2\nphase\ncontrol heal\n",
            1,
        )],
        status: 0,
        written: b"report 1\ncall 1 session s line 27 places 1 ok\ncall 2 session s line 31 places 2 ok 2\nhistory 2\nentry 1 call 1 part 1\nentry 2 call 2 part 1\nheal 00000000000000000000000000000002/data from b0 to b2\ngraph 1 g winds 139 ended 139 drained\nend\n",
    },
    Row {
        name: "a_heal_goes_on_from_the_next_sound_brick",
        words: &["run", "1"],
        volume: Volume::Three,
        script: &[(
            b"phase\ndo s create 1 /f 644\nphase\ncontrol down b2 0\nphase\ndo s write 1 t:hi\nphase\ncontrol up b2\nphase\ncontrol before b0 fetch 1 down b0 0\ncontrol heal\n",
            1,
        )],
        status: 0,
        written: b"report 1\ncall 1 session s line 27 places 1 ok\ncall 2 session s line 31 places 2 ok 2\nhistory 2\nentry 1 call 1 part 1\nentry 2 call 2 part 1\nheal 00000000000000000000000000000002/data from b1 to b2\ngraph 1 g winds 133 ended 133 drained\nend\n",
    },
    Row {
        name: "a_heal_of_a_large_file",
        words: &["run", "1"],
        volume: Volume::Three,
        script: &[(
            b"phase\ndo s create 1 /f 644\nphase\ndo s write 1 z:65536\nphase\ncontrol down b2 0\nphase\ndo s seek 1 8192\ndo s write 1 t:x\nphase\ncontrol up b2\nphase\ncontrol heal\n",
            1,
        )],
        status: 0,
        written: b"report 1\ncall 1 session s line 27 places 1 ok\ncall 2 session s line 29 places 2 ok 65536\ncall 3 session s line 33 places - ok 8192\ncall 4 session s line 34 places 3 ok 1\nhistory 3\nentry 1 call 1 part 1\nentry 2 call 2 part 1\nentry 3 call 4 part 1\nheal 00000000000000000000000000000002/data from b0 to b2\ngraph 1 g winds 171 ended 171 drained\nend\n",
    },
    Row {
        name: "a_write_copies_to_a_brick_that_missed_one_before",
        words: &["run", "1"],
        volume: Volume::Three,
        script: &[(
            b"phase\ndo s create 1 /f 644\nphase\ncontrol down b2 0\nphase\ndo s write 1 t:a\nphase\ncontrol up b2\nphase\ndo s write 1 t:b\n",
            1,
        )],
        status: 0,
        written: b"report 1\ncall 1 session s line 27 places 1 ok\ncall 2 session s line 31 places 2 ok 1\ncall 3 session s line 35 places 3 ok 1\nhistory 3\nentry 1 call 1 part 1\nentry 2 call 2 part 1\nentry 3 call 3 part 1\nheal 00000000000000000000000000000002/data from b0 to b2\ngraph 1 g winds 111 ended 111 drained\nend\n",
    },
    Row {
        name: "two_faults_are_reported_with_their_places",
        words: &["run", "1"],
        volume: Volume::Three,
        script: &[(
            b"phase\ndo s create 1 /f 644\nphase\ncontrol fault b0 op 1\ncontrol fault b1 op 1\nphase\ndo s write 1 t:a\nphase\ndo s read 1 5\n",
            1,
        )],
        status: 0,
        written: b"report 1\ncall 1 session s line 27 places 1 ok\ncall 2 session s line 32 places - error 5 EIO fault v-replicate-0 fault b0:14 b1:13\ncall 3 session s line 34 places 1 ok x:\nhistory 1\nentry 1 call 1 part 1\nheal 00000000000000000000000000000002/data from b0 to b2\ngraph 1 g winds 117 ended 117 drained\nend\n",
    },
    Row {
        name: "a_fault_of_a_lone_brick",
        words: &["run", "1"],
        volume: Volume::One,
        script: &[(
            b"phase\ndo s create 1 /f 644\nphase\ncontrol fault b0 mark 1\nphase\ndo s write 1 t:a\ndo s write 1 t:a\n",
            1,
        )],
        status: 0,
        written: b"report 1\ncall 1 session s line 11 places 1 ok\ncall 2 session s line 15 places - error 5 EIO fault c0 fault b0:12\ncall 3 session s line 16 places 2 ok 1\nhistory 2\nentry 1 call 1 part 1\nentry 2 call 3 part 1\ngraph 1 g winds 39 ended 39 drained\nend\n",
    },
    Row {
        name: "a_lone_brick_settles_a_change_that_it_carried_out_late",
        words: &["run", "1"],
        volume: Volume::One,
        script: &[(
            b"phase\ndo s create 1 /f 600\nphase\ncontrol before b0 op 1 down b0 1\ndo s write 1 t:a\nphase\ncontrol up b0\nphase\ndo s read 1 5\n",
            1,
        )],
        status: 0,
        written: b"report 1\ncall 1 session s line 11 places 1 ok\ncall 2 session s line 14 places - error 107 ENOTCONN quorum c0 lost b0:1\ncall 3 session s line 18 places 2 ok x:61\nhistory 2\nentry 1 call 1 part 1\nentry 2 call 2 part 1\ngraph 1 g winds 41 ended 41 drained\nend\n",
    },
];

// Two sets, and switches.
const SETS: [Row; 7] = [
    Row {
        name: "a_renamed_file_is_found_by_a_link",
        words: &["run", "1"],
        volume: Volume::Six,
        script: &[(
            b"phase\ndo s create 1 /fo 644\ndo s rename /fo /foo\ndo s stat /foo\n",
            1,
        )],
        status: 0,
        written: b"report 1\ncall 1 session s line 53 places 1 ok\ncall 2 session s line 54 places 2 ok\ncall 3 session s line 55 places 2,2 ok file 644 0\nhistory 2\nentry 1 call 1 part 1\nentry 2 call 2 part 2\ngraph 1 g winds 219 ended 219 drained\nend\n",
    },
    Row {
        name: "a_renamed_file_without_a_link_is_found_everywhere",
        words: &["run", "1"],
        volume: Volume::Six,
        script: &[(
            b"phase\ndo s create 1 /fo 644\nphase\ncontrol before b4 mark 1 down b4 0\ncontrol before b5 mark 1 down b5 0\ndo s rename /fo /foo\nphase\ncontrol up b4\ncontrol up b5\nphase\ndo s stat /foo\n",
            1,
        )],
        status: 0,
        written: b"report 1\ncall 1 session s line 53 places 1 ok\ncall 2 session s line 57 places 2 ok\ncall 3 session s line 62 places 2,2 ok file 644 0\nhistory 2\nentry 1 call 1 part 1\nentry 2 call 2 part 2\ngraph 1 g winds 203 ended 203 drained\nend\n",
    },
    Row {
        name: "a_rename_over_a_file_of_another_set_has_two_parts",
        words: &["run", "1"],
        volume: Volume::Six,
        script: &[(
            b"phase\ndo s create 1 /fo 644\ndo s create 2 /foo 644\ndo s rename /fo /foo\n",
            1,
        )],
        status: 0,
        written: b"report 1\ncall 1 session s line 53 places 1 ok\ncall 2 session s line 54 places 2 ok\ncall 3 session s line 55 places 4 ok\nhistory 4\nentry 1 call 1 part 1\nentry 2 call 2 part 1\nentry 3 call 3 part 1\nentry 4 call 3 part 2\ngraph 1 g winds 263 ended 263 drained\nend\n",
    },
    Row {
        name: "a_rename_that_lost_its_set_has_one_part",
        words: &["run", "1"],
        volume: Volume::Six,
        script: &[(
            b"phase\ndo s create 1 /fo 644\ndo s create 2 /foo 644\nphase\ncontrol before b1 mark 1 down b1 0\ncontrol before b2 mark 1 down b2 0\ndo s rename /fo /foo\n",
            1,
        )],
        status: 0,
        written: b"report 1\ncall 1 session s line 53 places 1 ok\ncall 2 session s line 54 places 2 ok\ncall 3 session s line 58 places - error 107 ENOTCONN quorum v-replicate-0 lost b1:1 b2:1\nhistory 3\nentry 1 call 1 part 1\nentry 2 call 2 part 1\nentry 3 call 3 part 1\ngraph 1 g winds 216 ended 216 drained\nend\n",
    },
    Row {
        name: "a_switch_in_the_midst_of_a_write",
        words: &["run", "1"],
        volume: Volume::Twice,
        script: &[(
            b"phase\ndo s create 1 /f 644\ndo s write 1 t:abc\ndo s seek 1 1\nphase\ncontrol after b0 post 1 switch h\ndo s write 1 t:X\nphase\ndo s read 1 5\n",
            1,
        )],
        status: 0,
        written: b"report 1\ncall 1 session s line 48 places 1 ok\ncall 2 session s line 49 places 2 ok 3\ncall 3 session s line 50 places - ok 1\ncall 4 session s line 53 places 3 ok 1\ncall 5 session s line 55 places 3 ok x:63\nhistory 3\nentry 1 call 1 part 1\nentry 2 call 2 part 1\nentry 3 call 4 part 1\ngraph 1 g winds 111 ended 111 drained\ngraph 2 h winds 24 ended 24 drained\nend\n",
    },
    Row {
        name: "a_switch_and_back",
        words: &["run", "1"],
        volume: Volume::Twice,
        script: &[(
            b"phase\ndo s create 1 /f 644\ndo s write 1 t:abc\ndo s seek 1 1\nphase\ncontrol after b0 post 1 switch h\ndo s write 1 t:X\nphase\ndo s read 1 5\nphase\ncontrol switch g\n",
            1,
        )],
        status: 0,
        written: b"report 1\ncall 1 session s line 48 places 1 ok\ncall 2 session s line 49 places 2 ok 3\ncall 3 session s line 50 places - ok 1\ncall 4 session s line 53 places 3 ok 1\ncall 5 session s line 55 places 3 ok x:63\nhistory 3\nentry 1 call 1 part 1\nentry 2 call 2 part 1\nentry 3 call 4 part 1\ngraph 1 g winds 111 ended 111 drained\ngraph 2 h winds 24 ended 24 drained\ngraph 3 g winds 8 ended 8 drained\nend\n",
    },
    Row {
        name: "a_descriptor_of_a_file_without_a_name_lives_through_a_switch",
        words: &["run", "1"],
        volume: Volume::Twice,
        script: &[(
            b"phase\ndo s create 1 /f 644\ndo s write 1 t:abc\ndo s seek 1 1\nphase\ndo s unlink /f\nphase\ncontrol switch h\nphase\ndo s read 1 5\n",
            1,
        )],
        status: 0,
        written: b"report 1\ncall 1 session s line 48 places 1 ok\ncall 2 session s line 49 places 2 ok 3\ncall 3 session s line 50 places - ok 1\ncall 4 session s line 52 places 3 ok\ncall 5 session s line 56 places 3 ok x:6263\nhistory 3\nentry 1 call 1 part 1\nentry 2 call 2 part 1\nentry 3 call 4 part 1\ngraph 1 g winds 126 ended 126 drained\ngraph 2 h winds 24 ended 24 drained\nend\n",
    },
];

// Scripts that are judged.
const CHECKED: [Row; 4] = [
    Row {
        name: "check_counts_bricks_volfiles_phases_and_calls",
        words: &["check"],
        volume: Volume::Common,
        script: &[(b"phase\ndo s stat /\nphase\ndo s stat /\n", 1)],
        status: 0,
        written: b"ok bricks 3 volfiles 1 phases 2 calls 2\n",
    },
    Row {
        name: "a_subvolume_that_is_not_defined",
        words: &["check"],
        volume: Volume::Absent,
        script: &[(
            b"brick b0 h /b0\nvolfile g\nvolume d\ntype cluster/distribute\nsubvolumes c0\nend-volume\nend-volfile\nstart g\n",
            1,
        )],
        status: 1,
        written: b"fault line 5 VolUnknownSubvolume\n",
    },
    Row {
        name: "an_empty_text_has_no_start",
        words: &["check"],
        volume: Volume::Absent,
        script: &[],
        status: 1,
        written: b"fault line 0 NoStart\n",
    },
    Row {
        name: "four_replicas_are_no_set",
        words: &["check"],
        volume: Volume::Absent,
        script: &[(
            b"brick b0 h0 /b\nbrick b1 h1 /b\nbrick b2 h2 /b\nbrick b3 h3 /b\nbrick b4 h4 /b\nvolfile g\nvolume v-client-0\ntype protocol/client\noption remote-host h0\noption remote-subvolume /b\nend-volume\nvolume v-client-1\ntype protocol/client\noption remote-host h1\noption remote-subvolume /b\nend-volume\nvolume v-client-2\ntype protocol/client\noption remote-host h2\noption remote-subvolume /b\nend-volume\nvolume v-client-3\ntype protocol/client\noption remote-host h3\noption remote-subvolume /b\nend-volume\nvolume v-client-4\ntype protocol/client\noption remote-host h4\noption remote-subvolume /b\nend-volume\nvolume v-replicate-0\ntype cluster/replicate\nsubvolumes v-client-0 v-client-1 v-client-2 v-client-3\nend-volume\nend-volfile\nstart g\n",
            1,
        )],
        status: 1,
        written: b"fault line 32 PlanBadReplica\n",
    },
];

// Scripts with a report behind them.
const REPLAYED: [Row; 7] = [
    Row {
        name: "a_report_of_a_run_is_lawful",
        words: &["replay"],
        volume: Volume::Three,
        script: &[(
            b"phase\ndo s mkdir /a 755\ndo s create 3 /a/f 644\ndo s write 3 t:hello\ndo s seek 3 0\ndo s read 3 10\ndo s stat /a/f\nreport 1\ncall 1 session s line 27 places 1 ok\ncall 2 session s line 28 places 1,2 ok\ncall 3 session s line 29 places 3 ok 5\ncall 4 session s line 30 places - ok 0\ncall 5 session s line 31 places 3 ok x:68656c6c6f\ncall 6 session s line 32 places 3,3,3 ok file 644 5\nhistory 3\nentry 1 call 1 part 1\nentry 2 call 2 part 1\nentry 3 call 3 part 1\ngraph 1 g winds 208 ended 208 drained\nend\n",
            1,
        )],
        status: 0,
        written: b"lawful\n",
    },
    Row {
        name: "a_write_without_its_entry_is_unlawful",
        words: &["replay"],
        volume: Volume::Three,
        script: &[(
            b"phase\ndo s mkdir /a 755\ndo s create 3 /a/f 644\ndo s write 3 t:hello\ndo s seek 3 0\ndo s read 3 10\ndo s stat /a/f\nreport 1\ncall 1 session s line 27 places 1 ok\ncall 2 session s line 28 places 1,2 ok\ncall 3 session s line 29 places 3 ok 5\ncall 4 session s line 30 places - ok 0\ncall 5 session s line 31 places 3 ok x:68656c6c6f\ncall 6 session s line 32 places 3,3,3 ok file 644 5\nhistory 2\nentry 1 call 1 part 1\nentry 2 call 2 part 1\ngraph 1 g winds 208 ended 208 drained\nend\n",
            1,
        )],
        status: 6,
        written: b"unlawful call 3\n",
    },
    Row {
        name: "a_read_of_other_bytes_is_unlawful",
        words: &["replay"],
        volume: Volume::Three,
        script: &[(
            b"phase\ndo s mkdir /a 755\ndo s create 3 /a/f 644\ndo s write 3 t:hello\ndo s seek 3 0\ndo s read 3 10\ndo s stat /a/f\nreport 1\ncall 1 session s line 27 places 1 ok\ncall 2 session s line 28 places 1,2 ok\ncall 3 session s line 29 places 3 ok 5\ncall 4 session s line 30 places - ok 0\ncall 5 session s line 31 places 3 ok x:68\ncall 6 session s line 32 places 3,3,3 ok file 644 5\nhistory 3\nentry 1 call 1 part 1\nentry 2 call 2 part 1\nentry 3 call 3 part 1\ngraph 1 g winds 208 ended 208 drained\nend\n",
            1,
        )],
        status: 6,
        written: b"unlawful call 5\n",
    },
    Row {
        name: "an_entry_of_another_call_is_unlawful",
        words: &["replay"],
        volume: Volume::Three,
        script: &[(
            b"phase\ndo s mkdir /a 755\ndo s create 3 /a/f 644\ndo s write 3 t:hello\ndo s seek 3 0\ndo s read 3 10\ndo s stat /a/f\nreport 1\ncall 1 session s line 27 places 1 ok\ncall 2 session s line 28 places 1,2 ok\ncall 3 session s line 29 places 3 ok 5\ncall 4 session s line 30 places - ok 0\ncall 5 session s line 31 places 3 ok x:68656c6c6f\ncall 6 session s line 32 places 3,3,3 ok file 644 5\nhistory 3\nentry 1 call 1 part 1\nentry 2 call 1 part 1\nentry 3 call 3 part 1\ngraph 1 g winds 208 ended 208 drained\nend\n",
            1,
        )],
        status: 6,
        written: b"unlawful entry 2\n",
    },
    Row {
        name: "a_script_alone_has_no_report",
        words: &["replay"],
        volume: Volume::Three,
        script: &[(
            b"phase\ndo s mkdir /a 755\ndo s create 3 /a/f 644\ndo s write 3 t:hello\ndo s seek 3 0\ndo s read 3 10\ndo s stat /a/f\n",
            1,
        )],
        status: 1,
        written: b"fault line 32 NoReport\n",
    },
    Row {
        name: "a_report_with_a_line_of_none",
        words: &["replay"],
        volume: Volume::Three,
        script: &[(
            b"phase\ndo s mkdir /a 755\ndo s create 3 /a/f 644\ndo s write 3 t:hello\ndo s seek 3 0\ndo s read 3 10\ndo s stat /a/f\nreport 1\ncall 1 session s line 27 places 1 ok\ncall 2 session s line 28 places 1,2 ok\ncall 3 session s line 29 places 3 ok 5\ncall 4 session s line 30 places - ok 0\ncall 5 session s line 31 places 3 ok x:68656c6c6f\ncall 6 session s line 32 places 3,3,3 ok file 644 5\nhistory three\nentry 1 call 1 part 1\nentry 2 call 2 part 1\nentry 3 call 3 part 1\ngraph 1 g winds 208 ended 208 drained\nend\n",
            1,
        )],
        status: 1,
        written: b"fault line 40 BadReport\n",
    },
    Row {
        name: "a_script_that_is_refused_is_not_judged",
        words: &["replay"],
        volume: Volume::Three,
        script: &[(
            b"phase\ndo s mkdir /a 755\ndo s create 3 /a/f 644\ndo s write 3 t:hello\ndo s seek 3 0\ndo s read 3 10\ndo s stat a/f\nreport 1\ncall 1 session s line 27 places 1 ok\ncall 2 session s line 28 places 1,2 ok\ncall 3 session s line 29 places 3 ok 5\ncall 4 session s line 30 places - ok 0\ncall 5 session s line 31 places 3 ok x:68656c6c6f\ncall 6 session s line 32 places 3,3,3 ok file 644 5\nhistory 3\nentry 1 call 1 part 1\nentry 2 call 2 part 1\nentry 3 call 3 part 1\ngraph 1 g winds 208 ended 208 drained\nend\n",
            1,
        )],
        status: 1,
        written: b"fault line 32 BadWord\n",
    },
];

// Runs by threads.
const MOUNTED: [Row; 3] = [
    Row {
        name: "threads_give_the_same_report",
        words: &["mount", "2"],
        volume: Volume::Three,
        script: &[(
            b"phase\ndo s mkdir /a 755\ndo s create 3 /a/f 644\ndo s write 3 t:hello\ndo s seek 3 0\ndo s read 3 10\ndo s stat /a/f\n",
            1,
        )],
        status: 0,
        written: b"report 1\ncall 1 session s line 27 places 1 ok\ncall 2 session s line 28 places 1,2 ok\ncall 3 session s line 29 places 3 ok 5\ncall 4 session s line 30 places - ok 0\ncall 5 session s line 31 places 3 ok x:68656c6c6f\ncall 6 session s line 32 places 3,3,3 ok file 644 5\nhistory 3\nentry 1 call 1 part 1\nentry 2 call 2 part 1\nentry 3 call 3 part 1\ngraph 1 g winds 208 ended 208 drained\nend\n",
    },
    Row {
        name: "threads_and_a_split",
        words: &["mount", "2"],
        volume: Volume::Three,
        script: &[(
            b"phase\ndo s create 1 /f 644\ndo s write 1 t:a\nphase\ncontrol down b2 0\nphase\ndo s write 1 t:b\nphase\ncontrol down b1 0\ncontrol up b2\nphase\ndo s write 1 t:c\nphase\ncontrol down b0 0\ncontrol up b1\nphase\ndo s seek 1 0\ndo s read 1 9\nphase\ncontrol up b0\nphase\ndo s read 1 9\n",
            1,
        )],
        status: 0,
        written: b"report 1\ncall 1 session s line 27 places 1 ok\ncall 2 session s line 28 places 2 ok 1\ncall 3 session s line 32 places 3 ok 1\ncall 4 session s line 37 places 4 ok 1\ncall 5 session s line 42 places - ok 0\ncall 6 session s line 43 places - error 5 EIO split v-replicate-0 row 00000000000000000000000000000002/data b1 1 0 0,0,1 3 row 00000000000000000000000000000002/data b2 1 0 0,1,0 4\ncall 7 session s line 47 places 4 ok x:616263\nhistory 4\nentry 1 call 1 part 1\nentry 2 call 2 part 1\nentry 3 call 3 part 1\nentry 4 call 4 part 1\nheal 00000000000000000000000000000002/data from b0 to b2\ngraph 1 g winds 157 ended 157 drained\nend\n",
    },
    Row {
        name: "threads_and_a_switch",
        words: &["mount", "2"],
        volume: Volume::Twice,
        script: &[(
            b"phase\ndo s create 1 /f 644\ndo s write 1 t:abc\ndo s seek 1 1\nphase\ncontrol after b0 post 1 switch h\ndo s write 1 t:X\nphase\ndo s read 1 5\n",
            1,
        )],
        status: 0,
        written: b"report 1\ncall 1 session s line 48 places 1 ok\ncall 2 session s line 49 places 2 ok 3\ncall 3 session s line 50 places - ok 1\ncall 4 session s line 53 places 3 ok 1\ncall 5 session s line 55 places 3 ok x:63\nhistory 3\nentry 1 call 1 part 1\nentry 2 call 2 part 1\nentry 3 call 4 part 1\ngraph 1 g winds 111 ended 111 drained\ngraph 2 h winds 24 ended 24 drained\nend\n",
    },
];

// The script of a row.
fn text(alloc: Global, row: &Row) -> Result<Vec<u8>, AllocError> {
    let mut text = Vec::from_slice(alloc, lines_of(row.volume))?;
    for (piece, times) in row.script {
        for _ in 0..*times {
            text.extend_from_slice(piece)?;
        }
    }
    Ok(text)
}

fn words(alloc: Global, words: &[&'static str]) -> Result<Vec<String>, AllocError> {
    let mut all = Vec::new(alloc);
    for word in words {
        all.push(String::from_str(alloc, word)?)?;
    }
    Ok(all)
}

// This status and these bytes are the row's.
fn end_as_written(rt: &impl Abort, row: &Row, status: u8, written: &[u8]) {
    assert!(rt; status == row.status, "status of {}", row.name);
    assert!(rt; written == row.written, "text of {}", row.name);
}

fn end_as_they_must(rt: &impl Abort, alloc: Global, rows: &[Row]) -> Result<(), Fail> {
    for row in rows {
        let words = words(alloc, row.words)?;
        let mut source = MemSource::new(text(alloc, row)?, Vec::new(alloc));
        let mut sink = MemSink::new(alloc, 100000, Vec::new(alloc))?;
        let mut rack = Rack::new(alloc);
        let status = top(alloc, words.as_slice(), &mut source, &mut sink, &mut rack);
        end_rack(rack);
        end_as_written(rt, row, status, sink.bytes());
    }
    Ok(())
}

fn end_by_threads(
    rt: &(impl Abort + Threads + Wait + Clock + Sync),
    alloc: Global,
    rows: &[Row],
) -> Result<(), Fail> {
    for row in rows {
        let words = words(alloc, row.words)?;
        let mut source = MemSource::new(text(alloc, row)?, Vec::new(alloc));
        let mut sink = MemSink::new(alloc, 100000, Vec::new(alloc))?;
        let mut rack = Rack::new(alloc);
        let status = top_mount(
            rt,
            alloc,
            words.as_slice(),
            &mut source,
            &mut sink,
            &mut rack,
        );
        end_rack(rack);
        end_as_written(rt, row, status, sink.bytes());
    }
    Ok(())
}

#[test]
fn calls_end_as_they_must(rt: HostRuntime) -> Result<(), Fail> {
    let alloc = rt.alloc();
    end_as_they_must(&rt, alloc, &CALLS)
}

#[test]
fn errors_end_as_they_must(rt: HostRuntime) -> Result<(), Fail> {
    let alloc = rt.alloc();
    end_as_they_must(&rt, alloc, &ERRORS)
}

#[test]
fn limits_end_as_they_must(rt: HostRuntime) -> Result<(), Fail> {
    let alloc = rt.alloc();
    end_as_they_must(&rt, alloc, &LIMITS)
}

#[test]
fn replicas_end_as_they_must(rt: HostRuntime) -> Result<(), Fail> {
    let alloc = rt.alloc();
    end_as_they_must(&rt, alloc, &REPLICAS)
}

#[test]
fn losses_end_as_they_must(rt: HostRuntime) -> Result<(), Fail> {
    let alloc = rt.alloc();
    end_as_they_must(&rt, alloc, &LOSSES)
}

#[test]
fn sets_end_as_they_must(rt: HostRuntime) -> Result<(), Fail> {
    let alloc = rt.alloc();
    end_as_they_must(&rt, alloc, &SETS)
}

#[test]
fn checks_end_as_they_must(rt: HostRuntime) -> Result<(), Fail> {
    let alloc = rt.alloc();
    end_as_they_must(&rt, alloc, &CHECKED)
}

#[test]
fn reports_are_judged(rt: HostRuntime) -> Result<(), Fail> {
    let alloc = rt.alloc();
    end_as_they_must(&rt, alloc, &REPLAYED)
}

#[test]
fn threads_give_the_same_reports(rt: HostRuntime) -> Result<(), Fail> {
    let alloc = rt.alloc();
    end_by_threads(&rt, alloc, &MOUNTED)
}

// A run of `ONE` whose source or sink fails at these calls, or whose sink has room for so many bytes.
struct Failing {
    source: &'static [u32],
    sink: &'static [u32],
    room: usize,
    status: u8,
    written: &'static [u8],
}

const FAILING: [Failing; 4] = [
    Failing {
        source: &[1],
        sink: &[],
        room: 100,
        status: 3,
        written: b"",
    },
    Failing {
        source: &[2],
        sink: &[],
        room: 100,
        status: 3,
        written: b"",
    },
    Failing {
        source: &[],
        sink: &[1],
        room: 100,
        status: 4,
        written: b"",
    },
    Failing {
        source: &[],
        sink: &[],
        room: 11,
        status: 4,
        written: b"report 1\nhi",
    },
];

#[test]
fn faults_of_the_ends_give_their_status(rt: HostRuntime) -> Result<(), Fail> {
    let alloc = rt.alloc();
    let words = words(alloc, &["run", "1"])?;
    for end in &FAILING {
        let source = Vec::from_slice(alloc, end.source)?;
        let mut source = MemSource::new(Vec::from_slice(alloc, ONE)?, source);
        let mut sink = MemSink::new(alloc, end.room, Vec::from_slice(alloc, end.sink)?)?;
        let mut rack = Rack::new(alloc);
        let status = top(alloc, words.as_slice(), &mut source, &mut sink, &mut rack);
        end_rack(rack);
        assert_eq!(rt; status, end.status);
        assert!(rt; sink.bytes() == end.written);
    }
    Ok(())
}
