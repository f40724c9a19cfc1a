//! The line that sums a generated run up.
ghost use Rattle.std.specs.Prelude.{◌≡◌, ◌<◌, ◌+◌, ◌-◌, ◌^◌, ◌++◌, if◌then◌else◌, OnOk, IfOk};
ghost use Rattle.std.specs.Fmt.{decimal};
ghost use Rattle.fop_types.specs.Replies.{is_ok};
ghost use Rattle.run_report.specs.Summaries.{summary_text, count_replies, is_app, is_io};
ghost use Rattle.mount_log.specs.Winds.{openings};

use fop_types::Answer;
use mount_log::{Log, ReplyLine, WindLine};
use std::alloc::{AllocError, Global};

// How many replies are results, errors that are defined for their calls, and I/O errors.
#[derive(Clone, Copy)]
struct Counts {
    ok: u64,
    app: u64,
    io: u64,
}

fn counts_of(replies: &[ReplyLine]) -> Counts
    ensures ok { result.ok ≡ count_replies is_ok replies.now }
    ensures app { result.app ≡ count_replies is_app replies.now }
    ensures io { result.io ≡ count_replies is_io replies.now }
{
    let mut counts = Counts {
        ok: 0,
        app: 0,
        io: 0,
    };
    for reply in replies {
        counts = counted(counts, &reply.answer);
    }
    counts
}

// The counts with one answer more.
fn counted(counts: Counts, answer: &Answer) -> Counts
    requires { counts.ok + counts.app + counts.io < 2 ^ 64 - 1 }
    ensures ok { result.ok ≡ counts.ok + (if is_ok answer.now then 1 else 0) }
    ensures app { result.app ≡ counts.app + (if is_app answer.now then 1 else 0) }
    ensures io { result.io ≡ counts.io + (if is_io answer.now then 1 else 0) }
{
    match answer {
        Answer::App(_) => Counts {
            app: counts.app + 1,
            ..counts
        },
        Answer::Io(_) => Counts {
            io: counts.io + 1,
            ..counts
        },
        _ => Counts {
            ok: counts.ok + 1,
            ..counts
        },
    }
}

/// How many winds lines open.
pub fn opened_in(winds: &[WindLine]) -> u64
    ensures { result ≡ openings winds.now }
{
    let mut count = 0;
    for wind in winds {
        if wind.opened {
            count += 1;
        }
    }
    count
}

fn add(alloc: Global, text: &mut Vec<u8>, word: &[u8], number: u64) -> Result<(), AllocError>
    ensures { OnOk result (text.new.items ≡ text.old.items ++ word.now ++ decimal number) }
{
    text.extend_from_slice(word)?;
    text.extend_from_slice(number.to_string(alloc)?.as_bytes())?;
    Ok(())
}

/// The line of a run of the script that a number generates.
///
/// # Errors
/// Out of memory.
pub fn summary_line(alloc: Global, number: u64, log: &Log) -> Result<Vec<u8>, AllocError>
    ensures { IfOk result (λ text. text.items ≡ summary_text number log.now) }
{
    let counts = counts_of(log.replies.as_slice());
    let mut text = Vec::new(alloc);
    add(alloc, &mut text, b"gen ", number)?;
    add(alloc, &mut text, b" calls ", log.replies.len() as u64)?;
    add(alloc, &mut text, b" ok ", counts.ok)?;
    add(alloc, &mut text, b" app ", counts.app)?;
    add(alloc, &mut text, b" io ", counts.io)?;
    add(alloc, &mut text, b" history ", log.history.len() as u64)?;
    add(
        alloc,
        &mut text,
        b" winds ",
        opened_in(log.winds.as_slice()),
    )?;
    text.extend_from_slice(b" drained\n")?;
    Ok(text)
}
