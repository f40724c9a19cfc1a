ghost use Rattle.std.specs.Prelude.{◌≡◌, ◌≤◌, ◌↔◌, None, map};
ghost use Rattle.std.specs.String.{string_bytes};
ghost use Rattle.script_commands.specs.Commands.{command_of, mount_command, without_threads};

use crate::tops::{top, top_mount};
use hub_calls::Rack;
use run_commands::end_rack;
use script_commands::{HeadSink, Meaning, meaning_of};
use std::rt::Env;
use std::sync::Wait;
use std::thread::Threads;
use std::time::Clock;
use std::{env, io, str};
use xl_base::{StdSink, StdSource};

const USAGE: &str =
    "usage: vealepoch check|replay < SCRIPT, run SEED|mount WORKERS < SCRIPT, or gen N (see --help)";

const HELP: &str =
    "vealepoch reads a script that names bricks, volfiles and calls on a clustered volume
whose bricks live in memory, and judges it or runs it.

  vealepoch check          read a script from standard input and plan its volfiles, and
                           write one line: ok bricks B volfiles V phases P calls C
  vealepoch run SEED       run it in one thread, and write a report to standard output:
                           each call's reply with its places in the history, the history
                           of accepted changes, the healed copies and skips, and the winds
                           of each graph; SEED is a decimal number below 2^64, by which
                           the next event is chosen
  vealepoch mount WORKERS  run it by a thread for each brick and 1 to 16 that take the
                           hub's turns, and write the report
  vealepoch gen N          run the script that a number below 2^32 generates, and write
                           one line of what it did
  vealepoch replay         read a script with its report behind it, and write whether the
                           replies are those of one file system: lawful, or unlawful with
                           the first entry or the least call that is not
  vealepoch --help         this text
  vealepoch --version      the version

status 0  the script was read to its end and every line was answered, or accepted
       1  the text is refused; one line `fault line L KIND` is written, and standard
          error has what the kind means
       2  the words are no command; nothing is read or written
       3  reading failed; nothing is written
       4  writing failed; a prefix of the text is written
       5  out of memory; nothing is written
       6  replay judged the report unlawful, and says so in its line; or a run failed
          an audit of its own log, and nothing is written
       7  a run needed more than 4294967295 winds; nothing is written

example: vealepoch run 1 < examples/first.script

All formats and all kinds of refusals are in docs/FORMATS.md and in the manual page
docs/vealepoch.1 (man ./docs/vealepoch.1).
";

// The words after the program's name.
fn words<R: Env + AllocGlobal>(rt: &R) -> io::Result<Vec<String>> {
    let mut words = Vec::new(rt.alloc());
    let mut args = env::args(rt)?;
    let _name = args.next();
    for word in args {
        words.push(word)?;
    }
    Ok(words)
}

/// Carries out the command that the program's words name, and gives the status.
pub fn start<R: Env + Input + Print + Eprint + AllocGlobal + Threads + Wait + Clock + Sync>(
    rt: &R,
) -> u8 {
    match words(rt) {
        Ok(words) => choose(rt, words.as_slice()),
        Err(error) => {
            if error.kind() == io::ErrorKind::InvalidData {
                let _ = rt.eprintln("vealepoch: a word of the command line is not UTF-8");
                2
            } else {
                explain(rt, 5, b"")
            }
        }
    }
}

// Looks at the first word only.
fn choose<R: Input + Print + Eprint + AllocGlobal + Threads + Wait + Clock + Sync>(
    rt: &R,
    words: &[String],
) -> u8 {
    match words.first() {
        None => explain(rt, 2, b""),
        Some(word) => {
            let word = word.as_bytes();
            if word == b"--help".as_slice() {
                print(rt, HELP)
            } else if word == b"--version".as_slice() {
                print(rt, "vealepoch 0.1.0\n")
            } else if word == b"mount".as_slice() {
                carry_out_mount(rt, words)
            } else {
                carry_out(rt, words)
            }
        }
    }
}

fn print<R: Print + Eprint>(rt: &R, text: &str) -> u8 {
    match rt.print(text) {
        Ok(()) => 0,
        Err(_) => explain(rt, 4, b""),
    }
}

// Makes the top call over standard input and output, and explains its status.
fn carry_out<R: Input + Print + Eprint + AllocGlobal>(rt: &R, words: &[String]) -> u8
    ensures statuses { result ≤ 7 }
    ensures usage { (result ≡ 2) ↔ ((without_threads (command_of (map string_bytes words.now))) ≡ None) }
{
    let mut source = StdSource::new(rt.reader());
    let mut sink = HeadSink::new(StdSink::new(io::writer(rt)));
    let mut rack = Rack::new(rt.alloc());
    let status = top(rt.alloc(), words, &mut source, &mut sink, &mut rack);
    end_rack(rack);
    explain(rt, status, sink.head())
}

// The same by threads.
fn carry_out_mount<R: Input + Print + Eprint + AllocGlobal + Threads + Wait + Clock + Sync>(
    rt: &R,
    words: &[String],
) -> u8
    ensures statuses { result ≤ 7 }
    ensures usage { (result ≡ 2) ↔ ((mount_command (command_of (map string_bytes words.now))) ≡ None) }
{
    let mut source = StdSource::new(rt.reader());
    let mut sink = HeadSink::new(StdSink::new(io::writer(rt)));
    let mut rack = Rack::new(rt.alloc());
    let status = top_mount(rt, rt.alloc(), words, &mut source, &mut sink, &mut rack);
    end_rack(rack);
    explain(rt, status, sink.head())
}

// Says on standard error why the status is not 0; of a refusal `written` is the line that was written.
fn explain<R: Eprint>(rt: &R, status: u8, written: &[u8]) -> u8
    ensures { result ≡ status }
{
    let _ = match status {
        1 => explain_refusal(rt, written),
        2 => rt.eprintln(USAGE),
        3 => rt.eprintln("vealepoch: reading standard input failed"),
        4 => rt.eprintln("vealepoch: writing standard output failed"),
        5 => rt.eprintln("vealepoch: out of memory"),
        6 => explain_unlawful(rt, written),
        7 => rt.eprintln("vealepoch: the run needed more than 4294967295 winds"),
        _ => Ok(()),
    };
    status
}

// A replay has written its line; a run that failed an audit has written nothing.
fn explain_unlawful<R: Eprint>(rt: &R, written: &[u8]) -> io::Result<()> {
    if written.is_empty() {
        return rt.eprintln(
            "vealepoch: the log of the run failed an audit: please report the script",
        );
    }
    Ok(())
}

// The last word of a fault line is the kind.
fn explain_refusal<R: Eprint>(rt: &R, written: &[u8]) -> io::Result<()> {
    match str::from_utf8(written) {
        Ok(line) => match line.trim_end().rsplit_once(' ') {
            Some((place, kind)) => match meaning_of(kind) {
                Some(meaning) => print_meaning(rt, place, meaning),
                None => Ok(()),
            },
            None => Ok(()),
        },
        Err(_) => Ok(()),
    }
}

fn print_meaning<R: Eprint>(rt: &R, place: &str, meaning: &Meaning) -> io::Result<()> {
    eprintln!(rt; "vealepoch: {place}: {}", meaning.wrong)?;
    eprintln!(rt; "vealepoch: expected: {}", meaning.expected)?;
    eprintln!(rt;
        "vealepoch: {} is in docs/FORMATS.md, under \"{}\"",
        meaning.kind, meaning.part
    )
}
