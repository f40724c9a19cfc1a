ghost use Rattle.std.specs.Prelude.{◌≡◌, ◌<◌, ◌≤◌, ◌-◌, ◌^◌, ◌↔◌, ◌⊎◌, Some, None, map};
ghost use Rattle.std.specs.String.{string_bytes};
ghost use Rattle.script_commands.specs.Commands.{command_of, without_threads, mount_command};
ghost use Rattle.script_commands.specs.declared.commands.Command.TheVariants.{Replay};
ghost use Rattle.run_commands.specs.CarriedOut.{Refused, RefusedUnwritten, WindsRanOut};
ghost use Rattle.run_commands.specs.Written.{empty_rack};
ghost use Rattle.mount_run.specs.Outcomes.{Succeeded, IsUnlawful, RunHeldBack, RefusedBy, Unwritten, Ran, RanUnwritten, RanBySeed, RanBySeedUnwritten, RanOutOfWinds};

use hub_calls::Rack;
use run_commands::{check, generate, mount_read, replay, run_read};
use script_commands::{Command, command_in, read_script, refuse_all};
use std::alloc::Global;
use std::sync::Wait;
use std::thread::Threads;
use std::time::Clock;
use xl_base::{Sink, Source};

/// Carries out a command on a script: `check` reads and plans it, and writes one line of what it has; `run SEED` runs it
/// too, and writes its report; `replay` judges a script with its report behind it, and writes one line of the verdict; and
/// `gen N` reads no script, but runs one that the program generates, and writes one line that sums the run up.
///
/// The words are those after the program's name. The result is the status: 0 the command was carried out and its text was
/// written; 1 the script is refused and its one fault line was written; 2 the words are no command, and nothing was read or
/// written; 3 the source failed, and nothing was written; 4 the sink failed, and a prefix of the text was written; 5 out of
/// memory, and nothing was written; 6 a replay judged the report unlawful, and the line that says so was written, or what a run
/// left failed an audit, and nothing was written (of `gen` also where the generated text is too long, or is refused); 7 the run
/// needed a further wind where 4,294,967,295 were opened, and nothing was written. The rack must be empty; after a run, and where
/// it needed a wind too many, it holds the bricks and the log of the run, and else it is empty still.
pub fn top<S: Source, K: Sink>(
    alloc: Global,
    words: &[String],
    source: &mut S,
    sink: &mut K,
    rack: &mut Rack,
) -> u8
    requires source { S.faults source.old < 2 ^ 64 - 1 }
    requires sink { K.faults sink.old < 2 ^ 64 - 1 }
    requires rack { rack.old ≡ empty_rack }

    ensures statuses { result ≤ 7 }
    ensures usage { (result ≡ 2) ↔ ((without_threads (command_of (map string_bytes words.now))) ≡ None) }
    ensures untouched { result ≡ 2 → (source.new ≡ source.old) × (sink.new ≡ sink.old) × (rack.new ≡ rack.old) }

    ensures succeeded { result ≡ 0 → Succeeded (without_threads (command_of (map string_bytes words.now))) (S.left source.old) (K.taken sink.old) (K.taken sink.new) rack.new }
    ensures refused { result ≡ 1 → RefusedBy (without_threads (command_of (map string_bytes words.now))) (S.left source.old) (K.taken sink.old) (K.taken sink.new) rack.new }
    ensures read_fault { result ≡ 3 → (S.faults source.old < S.faults source.new) × (sink.new ≡ sink.old) × (rack.new ≡ empty_rack) }
    ensures write_fault { result ≡ 4 → (K.faults sink.old < K.faults sink.new) × Unwritten (without_threads (command_of (map string_bytes words.now))) (S.left source.old) (K.taken sink.old) (K.taken sink.new) rack.new }
    ensures memory { result ≡ 5 → (sink.new ≡ sink.old) × (rack.new ≡ empty_rack) }
    ensures unlawful { result ≡ 6 → IsUnlawful (without_threads (command_of (map string_bytes words.now))) (S.left source.old) (K.taken sink.old) (K.taken sink.new) rack.new }
    ensures held_back { result ≡ 6 → (without_threads (command_of (map string_bytes words.now)) ≡ Some Replay) ⊎ (sink.new ≡ sink.old) }
    ensures winds { result ≡ 7 → (sink.new ≡ sink.old) × RanOutOfWinds (without_threads (command_of (map string_bytes words.now))) (S.left source.old) rack.new }
{
    match command_in(words) {
        None => 2,
        Some(Command::Mount(_)) => 2,
        Some(Command::Generate(number)) => generate(alloc, number, sink, rack),
        Some(Command::Replay) => replay(alloc, source, sink),
        Some(Command::Check) => check(alloc, source, sink),
        Some(Command::Run(seed)) => run(alloc, seed, source, sink, rack),
    }
}

// Reads a script, runs it by a seed's schedule, and writes its report.
fn run<S: Source, K: Sink>(
    alloc: Global,
    seed: u64,
    source: &mut S,
    sink: &mut K,
    rack: &mut Rack,
) -> u8
    requires source { S.faults source.old < 2 ^ 64 - 1 }
    requires sink { K.faults sink.old < 2 ^ 64 - 1 }
    requires rack { rack.old ≡ empty_rack }
    ensures statuses { result ≤ 7 }
    ensures no_usage { result ≡ 2 → ⊥ }
    ensures ran { result ≡ 0 → RanBySeed seed (S.left source.old) (K.taken sink.old) (K.taken sink.new) rack.new }
    ensures refused { result ≡ 1 → Refused (S.left source.old) (K.taken sink.old) (K.taken sink.new) rack.new }
    ensures read_fault { result ≡ 3 → (S.faults source.old < S.faults source.new) × (sink.new ≡ sink.old) × (rack.new ≡ empty_rack) }
    ensures write_fault { result ≡ 4 → K.faults sink.old < K.faults sink.new }
    ensures short { result ≡ 4 → RanBySeedUnwritten seed (S.left source.old) (K.taken sink.old) (K.taken sink.new) rack.new ⊎ RefusedUnwritten (S.left source.old) (K.taken sink.old) (K.taken sink.new) rack.new }
    ensures memory { result ≡ 5 → (sink.new ≡ sink.old) × (rack.new ≡ empty_rack) }
    ensures unlawful { result ≡ 6 → (sink.new ≡ sink.old) × RunHeldBack (S.left source.old) (K.taken sink.old) (K.taken sink.new) rack.new }
    ensures winds { result ≡ 7 → (sink.new ≡ sink.old) × WindsRanOut (S.left source.old) rack.new }
{
    match read_script(alloc, source) {
        Ok(read) => run_read(alloc, read, seed, sink, rack),
        Err(not_read) => refuse_all(alloc, not_read, sink),
    }
}

/// Carries out `mount WORKERS` on a script: it is run by one thread for each brick and so many that take the hub's turns.
/// The result is the status, as for [`top`].
pub fn top_mount<R: Threads + Wait + Clock + Sync, S: Source, K: Sink>(
    rt: &R,
    alloc: Global,
    words: &[String],
    source: &mut S,
    sink: &mut K,
    rack: &mut Rack,
) -> u8
    requires source { S.faults source.old < 2 ^ 64 - 1 }
    requires sink { K.faults sink.old < 2 ^ 64 - 1 }
    requires rack { rack.old ≡ empty_rack }

    ensures statuses { result ≤ 7 }
    ensures usage { (result ≡ 2) ↔ ((mount_command (command_of (map string_bytes words.now))) ≡ None) }
    ensures untouched { result ≡ 2 → (source.new ≡ source.old) × (sink.new ≡ sink.old) × (rack.new ≡ rack.old) }

    ensures succeeded { result ≡ 0 → Succeeded (mount_command (command_of (map string_bytes words.now))) (S.left source.old) (K.taken sink.old) (K.taken sink.new) rack.new }
    ensures refused { result ≡ 1 → RefusedBy (mount_command (command_of (map string_bytes words.now))) (S.left source.old) (K.taken sink.old) (K.taken sink.new) rack.new }
    ensures read_fault { result ≡ 3 → (S.faults source.old < S.faults source.new) × (sink.new ≡ sink.old) × (rack.new ≡ empty_rack) }
    ensures write_fault { result ≡ 4 → (K.faults sink.old < K.faults sink.new) × Unwritten (mount_command (command_of (map string_bytes words.now))) (S.left source.old) (K.taken sink.old) (K.taken sink.new) rack.new }
    ensures memory { result ≡ 5 → (sink.new ≡ sink.old) × (rack.new ≡ empty_rack) }
    ensures unlawful { result ≡ 6 → (sink.new ≡ sink.old) × IsUnlawful (mount_command (command_of (map string_bytes words.now))) (S.left source.old) (K.taken sink.old) (K.taken sink.new) rack.new }
    ensures winds { result ≡ 7 → (sink.new ≡ sink.old) × RanOutOfWinds (mount_command (command_of (map string_bytes words.now))) (S.left source.old) rack.new }
{
    let Some(Command::Mount(workers)) = command_in(words) else {
        return 2;
    };
    mount(rt, alloc, workers, source, sink, rack)
}

// Reads a script, runs it by threads, and writes its report.
fn mount<R: Threads + Wait + Clock + Sync, S: Source, K: Sink>(
    rt: &R,
    alloc: Global,
    workers: u8,
    source: &mut S,
    sink: &mut K,
    rack: &mut Rack,
) -> u8
    requires source { S.faults source.old < 2 ^ 64 - 1 }
    requires sink { K.faults sink.old < 2 ^ 64 - 1 }
    requires rack { rack.old ≡ empty_rack }
    ensures statuses { result ≤ 7 }
    ensures no_usage { result ≡ 2 → ⊥ }
    ensures ran { result ≡ 0 → Ran (S.left source.old) (K.taken sink.old) (K.taken sink.new) rack.new }
    ensures refused { result ≡ 1 → Refused (S.left source.old) (K.taken sink.old) (K.taken sink.new) rack.new }
    ensures read_fault { result ≡ 3 → (S.faults source.old < S.faults source.new) × (sink.new ≡ sink.old) × (rack.new ≡ empty_rack) }
    ensures write_fault { result ≡ 4 → K.faults sink.old < K.faults sink.new }
    ensures short { result ≡ 4 → RanUnwritten (S.left source.old) (K.taken sink.old) (K.taken sink.new) rack.new ⊎ RefusedUnwritten (S.left source.old) (K.taken sink.old) (K.taken sink.new) rack.new }
    ensures memory { result ≡ 5 → (sink.new ≡ sink.old) × (rack.new ≡ empty_rack) }
    ensures unlawful { result ≡ 6 → (sink.new ≡ sink.old) × RunHeldBack (S.left source.old) (K.taken sink.old) (K.taken sink.new) rack.new }
    ensures winds { result ≡ 7 → (sink.new ≡ sink.old) × WindsRanOut (S.left source.old) rack.new }
{
    match read_script(alloc, source) {
        Ok(read) => mount_read(rt, alloc, read, workers, sink, rack),
        Err(not_read) => refuse_all(alloc, not_read, sink),
    }
}
