//! A script that is run by threads.
ghost use Rattle.std.specs.Prelude.{◌≡◌, ◌<◌, ◌-◌, ◌^◌};
ghost use Rattle.mount_log.specs.Scripts.{IsScript};
ghost use Rattle.run_judge.specs.Stopped.{IsStopped};
ghost use Rattle.run_commands.specs.Written.{IsRunStatus, IsWritten, IsCutShort};

use crate::running::report_left;
use hub_calls::Rack;
use hub_threads::{OpenGate, Ran, mount};
use script_commands::{Accepted, write};
use std::alloc::Global;
use std::sync::Wait;
use std::thread::Threads;
use std::time::Clock;
use xl_base::Sink;
use xlator_law::Stop;

/// Runs a script by one thread for each brick and so many that take the hub's turns, and writes its report.
pub fn mount_read<R: Threads + Wait + Clock + Sync, K: Sink>(
    rt: &R,
    alloc: Global,
    read: Accepted,
    workers: u8,
    sink: &mut K,
    rack: &mut Rack,
) -> u8
    requires sink { K.faults sink.old < 2 ^ 64 - 1 }
    requires script { IsScript read.script read.plans }
    ensures statuses { IsRunStatus result }
    ensures ran { result ≡ 0 → IsWritten read.script read.plans (K.taken sink.old) (K.taken sink.new) rack.new }
    ensures write_fault { result ≡ 4 → (K.faults sink.old < K.faults sink.new) × IsCutShort read.script read.plans (K.taken sink.old) (K.taken sink.new) rack.new }
    ensures memory { result ≡ 5 → (sink.new ≡ sink.old) × (rack.new ≡ rack.old) }
    ensures unlawful { result ≡ 6 → (sink.new ≡ sink.old) × (rack.new ≡ rack.old) }
    ensures winds { result ≡ 7 → (sink.new ≡ sink.old) × IsStopped read.script rack.new.log rack.new.bricks }
{
    let Accepted { script, plans } = read;
    let mut left = Rack::new(alloc);
    match mount(rt, alloc, script, plans, workers, &OpenGate, &mut left) {
        Ok(ran) => write_left(alloc, ran, left, sink, rack),
        Err(_) => {
            drop(left);
            5
        }
    }
}

// What a mount has left goes into the rack, and its report is written, where it passes the audits.
fn write_left<K: Sink>(alloc: Global, ran: Ran, left: Rack, sink: &mut K, rack: &mut Rack) -> u8
    requires sink { K.faults sink.old < 2 ^ 64 - 1 }
    requires script { IsScript ran.script ran.plans }
    ensures statuses { IsRunStatus result }
    ensures ran { result ≡ 0 → IsWritten ran.script ran.plans (K.taken sink.old) (K.taken sink.new) rack.new }
    ensures write_fault { result ≡ 4 → (K.faults sink.old < K.faults sink.new) × IsCutShort ran.script ran.plans (K.taken sink.old) (K.taken sink.new) rack.new }
    ensures memory { result ≡ 5 → (sink.new ≡ sink.old) × (rack.new ≡ rack.old) }
    ensures unlawful { result ≡ 6 → (sink.new ≡ sink.old) × (rack.new ≡ rack.old) }
    ensures winds { result ≡ 7 → (sink.new ≡ sink.old) × IsStopped ran.script rack.new.log rack.new.bricks }
{
    let Ran {
        script,
        plans,
        is_out_of_winds,
    } = ran;
    match report_left(
        alloc,
        &script,
        plans.as_slice(),
        end_of(is_out_of_winds),
        left,
        rack,
    ) {
        Ok(Some(report)) => write(sink, report.as_slice(), 0),
        Ok(None) => 6,
        Err(Stop::Mem) => 5,
        Err(Stop::Winds) => 7,
    }
}

fn end_of(is_out_of_winds: bool) -> Result<(), Stop> {
    if is_out_of_winds {
        Err(Stop::Winds)
    } else {
        Ok(())
    }
}
