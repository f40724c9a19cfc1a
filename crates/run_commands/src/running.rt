//! A script that is run in one thread, and the report of what a run left.
ghost use Rattle.std.specs.Prelude.{◌≡◌, ◌<◌, ◌-◌, ◌^◌, ◌⊎◌, IsOk, IfOk, IfSome, IfNone, IsErrOf};
ghost use Rattle.mount_log.specs.Scripts.{IsScript};
ghost use Rattle.run_judge.specs.Headline.{IsLawfulRun};
ghost use Rattle.run_judge.specs.Stopped.{IsStopped};
ghost use Rattle.run_commands.specs.Written.{text_of, IsRunStatus, IsWritten, IsCutShort};
ghost use Rattle.run_commands.specs.Seeds.{IsSeeded};

use crate::racks::{put_left, stopped};
use fop_types::Seq;
use graph_build::Plan;
use hub_calls::Rack;
use run_judge::lawful_report;
use script_commands::{Accepted, write};
use script_lang::Script;
use std::alloc::{AllocError, Global};
use world_bricks::World;
use xl_base::Sink;
use xlator_law::Stop;

/// Runs a script by a seed's schedule and writes its report.
pub fn run_read<K: Sink>(
    alloc: Global,
    read: Accepted,
    seed: u64,
    sink: &mut K,
    rack: &mut Rack,
) -> u8
    requires sink { K.faults sink.old < 2 ^ 64 - 1 }
    requires script { IsScript read.script read.plans }
    ensures statuses { IsRunStatus result }
    ensures ran { result ≡ 0 → IsWritten read.script read.plans (K.taken sink.old) (K.taken sink.new) rack.new }
    ensures write_fault { result ≡ 4 → (K.faults sink.old < K.faults sink.new) × IsCutShort read.script read.plans (K.taken sink.old) (K.taken sink.new) rack.new }
    ensures memory { result ≡ 5 → (sink.new ≡ sink.old) × (rack.new ≡ rack.old) }
    ensures unlawful { result ≡ 6 → (sink.new ≡ sink.old) × (rack.new ≡ rack.old) }
    ensures winds { result ≡ 7 → (sink.new ≡ sink.old) × IsStopped read.script rack.new.log rack.new.bricks }
    ensures seeded { (result ≡ 0) ⊎ (result ≡ 4) → IsSeeded seed read.script read.plans rack.new }
{
    let Accepted { script, plans } = read;
    match run_script(alloc, script, plans, seed, rack) {
        Ok(Some(report)) => write(sink, report.as_slice(), 0),
        Ok(None) => 6,
        Err(Stop::Mem) => 5,
        Err(Stop::Winds) => 7,
    }
}

// Runs a script by a seed's schedule, leaves its bricks and its log in the rack, and gives the report's text; `None` where
// what the run left fails an audit.
fn run_script(
    alloc: Global,
    script: Script,
    plans: Seq<Plan>,
    seed: u64,
    rack: &mut Rack,
) -> Result<Option<Vec<u8>>, Stop>
    requires { IsScript script plans }
    ensures ran { IfOk result (λ o. IfSome o (λ report. IsLawfulRun script plans rack.new.log rack.new.bricks)) }
    ensures report { IfOk result (λ o. IfSome o (λ report. report.items ≡ text_of script plans rack.new)) }
    ensures unlawful { IfOk result (λ o. IfNone o (rack.new ≡ rack.old)) }
    ensures winds { IsErrOf result Stop.Winds → IsStopped script rack.new.log rack.new.bricks }
    ensures memory { IsErrOf result Stop.Mem → rack.new ≡ rack.old }
    ensures seeded { IfOk result (λ o. IfSome o (λ report. IsSeeded seed script plans rack.new)) }
{
    let mut world = World::new(alloc, script, plans)?;
    let ran = world.run(alloc, seed);
    let (script, plans, left) = world.into_parts();
    report_left(alloc, &script, plans.as_slice(), ran, left, rack)
}

/// What a run left goes into the rack, and its report is given, where it passes the audits.
pub fn report_left(
    alloc: Global,
    script: &Script,
    plans: &[Plan],
    ran: Result<(), Stop>,
    left: Rack,
    rack: &mut Rack,
) -> Result<Option<Vec<u8>>, Stop>
    requires { IsScript script.now plans.now }
    ensures ran { IfOk result (λ o. IfSome o (λ report. IsLawfulRun script.now plans.now rack.new.log rack.new.bricks)) }
    ensures report { IfOk result (λ o. IfSome o (λ report. report.items ≡ text_of script.now plans.now rack.new)) }
    ensures unlawful { IfOk result (λ o. IfNone o (rack.new ≡ rack.old)) }
    ensures winds { IsErrOf result Stop.Winds → IsStopped script.now rack.new.log rack.new.bricks }
    ensures memory { IsErrOf result Stop.Mem → rack.new ≡ rack.old }
    ensures kept { IfOk result (λ o. IfSome o (λ report. (rack.new ≡ left) × IsOk ran)) }
{
    match ran {
        Ok(()) => {
            let made = lawful_report(alloc, script, plans, &left.log, left.bricks.as_slice());
            put_left(made, left, rack)
        }
        Err(stop) => stopped(alloc, script, left, stop, rack),
    }
}
