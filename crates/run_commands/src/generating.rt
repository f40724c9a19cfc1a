//! A script that a number generates, which is run and summed up.
ghost use Rattle.std.specs.Prelude.{◌≡◌, ◌<◌, ◌-◌, ◌^◌, ◌⊎◌, None, IsOk, IfOk, IfSome, IfNone, IsErrOf};
ghost use Rattle.mount_log.specs.Scripts.{IsScript};
ghost use Rattle.run_report.specs.Summaries.{summary_text};
ghost use Rattle.run_judge.specs.Headline.{IsLawfulRun};
ghost use Rattle.run_judge.specs.Stopped.{IsStopped};
ghost use Rattle.run_commands.specs.CarriedOut.{Generated, GeneratedUnwritten, WindsRanOut};
ghost use Rattle.run_commands.specs.Written.{empty_rack, IsRunStatus, IsSummedUp, IsSummedUpShort};
ghost use Rattle.run_commands.specs.Seeds.{IsSeeded};

use crate::racks::{put_left, stopped};
use fop_types::Seq;
use graph_build::Plan;
use hub_calls::Rack;
use run_judge::lawful_summary;
use script_commands::{Accepted, Draws, NotRead, accept, generated, write};
use script_lang::Script;
use std::alloc::{AllocError, Global};
use world_bricks::{Schedule, World};
use xl_base::Sink;
use xlator_law::Stop;

// The bytes of a script, at most.
const SCRIPT_LIMIT: usize = 2097152;

// The schedule of a number, by which its script is generated.
#[derive(Drop)]
struct Drawn {
    schedule: Schedule,
}

impl Draws for Drawn {
    fn draw(&mut self) -> u64 {
        self.schedule.draw()
    }
}

fn generated_by(alloc: Global, number: u64) -> Result<Vec<u8>, AllocError> {
    generated(
        alloc,
        Drawn {
            schedule: Schedule::new(number),
        },
    )
}

/// Runs the script that a number generates, with the number as its seed. A text that is too long, or is refused, is answered
/// by 6, as a run that fails an audit; that no number generates one is not proved.
pub fn generate<K: Sink>(alloc: Global, number: u64, sink: &mut K, rack: &mut Rack) -> u8
    requires sink { K.faults sink.old < 2 ^ 64 - 1 }
    requires rack { rack.old ≡ empty_rack }
    ensures statuses { IsRunStatus result }
    ensures generated { result ≡ 0 → Generated number (K.taken sink.old) (K.taken sink.new) rack.new }
    ensures write_fault { result ≡ 4 → (K.faults sink.old < K.faults sink.new) × GeneratedUnwritten number (K.taken sink.old) (K.taken sink.new) rack.new }
    ensures memory { result ≡ 5 → (sink.new ≡ sink.old) × (rack.new ≡ empty_rack) }
    ensures unlawful { result ≡ 6 → (sink.new ≡ sink.old) × (rack.new ≡ empty_rack) }
    ensures winds { result ≡ 7 → (sink.new ≡ sink.old) × WindsRanOut None rack.new }
{
    let Ok(text) = generated_by(alloc, number) else {
        return 5;
    };
    if text.len() > SCRIPT_LIMIT {
        return 6;
    }
    match accept(alloc, text.as_slice()) {
        Ok(read) => generate_read(alloc, read, number, sink, rack),
        Err(NotRead::Mem) => 5,
        Err(_) => 6,
    }
}

fn generate_read<K: Sink>(
    alloc: Global,
    read: Accepted,
    number: u64,
    sink: &mut K,
    rack: &mut Rack,
) -> u8
    requires sink { K.faults sink.old < 2 ^ 64 - 1 }
    requires script { IsScript read.script read.plans }
    ensures statuses { IsRunStatus result }
    ensures ran { result ≡ 0 → IsSummedUp read.script read.plans number (K.taken sink.old) (K.taken sink.new) rack.new }
    ensures write_fault { result ≡ 4 → (K.faults sink.old < K.faults sink.new) × IsSummedUpShort read.script read.plans number (K.taken sink.old) (K.taken sink.new) rack.new }
    ensures memory { result ≡ 5 → (sink.new ≡ sink.old) × (rack.new ≡ rack.old) }
    ensures unlawful { result ≡ 6 → (sink.new ≡ sink.old) × (rack.new ≡ rack.old) }
    ensures winds { result ≡ 7 → (sink.new ≡ sink.old) × IsStopped read.script rack.new.log rack.new.bricks }
    ensures seeded { (result ≡ 0) ⊎ (result ≡ 4) → IsSeeded number read.script read.plans rack.new }
{
    let Accepted { script, plans } = read;
    match run_generated(alloc, script, plans, number, rack) {
        Ok(Some(line)) => write(sink, line.as_slice(), 0),
        Ok(None) => 6,
        Err(Stop::Mem) => 5,
        Err(Stop::Winds) => 7,
    }
}

fn run_generated(
    alloc: Global,
    script: Script,
    plans: Seq<Plan>,
    number: u64,
    rack: &mut Rack,
) -> Result<Option<Vec<u8>>, Stop>
    requires { IsScript script plans }
    ensures ran { IfOk result (λ o. IfSome o (λ line. IsLawfulRun script plans rack.new.log rack.new.bricks)) }
    ensures line { IfOk result (λ o. IfSome o (λ line. line.items ≡ summary_text number rack.new.log)) }
    ensures unlawful { IfOk result (λ o. IfNone o (rack.new ≡ rack.old)) }
    ensures winds { IsErrOf result Stop.Winds → IsStopped script rack.new.log rack.new.bricks }
    ensures memory { IsErrOf result Stop.Mem → rack.new ≡ rack.old }
    ensures seeded { IfOk result (λ o. IfSome o (λ line. IsSeeded number script plans rack.new)) }
{
    let mut world = World::new(alloc, script, plans)?;
    let ran = world.run(alloc, number);
    let (script, plans, left) = world.into_parts();
    line_left(alloc, number, &script, plans.as_slice(), ran, left, rack)
}

// What a run left goes into the rack, and the line that sums it up is given, where it passes the audits.
fn line_left(
    alloc: Global,
    number: u64,
    script: &Script,
    plans: &[Plan],
    ran: Result<(), Stop>,
    left: Rack,
    rack: &mut Rack,
) -> Result<Option<Vec<u8>>, Stop>
    requires { IsScript script.now plans.now }
    ensures ran { IfOk result (λ o. IfSome o (λ line. IsLawfulRun script.now plans.now rack.new.log rack.new.bricks)) }
    ensures line { IfOk result (λ o. IfSome o (λ line. line.items ≡ summary_text number rack.new.log)) }
    ensures unlawful { IfOk result (λ o. IfNone o (rack.new ≡ rack.old)) }
    ensures winds { IsErrOf result Stop.Winds → IsStopped script.now rack.new.log rack.new.bricks }
    ensures memory { IsErrOf result Stop.Mem → rack.new ≡ rack.old }
    ensures kept { IfOk result (λ o. IfSome o (λ line. (rack.new ≡ left) × IsOk ran)) }
{
    match ran {
        Ok(()) => {
            let made = lawful_summary(
                alloc,
                number,
                script,
                plans,
                &left.log,
                left.bricks.as_slice(),
            );
            put_left(made, left, rack)
        }
        Err(stop) => stopped(alloc, script, left, stop, rack),
    }
}
