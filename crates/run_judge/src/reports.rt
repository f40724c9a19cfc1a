//! What is written of a run that is as it promises.
ghost use Rattle.std.specs.Prelude.{◌≡◌, ◌≤◌, length, IfOk, IfSome};
ghost use Rattle.mount_log.specs.Scripts.{IsScript};
ghost use Rattle.mount_log.specs.Graphs.{volfiles_of as volfiles_in};
ghost use Rattle.report_text.specs.ReportText.{report_text};
ghost use Rattle.run_report.specs.Reports.{AreFewWinds, report_of as report_of_log};
ghost use Rattle.run_report.specs.Summaries.{summary_text};
ghost use Rattle.run_judge.specs.Headline.{IsLawfulRun};

use crate::audits::is_lawful;
use brick_machine::Brick;
use graph_build::Plan;
use mount_log::Log;
use report_text::print;
use run_report::{has_report, report_of, summary_line};
use script_lang::Script;
use std::alloc::{AllocError, Global};

/// The report of what a run left; `None` where it fails an audit.
///
/// # Errors
/// Out of memory.
pub fn lawful_report(
    alloc: Global,
    script: &Script,
    plans: &[Plan],
    log: &Log,
    bricks: &[Brick],
) -> Result<Option<Vec<u8>>, AllocError>
    requires { IsScript script.now plans.now }
    ensures ran { IfOk result (λ o. IfSome o (λ report. IsLawfulRun script.now plans.now log.now bricks.now)) }
    ensures report { IfOk result (λ o. IfSome o (λ report. report.items ≡ report_text (report_of_log script.now plans.now log.now))) }
{
    if !has_report(log) || !is_lawful(alloc, script, plans, log, bricks)? {
        return Ok(None);
    }
    let text = report(alloc, script, plans, log)?;
    Ok(Some(text))
}

fn report(alloc: Global, script: &Script, plans: &[Plan], log: &Log) -> Result<Vec<u8>, AllocError>
    requires winds { AreFewWinds log.now.winds }
    requires graphs { length (volfiles_in script.now log.now) ≤ 4294967294 }
    ensures { IfOk result (λ text. text.items ≡ report_text (report_of_log script.now plans.now log.now)) }
{
    let report = report_of(alloc, script, plans, log)?;
    print(alloc, &report)
}

/// The line that sums up what a run left; `None` where it fails an audit.
///
/// # Errors
/// Out of memory.
pub fn lawful_summary(
    alloc: Global,
    number: u64,
    script: &Script,
    plans: &[Plan],
    log: &Log,
    bricks: &[Brick],
) -> Result<Option<Vec<u8>>, AllocError>
    requires { IsScript script.now plans.now }
    ensures ran { IfOk result (λ o. IfSome o (λ line. IsLawfulRun script.now plans.now log.now bricks.now)) }
    ensures line { IfOk result (λ o. IfSome o (λ line. line.items ≡ summary_text number log.now)) }
{
    if !is_lawful(alloc, script, plans, log, bricks)? {
        return Ok(None);
    }
    let line = summary_line(alloc, number, log)?;
    Ok(Some(line))
}
