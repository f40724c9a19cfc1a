ghost use Rattle.std.specs.Prelude.{◌≡◌, IfOk};
ghost use Rattle.report_text.specs.ReportText.{report_text};

use crate::report::Report;
use crate::text::Text;
use std::alloc::{AllocError, Global};

/// The text of a report: each line with single spaces and a line feed, and nothing else.
///
/// # Errors
/// Out of memory.
#[tactic(auto, unfolding(crate::specs::ReportText::report_text))]
pub fn print(alloc: Global, report: &Report) -> Result<Vec<u8>, AllocError>
    ensures { IfOk result (λ text. text.items ≡ report_text report.now) }
{
    let mut text = Text::new(alloc);
    text.put(b"report 1\n")?;
    text.calls(report.calls.as_slice())?;
    text.history(report.history.as_slice())?;
    text.heals(report.heals.as_slice())?;
    text.skips(report.skips.as_slice())?;
    text.graphs(report.graphs.as_slice())?;
    text.put(b"end\n")?;
    Ok(text.into_bytes())
}
