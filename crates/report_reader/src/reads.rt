ghost use Rattle.std.specs.Prelude.{◌≡◌, ◌<◌, ℕ, length, IfOk, IsErrOf};
ghost use Rattle.report_text.specs.ReportText.{report_text};
ghost use Rattle.report_text.specs.declared.report.Report.{Report};
ghost use Rattle.report_reader.specs.Reports.{IsReport};
ghost use Rattle.report_reader.specs.Readings.{IsRefusedAt, lines_in};
ghost use Rattle.report_reader.specs.code.LineForms.{IsButForMemory, IsStep, lines_read, nothing_read};
ghost use Rattle.report_reader.specs.declared.bad.ReportError.TheVariants.{At};

use crate::bad::{Bad, ReportError};
use crate::drafts::Draft;
use report_text::Report;
use std::alloc::Global;
use volfile::{len_to, line_after};

/// The report whose text the bytes are. Each byte is looked at a few times, and names and data are copied once.
///
/// # Errors
/// `At` exactly where the bytes are the text of no report, with the first line that is in none after the lines before it;
/// where the text ends first, it is the number of lines. `Mem` is out of memory.
pub fn read(alloc: Global, bytes: &[u8]) -> Result<Report, ReportError>
    ensures report { IfOk result (λ report. IsReport report) }
    ensures printed { IfOk result (λ report. bytes.now ≡ report_text report) }
    ensures only { (report : Report) → IsReport report → bytes.now ≡ report_text report → IfOk result (λ found. found ≡ report) }
    ensures refused { (line : ℕ) → IsErrOf result (At line) → IsRefusedAt line bytes.now }
{
    match lines(alloc, bytes) {
        Ok(found) => Ok(found),
        Err(e) => Err(e),
    }
}

// The report, where all lines are read.
fn lines(alloc: Global, bytes: &[u8]) -> Result<Report, ReportError>
    ensures { IsButForMemory result (lines_read (lines_in bytes.now) nothing_read 0) }
{
    let mut draft = Draft::new(alloc);
    let mut number: u32 = 0;
    let mut rest = bytes;
    while !rest.is_empty() {
        rest = first_line(&mut draft, alloc, rest, number)?;
        number = line_after(number);
    }
    draft.end(number)
}

// Reads the first line of some bytes, which comes after the line with this number. Gives what is behind its line feed.
#[tactic(auto, using(crate::proofs::Feeds::line_unfed, crate::proofs::Feeds::line_kept, crate::proofs::Feeds::line_bad, crate::proofs::Feeds::rest_shorter))]
fn first_line<'a>(
    draft: &mut Draft,
    alloc: Global,
    bytes: &'a [u8],
    number: u32,
) -> Result<&'a [u8], ReportError>
    requires some { 0 < length bytes.now }
    ensures step { IsStep (λ rest. rest.now) result bytes.now draft.old draft.new number }
    ensures shorter { IfOk result (λ rest. length rest.now < length bytes.now) }
{
    let end = len_to(b'\n', bytes);
    let line = line_after(number);
    if end == bytes.len() {
        return Err(ReportError::At { line });
    }
    match draft.line(alloc, &bytes[..end]) {
        Ok(()) => Ok(&bytes[end + 1..]),
        Err(Bad::Line) => Err(ReportError::At { line }),
        Err(Bad::Mem) => Err(ReportError::Mem),
    }
}
