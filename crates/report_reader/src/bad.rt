use std::alloc::AllocError;

/// Why bytes were not read as a report: they are none, and `line` is the first that is in no report after the lines before
/// it, from 1; or out of memory. Numbers of lines stay at 4294967295.
#[derive(Clone, Copy)]
pub enum ReportError {
    At { line: u32 },
    Mem,
}

/// Why a line was not read: it is in no report, or out of memory.
#[derive(Clone, Copy)]
pub(crate) enum Bad {
    Line,
    Mem,
}

impl From<AllocError> for Bad {
    ghost use Rattle.std.specs.Prelude.{◌≡◌};
    ghost use Rattle.report_reader.specs.declared.bad.Bad.TheVariants.{Mem};

    ghost from_gives = { λ _ r. r ≡ Mem };

    fn from(_: AllocError) -> Bad {
        Bad::Mem
    }
}
