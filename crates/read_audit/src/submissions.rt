//! The calls of a log by their numbers.
ghost use Rattle.std.specs.Prelude.{◌≡◌, option_copied};
ghost use Rattle.fop_types.specs.Calls.{call_numbered};

use submitted_calls::Submitted;

/// The call of a number, from 1; `None` for 0, and where there are fewer calls.
pub(crate) fn made_at<'a, 'b>(calls: &'a [Submitted<'b>], number: u32) -> Option<&'a Submitted<'b>>
    ensures { option_copied result ≡ call_numbered calls.now number }
{
    if number == 0 {
        return None;
    }
    calls.get(number as usize - 1)
}
