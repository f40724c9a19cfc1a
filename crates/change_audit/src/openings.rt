//! Winds that were opened for a call, by the places of their lines.
ghost use Rattle.std.specs.Prelude.{◌≡◌, ◌<◌, ◌↔◌, IsTrue, true, option_copied, slice_get};
ghost use Rattle.change_audit.specs.Answered.{IsWindFor, IsOpenedIn, IsOpenedSince};
ghost use Rattle.change_audit.specs.Served.{IsOpeningFor, IsOpeningAt, IsOpeningIn, IsOpeningSince};

use mount_log::WindLine;

fn line_at(winds: &[WindLine], place: usize) -> Option<&WindLine>
    ensures { option_copied result ≡ slice_get winds.now place }
{
    winds.get(place)
}

fn is_opening_for(line: &WindLine, call: u32, wind: u64) -> bool
    ensures { IsTrue result ↔ IsOpeningFor call wind line.now }
{
    line.opened && line.call == call && line.wind.number() == wind
}

/// Whether the line at a place opens the wind of this number for the call.
#[tactic(auto, using(crate::proofs::Opening::opened_at, crate::proofs::Opening::line_opens, crate::proofs::Opening::none_opens))]
pub fn is_wind_for(winds: &[WindLine], place: usize, call: u32, wind: u64) -> bool
    ensures sound { result ≡ true → IsWindFor winds.now call wind }
    ensures exact { IsTrue result ↔ IsOpeningAt winds.now place call wind }
{
    match line_at(winds, place) {
        Some(line) => is_opening_for(line, call, wind),
        None => false,
    }
}

fn is_in_event(line: &WindLine, number: u64) -> bool
    ensures { IsTrue result ↔ (line.now.event ≡ number) }
{
    line.event == number
}

/// Whether the line at a place opens the wind of this number for the call, in the event of the other number.
#[tactic(auto, using(crate::proofs::Opening::opened_in, crate::proofs::Opening::line_opens_in, crate::proofs::Opening::none_opens_in))]
pub(crate) fn is_opened_in(
    winds: &[WindLine],
    place: usize,
    call: u32,
    wind: u64,
    number: u64,
) -> bool
    ensures sound { result ≡ true → IsOpenedIn winds.now call wind number }
    ensures exact { IsTrue result ↔ IsOpeningIn winds.now place call wind number }
{
    match line_at(winds, place) {
        Some(line) => is_opening_for(line, call, wind) && is_in_event(line, number),
        None => false,
    }
}

fn is_since(line: &WindLine, event: usize) -> bool
    ensures { IsTrue result ↔ (event < line.now.event) }
{
    (event as u64) < line.event
}

/// Whether the line at a place opens the wind of this number for the call, in the event at the other place, from 0, or behind it.
#[tactic(auto, using(crate::proofs::Opening::opened_since, crate::proofs::Opening::line_opens_since, crate::proofs::Opening::none_opens_since, crate::proofs::Opening::own_event))]
pub(crate) fn is_opened_since(
    winds: &[WindLine],
    place: usize,
    call: u32,
    wind: u64,
    event: usize,
) -> bool
    ensures sound { result ≡ true → IsOpenedSince winds.now call wind event }
    ensures exact { IsTrue result ↔ IsOpeningSince winds.now place call wind event }
{
    match line_at(winds, place) {
        Some(line) => is_opened_in(winds, place, call, wind, line.event) && is_since(line, event),
        None => false,
    }
}
