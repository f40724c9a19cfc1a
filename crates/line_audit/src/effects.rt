//! What an event does to connections.
ghost use Rattle.std.specs.Prelude.{◌≡◌, ◌≤◌, ◌^◌, IfNone, IfSome};
ghost use Rattle.mount_log.specs.Heads.{head_of};
ghost use Rattle.line_audit.specs.Linked.{arrives, acts, effect_of, is_started, is_switched, opened_as, closed_as, cut_as, newest_after};

use mount_log::HubEvent;
use mount_log::heads::{Head, Said};
use script_lang::Action;

/// What an event does to connections: it is the hub's making, which is none; it switches to another volfile; a brick opens or
/// closes, has its connections cut, or answers Gone to a wind; or it does nothing to them.
#[derive(Clone, Copy)]
pub enum Effect {
    Started,
    Switched,
    Opened(u8),
    Closed(u8),
    Cut(u8),
    Gone(u8, u64),
    Other,
}

fn arrives(brick: u8, said: Said) -> Effect
    ensures { result ≡ arrives brick said }
{
    match said {
        Said::Opened => Effect::Opened(brick),
        Said::Closed => Effect::Closed(brick),
        Said::Gone(wind) => Effect::Gone(brick, wind),
        _ => Effect::Other,
    }
}

fn acts(action: &Action) -> Effect
    ensures { result ≡ acts action.now }
{
    match action {
        Action::Switch(_) => Effect::Switched,
        Action::Cut(brick) => Effect::Cut(*brick),
        _ => Effect::Other,
    }
}

/// What an event does to connections, by the head of what arrives in it.
pub fn effect_of(event: &HubEvent, head: Head) -> Effect
    requires { head ≡ head_of event.now }
    ensures { result ≡ effect_of event.now }
{
    match event {
        HubEvent::Act(action) => acts(action),
        HubEvent::Arrive { brick, .. } => arrives(*brick, head.said),
        _ => Effect::Other,
    }
}

/// Whether it is the hub's making.
pub fn is_started(effect: Effect) -> bool
    ensures { result ≡ is_started effect }
{
    match effect {
        Effect::Started => true,
        _ => false,
    }
}

/// Whether it is a switch.
pub fn is_switched(effect: Effect) -> bool
    ensures { result ≡ is_switched effect }
{
    match effect {
        Effect::Switched => true,
        _ => false,
    }
}

/// Whether the brick opens.
pub fn opened_as(effect: Effect, brick: u8) -> bool
    ensures { result ≡ opened_as brick effect }
{
    match effect {
        Effect::Opened(at) => at == brick,
        _ => false,
    }
}

/// Whether the connections to the brick are cut.
pub fn cut_as(effect: Effect, brick: u8) -> bool
    ensures { result ≡ cut_as brick effect }
{
    match effect {
        Effect::Cut(at) => at == brick,
        _ => false,
    }
}

/// The newest graph behind an event, where its number has a next one.
pub fn newest_after(newest: u32, effect: Effect) -> Option<u32>
    ensures next { IfSome result (λ n. n ≡ newest_after newest effect) }
    ensures none { IfNone result (2 ^ 32 ≤ newest_after newest effect) }
{
    match effect {
        Effect::Switched => {
            if newest == u32::MAX {
                return None;
            }
            Some(newest + 1)
        }
        _ => Some(newest),
    }
}
