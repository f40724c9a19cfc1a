ghost use Rattle.std.specs.Prelude.{◌≡◌, map};
ghost use Rattle.script_lang.specs.ControlText.{after_at, before_at, control_at, kept_before as kept_if, may_stand_before as may_stand, said_after as after_said, said_before as before_said};

use crate::actions::action_of;
use crate::errors::ScriptKind;
use crate::few::Few;
use crate::places::{Request, both, request_of};
use crate::scripts::{Action, NamedVolfile, When};
use crate::words::is_word;
use volfile::BrickLine;

// What the words behind `control` say: when, and what.
pub(crate) fn control_of(
    bricks: &Few<BrickLine>,
    volfiles: &Few<NamedVolfile>,
    words: &[&[u8]],
) -> Result<(When, Action), ScriptKind>
    ensures { result ≡ control_at bricks.now volfiles.now (map (λ w. w.now) words.now) }
{
    match words {
        [] => Err(ScriptKind::WordCount),
        [word, rest @ ..] => {
            if is_word(word, b"before") {
                before(bricks, volfiles, rest)
            } else if is_word(word, b"after") {
                after(bricks, volfiles, rest)
            } else {
                let action = action_of(bricks, volfiles, word, rest)?;
                Ok((When::Now, action))
            }
        }
    }
}

fn before(
    bricks: &Few<BrickLine>,
    volfiles: &Few<NamedVolfile>,
    words: &[&[u8]],
) -> Result<(When, Action), ScriptKind>
    ensures { result ≡ before_at bricks.now volfiles.now (map (λ w. w.now) words.now) }
{
    match words {
        [] => Err(ScriptKind::WordCount),
        [_brick] => Err(ScriptKind::WordCount),
        [_brick, _proc] => Err(ScriptKind::WordCount),
        [_brick, _proc, _nth] => Err(ScriptKind::WordCount),
        [brick, proc, nth, word, rest @ ..] => {
            let may = may_stand_before(brick, word, rest);
            let action = kept_before(may, action_of(bricks, volfiles, word, rest));
            said_before(request_of(bricks, brick, proc, nth), action)
        }
    }
}

fn after(
    bricks: &Few<BrickLine>,
    volfiles: &Few<NamedVolfile>,
    words: &[&[u8]],
) -> Result<(When, Action), ScriptKind>
    ensures { result ≡ after_at bricks.now volfiles.now (map (λ w. w.now) words.now) }
{
    match words {
        [] => Err(ScriptKind::WordCount),
        [_brick] => Err(ScriptKind::WordCount),
        [_brick, _proc] => Err(ScriptKind::WordCount),
        [_brick, _proc, _nth] => Err(ScriptKind::WordCount),
        [brick, proc, nth, word, rest @ ..] => {
            let action = action_of(bricks, volfiles, word, rest);
            said_after(request_of(bricks, brick, proc, nth), action)
        }
    }
}

fn said_before(
    request: Result<Request, ScriptKind>,
    action: Result<Action, ScriptKind>,
) -> Result<(When, Action), ScriptKind>
    ensures { result ≡ before_said request action }
{
    let (request, action) = both(request, action)?;
    let when = When::Before(request.brick, request.proc, request.nth);
    Ok((when, action))
}

fn said_after(
    request: Result<Request, ScriptKind>,
    action: Result<Action, ScriptKind>,
) -> Result<(When, Action), ScriptKind>
    ensures { result ≡ after_said request action }
{
    let (request, action) = both(request, action)?;
    let when = When::After(request.brick, request.proc, request.nth);
    Ok((when, action))
}

// Before a request only a `down` or a `fault` of its own brick is allowed.
fn may_stand_before(brick: &[u8], word: &[u8], rest: &[&[u8]]) -> bool
    ensures { result ≡ may_stand brick.now word.now (map (λ w. w.now) rest.now) }
{
    match rest {
        [] => false,
        [a, ..] => (is_word(word, b"down") || is_word(word, b"fault")) && is_word(a, brick),
    }
}

fn kept_before(may: bool, action: Result<Action, ScriptKind>) -> Result<Action, ScriptKind>
    ensures { result ≡ kept_if may action }
{
    if may {
        return action;
    }
    match action {
        Ok(_) => Err(ScriptKind::BadWord),
        Err(kind) => Err(ScriptKind::BadWord.or_earlier(kind)),
    }
}
