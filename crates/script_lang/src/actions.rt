ghost use Rattle.std.specs.Prelude.{◌≡◌, map};
ghost use Rattle.script_lang.specs.ControlText.{action_at, action_of_one, action_of_three, action_of_two, is_action as is_action_of, no_action as no_action_of};

use crate::errors::ScriptKind;
use crate::few::Few;
use crate::places::{both, brick_of, fault_proc_of, nth_request_of, served_of, volfile_of};
use crate::scripts::{Action, NamedVolfile};
use crate::words::is_word;
use volfile::BrickLine;

// The action that a word and the words behind it name.
pub(crate) fn action_of(
    bricks: &Few<BrickLine>,
    volfiles: &Few<NamedVolfile>,
    word: &[u8],
    rest: &[&[u8]],
) -> Result<Action, ScriptKind>
    ensures { result ≡ action_at bricks.now volfiles.now word.now (map (λ w. w.now) rest.now) }
{
    match rest {
        [] => {
            if is_word(word, b"heal") {
                Ok(Action::Heal)
            } else {
                Err(no_action(word))
            }
        }
        [a] => one(bricks, volfiles, word, a),
        [a, b] => two(bricks, word, a, b),
        [a, b, c] => three(bricks, word, a, b, c),
        [_, _, _, _, ..] => Err(no_action(word)),
    }
}

fn one(
    bricks: &Few<BrickLine>,
    volfiles: &Few<NamedVolfile>,
    word: &[u8],
    a: &[u8],
) -> Result<Action, ScriptKind>
    ensures { result ≡ action_of_one bricks.now volfiles.now word.now a.now }
{
    if is_word(word, b"up") {
        let brick = brick_of(bricks, a)?;
        Ok(Action::Up(brick))
    } else if is_word(word, b"cut") {
        let brick = brick_of(bricks, a)?;
        Ok(Action::Cut(brick))
    } else if is_word(word, b"switch") {
        let volfile = volfile_of(volfiles, a)?;
        Ok(Action::Switch(volfile))
    } else {
        Err(no_action(word))
    }
}

fn two(bricks: &Few<BrickLine>, word: &[u8], a: &[u8], b: &[u8]) -> Result<Action, ScriptKind>
    ensures { result ≡ action_of_two bricks.now word.now a.now b.now }
{
    if is_word(word, b"down") {
        let (brick, served) = both(brick_of(bricks, a), served_of(b))?;
        Ok(Action::Down(brick, served))
    } else {
        Err(no_action(word))
    }
}

fn three(
    bricks: &Few<BrickLine>,
    word: &[u8],
    a: &[u8],
    b: &[u8],
    c: &[u8],
) -> Result<Action, ScriptKind>
    ensures { result ≡ action_of_three bricks.now word.now a.now b.now c.now }
{
    if is_word(word, b"fault") {
        let request = nth_request_of(fault_proc_of(b), c);
        let (brick, request) = both(brick_of(bricks, a), request)?;
        Ok(Action::Fault(brick, request.proc, request.nth))
    } else {
        Err(no_action(word))
    }
}

// Why words are no action: an action's name has another number of words.
fn no_action(word: &[u8]) -> ScriptKind
    ensures { result ≡ no_action_of word.now }
{
    if is_action(word) {
        ScriptKind::WordCount
    } else {
        ScriptKind::BadWord
    }
}

fn is_action(word: &[u8]) -> bool
    ensures { result ≡ is_action_of word.now }
{
    is_word(word, b"down")
        || is_word(word, b"up")
        || is_word(word, b"cut")
        || is_word(word, b"fault")
        || is_word(word, b"heal")
        || is_word(word, b"switch")
}
