ghost use Rattle.std.specs.Prelude.{◌≡◌, ◌∷◌, map, IfOk};
ghost use Rattle.script_lang.specs.CallText.{call_at, call_of_one, call_of_path, call_of_three, call_of_two, misfit, takes_one, takes_three, takes_two};

use crate::errors::ScriptKind;
use crate::fd_calls::{Said, close_of, create_of, open_of, read_of, seek_of, write_of};
use crate::path_calls::{
    chmod_of, del_attr_of, get_attr_of, list_of, mkdir_of, rename_of, rmdir_of, set_attr_of,
    stat_of, truncate_of, unlink_of,
};
use crate::words::is_word;
use std::alloc::{AllocError, Global};

// The call that a word and the words behind it make.
pub(crate) fn call_of(alloc: Global, word: &[u8], rest: &[&[u8]]) -> Result<Said, AllocError>
    ensures { IfOk result (λ said. said ≡ call_at word.now (map (λ w. w.now) rest.now)) }
{
    match rest {
        [] => Ok(Err(misfit_of(word))),
        [a] => one(alloc, word, a),
        [a, b] => two(alloc, word, a, b),
        [a, b, c] => three(alloc, word, a, b, c),
        [_, _, _, _, ..] => Ok(Err(misfit_of(word))),
    }
}

fn one(alloc: Global, word: &[u8], a: &[u8]) -> Result<Said, AllocError>
    ensures { IfOk result (λ said. said ≡ call_of_one word.now a.now) }
{
    if is_word(word, b"rmdir") {
        return rmdir_of(alloc, a);
    }
    if is_word(word, b"unlink") {
        return unlink_of(alloc, a);
    }
    if is_word(word, b"stat") {
        return stat_of(alloc, a);
    }
    if is_word(word, b"list") {
        return list_of(alloc, a);
    }
    if is_word(word, b"close") {
        return close_of(alloc, a);
    }
    Ok(Err(misfit_of(word)))
}

fn two(alloc: Global, word: &[u8], a: &[u8], b: &[u8]) -> Result<Said, AllocError>
    ensures { IfOk result (λ said. said ≡ call_of_two word.now a.now b.now) }
{
    if is_word(word, b"open") {
        return open_of(alloc, a, b);
    }
    if is_word(word, b"read") {
        return read_of(alloc, a, b);
    }
    if is_word(word, b"write") {
        return write_of(alloc, a, b);
    }
    if is_word(word, b"seek") {
        return seek_of(alloc, a, b);
    }
    two_of_path(alloc, word, a, b)
}

fn two_of_path(alloc: Global, word: &[u8], a: &[u8], b: &[u8]) -> Result<Said, AllocError>
    ensures { IfOk result (λ said. said ≡ call_of_path word.now a.now b.now) }
{
    if is_word(word, b"mkdir") {
        return mkdir_of(alloc, a, b);
    }
    if is_word(word, b"rename") {
        return rename_of(alloc, a, b);
    }
    if is_word(word, b"chmod") {
        return chmod_of(alloc, a, b);
    }
    if is_word(word, b"truncate") {
        return truncate_of(alloc, a, b);
    }
    if is_word(word, b"getattr") {
        return get_attr_of(alloc, a, b);
    }
    if is_word(word, b"delattr") {
        return del_attr_of(alloc, a, b);
    }
    Ok(Err(misfit_of(word)))
}

fn three(alloc: Global, word: &[u8], a: &[u8], b: &[u8], c: &[u8]) -> Result<Said, AllocError>
    ensures { IfOk result (λ said. said ≡ call_of_three word.now a.now b.now c.now) }
{
    if is_word(word, b"create") {
        return create_of(alloc, a, b, c);
    }
    if is_word(word, b"setattr") {
        return set_attr_of(alloc, a, b, c);
    }
    Ok(Err(misfit_of(word)))
}

// Why words are no call: a call's name has another number of words.
fn misfit_of(word: &[u8]) -> ScriptKind
    ensures { result ≡ misfit word.now }
{
    if takes_one_word(word) || takes_two_words(word) || takes_three_words(word) {
        ScriptKind::WordCount
    } else {
        ScriptKind::BadWord
    }
}

fn takes_one_word(word: &[u8]) -> bool
    ensures { result ≡ takes_one word.now }
{
    is_word(word, b"rmdir")
        || is_word(word, b"unlink")
        || is_word(word, b"stat")
        || is_word(word, b"list")
        || is_word(word, b"close")
}

fn takes_two_words(word: &[u8]) -> bool
    ensures { result ≡ takes_two word.now }
{
    is_word(word, b"mkdir")
        || is_word(word, b"rename")
        || is_word(word, b"open")
        || is_word(word, b"chmod")
        || is_word(word, b"truncate")
        || is_word(word, b"getattr")
        || is_word(word, b"delattr")
        || is_word(word, b"read")
        || is_word(word, b"write")
        || is_word(word, b"seek")
}

fn takes_three_words(word: &[u8]) -> bool
    ensures { result ≡ takes_three word.now }
{
    is_word(word, b"create") || is_word(word, b"setattr")
}
