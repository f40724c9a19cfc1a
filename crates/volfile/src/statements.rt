ghost use Rattle.std.specs.Prelude.{map, ◌≡◌, ◌&&◌, ◌==◌, Ok, Err, IfOk, OnErr, nat_le, length, codes};
ghost use Rattle.std.specs.Option.{MatchOption};
ghost use Rattle.std.specs.List.{list_all};
ghost use Rattle.volfile.specs.TextLines.{is_name as is_name_of, is_text};
ghost use Rattle.volfile.specs.VolfileText.{are_two_parts, is_defined, is_type as is_type_of, option_given, subvolumes_given, type_given};

use crate::cuts::len_to;
use crate::defined::Defined;
use crate::errors::VolKind;
use crate::forms::{is_name, is_same};
use crate::volumes::{OptionLine, Volume};
use fop_types::Seq;
use std::alloc::{AllocError, Global};

// Two parts that are not empty, with one `/` between them.
fn is_type(word: &[u8]) -> bool
    ensures { result ≡ is_type_of word.now }
{
    let end = len_to(b'/', word);
    if end == word.len() {
        return false;
    }
    let rest = &word[end + 1..];
    if len_to(b'/', rest) < rest.len() {
        return false;
    }
    are_some(&word[..end], rest)
}

fn are_some(first: &[u8], second: &[u8]) -> bool
    ensures { result ≡ (nat_le 1 (length first.now) && nat_le 1 (length second.now)) }
{
    !first.is_empty() && !second.is_empty()
}

fn are_names(words: &[&[u8]]) -> bool
    ensures { result ≡ list_all is_name_of (map (λ w. w.now) words.now) }
{
    for word in words {
        if !is_name(word) {
            return false;
        }
    }
    true
}

fn are_defined(volumes: &Defined, words: &[&[u8]]) -> bool
    ensures { result ≡ list_all (is_defined volumes.now) (map (λ w. w.now) words.now) }
{
    for word in words {
        if !volumes.has(word) {
            return false;
        }
    }
    true
}

fn copies(alloc: Global, words: &[&[u8]]) -> Result<Seq<Seq<u8>>, AllocError>
    ensures { IfOk result (λ c. c ≡ map (λ w. w.now) words.now) }
{
    let mut made = Vec::with_capacity(alloc, words.len())?;
    for word in words {
        made.push(Seq::from_bytes(alloc, word)?)?;
    }
    Ok(Seq::from_vec(made))
}

// Whether the word begins the block's one type.
pub(crate) fn begins_type(word: &[u8], block: &Volume) -> bool
    ensures { result ≡ (is_text word.now (codes "type") && (length block.now.kind == 0)) }
{
    is_same(word, b"type") && block.kind.is_empty()
}

// Whether the word begins the block's one line of subvolumes.
pub(crate) fn begins_subvolumes(word: &[u8], block: &Volume) -> bool
    ensures { result ≡ (is_text word.now (codes "subvolumes") && (length block.now.subvolumes == 0)) }
{
    is_same(word, b"subvolumes") && block.subvolumes.is_empty()
}

// What the statements in a block do to it: each is given the words behind its first, and says why it is
// refused, if it is.
impl Volume {
    pub(crate) fn give_type(
        &mut self,
        alloc: Global,
        rest: &[&[u8]],
    ) -> Result<Option<VolKind>, AllocError>
        ensures ok { IfOk result (λ no. MatchOption no (type_given self.old (map (λ w. w.now) rest.now) ≡ Ok self.new)
            (λ kind. (type_given self.old (map (λ w. w.now) rest.now) ≡ Err kind) × (self.new ≡ self.old))) }
        ensures err { OnErr result (self.new ≡ self.old) }
        ensures name { self.new.name ≡ self.old.name }
    {
        match rest {
            [kind] => {
                if !is_type(kind) {
                    return Ok(Some(VolKind::BadWord));
                }
                self.kind = Seq::from_bytes(alloc, kind)?;
                Ok(None)
            }
            _ => Ok(Some(VolKind::WordCount)),
        }
    }

    pub(crate) fn give_option(
        &mut self,
        alloc: Global,
        rest: &[&[u8]],
    ) -> Result<Option<VolKind>, AllocError>
        ensures ok { IfOk result (λ no. MatchOption no (option_given self.old (map (λ w. w.now) rest.now) ≡ Ok self.new)
            (λ kind. (option_given self.old (map (λ w. w.now) rest.now) ≡ Err kind) × (self.new ≡ self.old))) }
        ensures err { OnErr result (self.new ≡ self.old) }
        ensures name { self.new.name ≡ self.old.name }
    {
        match rest {
            [key, value] => {
                let key = Seq::from_bytes(alloc, key)?;
                let value = Seq::from_bytes(alloc, value)?;
                self.options.push(OptionLine { key, value })?;
                Ok(None)
            }
            _ => Ok(Some(VolKind::WordCount)),
        }
    }

    pub(crate) fn give_subvolumes(
        &mut self,
        alloc: Global,
        volumes: &Defined,
        rest: &[&[u8]],
    ) -> Result<Option<VolKind>, AllocError>
        ensures ok { IfOk result (λ no. MatchOption no (subvolumes_given volumes.now self.old (map (λ w. w.now) rest.now) ≡ Ok self.new)
            (λ kind. (subvolumes_given volumes.now self.old (map (λ w. w.now) rest.now) ≡ Err kind) × (self.new ≡ self.old))) }
        ensures err { OnErr result (self.new ≡ self.old) }
        ensures name { self.new.name ≡ self.old.name }
    {
        if rest.is_empty() {
            return Ok(Some(VolKind::WordCount));
        }
        if !are_names(rest) {
            return Ok(Some(VolKind::BadWord));
        }
        if !are_defined(volumes, rest) {
            return Ok(Some(VolKind::UnknownSubvolume));
        }
        self.subvolumes = copies(alloc, rest)?;
        Ok(None)
    }
}
