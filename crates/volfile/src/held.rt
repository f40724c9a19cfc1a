ghost use Rattle.std.specs.Prelude.{map, ◌≡◌, [], ◌∷◌, ◌++◌, Some, None, Ok, Err, IfOk, OnOk, OnErr, codes};
ghost use Rattle.std.specs.Option.{MatchOption};
ghost use Rattle.volfile.specs.VolfileText.{block_ended, line_read, nothing_read, said_in, said_outside, statement, text_ended, volfile_of, volume_begun};

use crate::comments::{are_text_bytes, before_comment, has_no_backquote};
use crate::defined::Defined;
use crate::errors::{VolError, VolKind};
use crate::forms::{is_name, is_same};
use crate::quotes::words_said;
use crate::statements::{begins_subvolumes, begins_type};
use crate::volumes::{Volfile, Volume};
use fop_types::Seq;
use std::alloc::{AllocError, Global};
use std::marker::Model;

// What was read so far: the volumes whose blocks have ended, and the open block. Contracts see it as these two.
#[derive(Drop)]
pub(crate) struct Held {
    volumes: Defined,
    block: Option<Volume>,
}

impl Model for Held {
    ghost use Rattle.volfile.specs.VolumeNames.{IsFresh};
    ghost use Rattle.volfile.specs.VolfileText.{Reading};

    ghost Value = { Reading };

    ghost view = { λ r. record { volumes = r.volumes; block = r.block } };

    ghost invariant = { λ r. IsFresh r.block r.volumes };
}

impl Held {
    pub(crate) fn new(alloc: Global) -> Held
        ensures { result ≡ nothing_read }
    {
        Held {
            volumes: Defined::new(alloc),
            block: None,
        }
    }

    // Reads a line, and says why it is refused, if it is.
    #[tactic(auto, unfolding(crate::specs::VolfileText::line_read))]
    pub(crate) fn read(
        &mut self,
        alloc: Global,
        number: u32,
        line: &[u8],
    ) -> Result<Option<VolKind>, AllocError>
        ensures ok { IfOk result (λ no. MatchOption no (line_read self.old number line.now ≡ Ok self.new)
            (λ kind. (line_read self.old number line.now ≡ Err kind) × (self.new ≡ self.old))) }
        ensures err { OnErr result (self.new ≡ self.old) }
    {
        let said = before_comment(line);
        if !are_text_bytes(said) {
            return Ok(Some(VolKind::BadByte));
        }
        if !has_no_backquote(said) {
            return Ok(Some(VolKind::Backquote));
        }
        match words_said(alloc, said)? {
            None => Ok(Some(VolKind::OpenQuote)),
            Some(words) => self.say(alloc, number, words.as_slice()),
        }
    }

    // A line of these words.
    fn say(
        &mut self,
        alloc: Global,
        number: u32,
        words: &[&[u8]],
    ) -> Result<Option<VolKind>, AllocError>
        ensures ok { IfOk result (λ no. MatchOption no (statement self.old number (map (λ w. w.now) words.now) ≡ Ok self.new)
            (λ kind. (statement self.old number (map (λ w. w.now) words.now) ≡ Err kind) × (self.new ≡ self.old))) }
        ensures err { OnErr result (self.new ≡ self.old) }
    {
        match words {
            [] => Ok(None),
            [word, rest @ ..] => self.say_at(alloc, number, word, rest),
        }
    }

    // A statement.
    fn say_at(
        &mut self,
        alloc: Global,
        number: u32,
        word: &[u8],
        rest: &[&[u8]],
    ) -> Result<Option<VolKind>, AllocError>
        ensures ok { IfOk result (λ no. MatchOption no (said_in self.old.block self.old.volumes number word.now (map (λ w. w.now) rest.now) ≡ Ok self.new)
            (λ kind. (said_in self.old.block self.old.volumes number word.now (map (λ w. w.now) rest.now) ≡ Err kind) × (self.new ≡ self.old))) }
        ensures err { OnErr result (self.new ≡ self.old) }
    {
        match &mut self.block {
            None => self.say_outside(alloc, number, word, rest),
            Some(block) => {
                if begins_type(word, block) {
                    block.give_type(alloc, rest)
                } else if is_same(word, b"option") {
                    block.give_option(alloc, rest)
                } else if begins_subvolumes(word, block) {
                    block.give_subvolumes(alloc, &self.volumes, rest)
                } else if is_same(word, b"end-volume") {
                    self.end_block(alloc, number, rest)
                } else {
                    Ok(Some(VolKind::Unexpected))
                }
            }
        }
    }

    // A statement outside a block.
    fn say_outside(
        &mut self,
        alloc: Global,
        number: u32,
        word: &[u8],
        rest: &[&[u8]],
    ) -> Result<Option<VolKind>, AllocError>
        ensures ok { IfOk result (λ no. MatchOption no (said_outside self.old.volumes number word.now (map (λ w. w.now) rest.now) ≡ Ok self.new)
            (λ kind. (said_outside self.old.volumes number word.now (map (λ w. w.now) rest.now) ≡ Err kind) × (self.new ≡ self.old))) }
        ensures err { OnErr result (self.new ≡ self.old) }
    {
        if is_same(word, b"volume") {
            self.begin(alloc, number, rest)
        } else {
            Ok(Some(VolKind::Unexpected))
        }
    }

    fn begin(
        &mut self,
        alloc: Global,
        number: u32,
        rest: &[&[u8]],
    ) -> Result<Option<VolKind>, AllocError>
        ensures ok { IfOk result (λ no. MatchOption no (volume_begun self.old.volumes number (map (λ w. w.now) rest.now) ≡ Ok self.new)
            (λ kind. (volume_begun self.old.volumes number (map (λ w. w.now) rest.now) ≡ Err kind) × (self.new ≡ self.old))) }
        ensures err { OnErr result (self.new ≡ self.old) }
    {
        match rest {
            [name] => {
                if !is_name(name) {
                    return Ok(Some(VolKind::BadWord));
                }
                if self.volumes.has(name) {
                    return Ok(Some(VolKind::Repeated));
                }
                if self.volumes.len() >= 256 {
                    return Ok(Some(VolKind::TooMany));
                }
                let name = Seq::from_bytes(alloc, name)?;
                self.block = Some(Volume {
                    line: number,
                    name,
                    kind: Seq::new(alloc),
                    options: Seq::new(alloc),
                    subvolumes: Seq::new(alloc),
                });
                Ok(None)
            }
            _ => Ok(Some(VolKind::WordCount)),
        }
    }

    // The statement `end-volume`.
    fn end_block(
        &mut self,
        alloc: Global,
        number: u32,
        rest: &[&[u8]],
    ) -> Result<Option<VolKind>, AllocError>
        ensures ok { IfOk result (λ no. MatchOption no (said_in self.old.block self.old.volumes number (codes "end-volume") (map (λ w. w.now) rest.now) ≡ Ok self.new)
            (λ kind. (said_in self.old.block self.old.volumes number (codes "end-volume") (map (λ w. w.now) rest.now) ≡ Err kind) × (self.new ≡ self.old))) }
        ensures err { OnErr result (self.new ≡ self.old) }
    {
        match &self.block {
            None => Ok(Some(VolKind::Unexpected)),
            Some(block) => {
                if !rest.is_empty() {
                    return Ok(Some(VolKind::WordCount));
                }
                if block.kind.is_empty() {
                    return Ok(Some(VolKind::MissingType));
                }
                self.put_block(alloc)?;
                Ok(None)
            }
        }
    }

    // Puts the open block, if there is one, behind the volumes whose blocks have ended.
    fn put_block(&mut self, alloc: Global) -> Result<(), AllocError>
        ensures ok { OnOk result (MatchOption self.old.block (self.new ≡ self.old) (λ v. self.new ≡ record { volumes = self.old.volumes ++ v ∷ []; block = None })) }
        ensures err { OnErr result (self.new ≡ self.old) }
    {
        match self.block.take() {
            None => Ok(()),
            Some(block) => match self.volumes.push(alloc, block) {
                Ok(()) => Ok(()),
                Err(failed) => {
                    self.block = Some(failed.value);
                    Err(AllocError)
                }
            },
        }
    }

    // The volfile of the lines that were read, where the text ends at the line with this number.
    pub(crate) fn end(self, number: u32) -> Result<Volfile, VolError>
        ensures { result ≡ text_ended self number }
    {
        let Held { volumes, block } = self;
        match block {
            None => volfile_of(volumes, number),
            Some(_block) => Err(VolError::At {
                line: number,
                kind: VolKind::Unclosed,
            }),
        }
    }
}

// The volfile of these volumes, where the text ends at the line with this number.
fn volfile_of(volumes: Defined, number: u32) -> Result<Volfile, VolError>
    ensures { result ≡ volfile_of volumes number }
{
    if volumes.len() == 0 {
        return Err(VolError::At {
            line: number,
            kind: VolKind::Empty,
        });
    }
    Ok(Volfile {
        volumes: Seq::from_vec(volumes.into_volumes()),
    })
}
