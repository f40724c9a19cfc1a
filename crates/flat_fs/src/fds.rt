ghost use Rattle.std.specs.Prelude.{◌≡◌, length, OnOk};
ghost use Rattle.std.specs.Option.{option_copied};
ghost use Rattle.std.specs.FinMap as map;
ghost use Rattle.fop_types.specs.Calls.{with_open, moved_to, moved_by, after_answer as after_answer_of};

use fop_types::{Answer, Call, Gfid};
use std::alloc::{AllocError, Global};
use std::collections::BTreeMap;
use std::marker::Model;

/// An open descriptor: its file, and its offset in bytes.
#[derive(Drop)]
pub struct Fd {
    of: Gfid,
    at: u32,
}

impl Model for Fd {
    ghost use Rattle.fop_types.specs.Calls.{Descriptor};
    ghost use Rattle.flat_fs.specs.Codes.{descriptor_code};

    ghost Value = { Descriptor };

    ghost coded = { descriptor_code };

    ghost view = { λ d. record { file = d.of; offset = d.at } };
}

impl Fd {
    fn new(of: Gfid, at: u32) -> Fd
        ensures { result ≡ record { file = of; offset = at } }
    {
        Fd { of, at }
    }

    pub fn file(&self) -> Gfid
        ensures { result ≡ self.now.file }
    {
        self.of
    }

    pub fn offset(&self) -> u32
        ensures { result ≡ self.now.offset }
    {
        self.at
    }
}

/// The open descriptors of one session by number.
#[derive(Drop)]
pub struct Fds {
    held: BTreeMap<u8, Fd>,
}

impl Model for Fds {
    ghost use Rattle.std.specs.FinMap as map;
    ghost use Rattle.fop_types.specs.Calls.{Descriptors};
    ghost use Rattle.flat_fs.specs.Codes.{descriptors_code};

    ghost Value = { Descriptors };

    ghost coded = { descriptors_code };

    ghost view = { λ s. map.from_entries s.held.entries };
}

impl Fds {
    pub fn new(alloc: Global) -> Fds
        ensures { result ≡ map.empty }
    {
        Fds {
            held: BTreeMap::new(alloc),
        }
    }

    pub fn get(&self, fd: u8) -> Option<&Fd>
        ensures { option_copied result ≡ map.get self.now fd }
    {
        self.held.get(&fd)
    }

    // Puts a descriptor in the place of the one of this number.
    fn put(&mut self, fd: u8, of: Gfid, at: u32) -> Result<(), AllocError>
        ensures { OnOk result (self.new ≡ map.insert self.old fd (record { file = of; offset = at })) }
    {
        self.held.insert(fd, Fd::new(of, at))?;
        Ok(())
    }

    // Sets the offset of a descriptor, if it is open.
    fn seek(&mut self, fd: u8, offset: u32) -> Result<(), AllocError>
        ensures { OnOk result (self.new ≡ moved_to self.old fd offset (map.get self.old fd)) }
    {
        match self.get(fd) {
            Some(found) => {
                let of = found.file();
                self.put(fd, of, offset)
            }
            None => Ok(()),
        }
    }

    // Adds to the offset of a descriptor, if it is open.
    fn advance(&mut self, fd: u8, count: u32) -> Result<(), AllocError>
        ensures { OnOk result (self.new ≡ moved_by self.old fd count (map.get self.old fd)) }
    {
        match self.get(fd) {
            Some(found) => {
                let of = found.file();
                match found.offset().checked_add(count) {
                    Some(offset) => self.put(fd, of, offset),
                    None => Err(AllocError),
                }
            }
            None => Ok(()),
        }
    }

    fn close(&mut self, fd: u8)
        ensures { self.new ≡ map.remove self.old fd }
    {
        let _fd = self.held.remove(&fd);
    }

    fn after_read(
        &mut self,
        fd: u8,
        count: u32,
        of: Gfid,
        answer: &Answer,
    ) -> Result<(), AllocError>
        ensures { OnOk result (self.new ≡ after_answer_of self.old (Call.Read fd count) of answer.now) }
    {
        match answer {
            Answer::Bytes(bytes) => match u32::try_from(bytes.len()) {
                Ok(count) => self.advance(fd, count),
                Err(_) => Err(AllocError),
            },
            _ => Ok(()),
        }
    }

    /// The descriptors after an answered call of their session; `of` is the file that a create made or an open found.
    ///
    /// # Errors
    /// Out of memory.
    pub fn after_answer(&mut self, call: &Call, of: Gfid, answer: &Answer) -> Result<(), AllocError>
        ensures { OnOk result (self.new ≡ after_answer_of self.old call.now of answer.now) }
    {
        match call {
            Call::Create { fd, .. } => match answer {
                Answer::Done => self.put(*fd, of, 0),
                _ => Ok(()),
            },
            Call::Open { fd, .. } => match answer {
                Answer::Done => self.put(*fd, of, 0),
                _ => Ok(()),
            },
            Call::Read { fd, count } => self.after_read(*fd, *count, of, answer),
            Call::Write { fd, .. } => match answer {
                Answer::Count(count) => self.advance(*fd, *count),
                _ => Ok(()),
            },
            Call::Seek { fd, .. } => match answer {
                Answer::Count(offset) => self.seek(*fd, *offset),
                _ => Ok(()),
            },
            Call::Close { fd } => match answer {
                Answer::Done => {
                    self.close(*fd);
                    Ok(())
                }
                _ => Ok(()),
            },
            _ => Ok(()),
        }
    }
}
