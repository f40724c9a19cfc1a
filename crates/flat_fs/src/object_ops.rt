ghost use Rattle.std.specs.Prelude.{◌≡◌, ◌+◌, ◌≤◌, not, nat_lt, length, OnOk, IfOk};
ghost use Rattle.std.specs.Option.{option_copied};
ghost use Rattle.fop_types.specs.FileBytes.{file_limit};
ghost use Rattle.fop_types.specs.Files.{object_attrs};
ghost use Rattle.fop_types.specs.Flat.{flat_answer, flat_after, answer_in, open_outcome, stat_outcome, list_outcome, getattr_outcome, read_outcome, write_of, files_in};
ghost use Rattle.flat_fs.specs.Edits.{IsSmallIfThere, edited_at};

use crate::edits::Edit;
use crate::flat_fs::FlatFs;
use crate::name_ops::{done, refused};
use contents::find_attr;
use fop_types::{Answer, AppError, Attr, Data, FlatAnswer, FlatObject, FlatOp, Gfid, Kind, Seq};
use std::alloc::{AllocError, Global};

const FILE_LIMIT: usize = 65536;

// Whether a write ends within the greatest length of a file.
fn ends_within(offset: u32, bytes: &[u8]) -> bool
    ensures { result ≡ not (nat_lt file_limit (offset + length bytes.now)) }
{
    bytes.len() <= FILE_LIMIT && offset as usize + bytes.len() <= FILE_LIMIT
}

fn attrs_in(object: &FlatObject) -> &[Attr]
    ensures { result.now ≡ object_attrs object.now }
{
    match object {
        FlatObject::File { attrs, .. } => attrs.as_slice(),
        FlatObject::Directory { attrs, .. } => attrs.as_slice(),
    }
}

fn open_object(object: Option<&FlatObject>) -> FlatAnswer
    ensures { result ≡ answer_in (open_outcome (option_copied object.entry)) }
{
    match object {
        None => refused(AppError::Enoent),
        Some(FlatObject::File { .. }) => done(),
        Some(FlatObject::Directory { .. }) => refused(AppError::Eisdir),
    }
}

fn stat_object(object: Option<&FlatObject>) -> FlatAnswer
    requires { IsSmallIfThere (option_copied object) }
    ensures { result ≡ answer_in (stat_outcome (option_copied object.entry)) }
{
    match object {
        None => refused(AppError::Enoent),
        Some(FlatObject::File { bytes, mode, .. }) => FlatAnswer::Call(Answer::Stat {
            kind: Kind::File,
            mode: *mode,
            size: bytes.len() as u32,
        }),
        Some(FlatObject::Directory { mode, .. }) => FlatAnswer::Call(Answer::Stat {
            kind: Kind::Dir,
            mode: *mode,
            size: 0,
        }),
    }
}

fn list_object(alloc: Global, object: Option<&FlatObject>) -> Result<FlatAnswer, AllocError>
    ensures { IfOk result (λ a. a ≡ answer_in (list_outcome (option_copied object.entry))) }
{
    match object {
        None => Ok(refused(AppError::Enoent)),
        Some(FlatObject::File { .. }) => Ok(refused(AppError::Enotdir)),
        Some(FlatObject::Directory { names, removed, .. }) => {
            if *removed {
                return Ok(refused(AppError::Enoent));
            }
            let items = names.copy_items(alloc)?;
            Ok(FlatAnswer::Call(Answer::List(items)))
        }
    }
}

fn getattr_object(
    alloc: Global,
    object: Option<&FlatObject>,
    name: &[u8],
) -> Result<FlatAnswer, AllocError>
    ensures { IfOk result (λ a. a ≡ answer_in (getattr_outcome (option_copied object.entry) name.now)) }
{
    match object {
        None => Ok(refused(AppError::Enoent)),
        Some(object) => match find_attr(attrs_in(object), name) {
            None => Ok(refused(AppError::Enodata)),
            Some(attr) => {
                let value = attr.value.copy(alloc)?;
                Ok(FlatAnswer::Call(Answer::Bytes(value)))
            }
        },
    }
}

fn read_object(
    alloc: Global,
    object: Option<&FlatObject>,
    offset: u32,
    count: u32,
) -> Result<FlatAnswer, AllocError>
    ensures { IfOk result (λ a. a ≡ answer_in (read_outcome (option_copied object.entry) offset count)) }
{
    match object {
        None => Ok(refused(AppError::Enoent)),
        Some(FlatObject::Directory { .. }) => Ok(refused(AppError::Eisdir)),
        Some(FlatObject::File { bytes, .. }) => {
            let bytes = contents::read(alloc, bytes.as_slice(), offset as usize, count as usize)?;
            Ok(FlatAnswer::Call(Answer::Bytes(bytes)))
        }
    }
}

impl FlatFs {
    pub(crate) fn open(&self, gfid: Gfid) -> FlatAnswer
        ensures { result ≡ flat_answer self.now (FlatOp.Open gfid) }
    {
        open_object(self.get(gfid))
    }

    pub(crate) fn stat(&self, gfid: Gfid) -> FlatAnswer
        ensures { result ≡ flat_answer self.now (FlatOp.Stat gfid) }
    {
        stat_object(self.get(gfid))
    }

    pub(crate) fn list(&self, alloc: Global, gfid: Gfid) -> Result<FlatAnswer, AllocError>
        ensures { IfOk result (λ a. a ≡ flat_answer self.now (FlatOp.List gfid)) }
    {
        list_object(alloc, self.get(gfid))
    }

    pub(crate) fn getattr(
        &self,
        alloc: Global,
        gfid: Gfid,
        name: &[u8],
    ) -> Result<FlatAnswer, AllocError>
        ensures { IfOk result (λ a. a ≡ flat_answer self.now (FlatOp.GetAttr gfid name.now)) }
    {
        getattr_object(alloc, self.get(gfid), name)
    }

    pub(crate) fn read(
        &self,
        alloc: Global,
        gfid: Gfid,
        offset: u32,
        count: u32,
    ) -> Result<FlatAnswer, AllocError>
        ensures { IfOk result (λ a. a ≡ flat_answer self.now (FlatOp.Read gfid offset count)) }
    {
        read_object(alloc, self.get(gfid), offset, count)
    }

    pub(crate) fn chmod(
        &mut self,
        alloc: Global,
        gfid: Gfid,
        mode: u16,
    ) -> Result<FlatAnswer, AllocError>
        ensures answer { IfOk result (λ a. a ≡ flat_answer self.old (FlatOp.Chmod gfid mode)) }
        ensures files { OnOk result (self.new ≡ flat_after self.old (FlatOp.Chmod gfid mode)) }
    {
        match self.get(gfid) {
            None => Ok(refused(AppError::Enoent)),
            Some(_) => {
                self.edit(alloc, gfid, Edit::SetMode(mode))?;
                Ok(done())
            }
        }
    }

    pub(crate) fn truncate(
        &mut self,
        alloc: Global,
        gfid: Gfid,
        size: u32,
    ) -> Result<FlatAnswer, AllocError>
        ensures answer { IfOk result (λ a. a ≡ flat_answer self.old (FlatOp.Truncate gfid size)) }
        ensures files { OnOk result (self.new ≡ flat_after self.old (FlatOp.Truncate gfid size)) }
    {
        match self.get(gfid) {
            None => Ok(refused(AppError::Enoent)),
            Some(FlatObject::Directory { .. }) => Ok(refused(AppError::Eisdir)),
            Some(FlatObject::File { .. }) => {
                if size > 65536 {
                    return Ok(refused(AppError::Efbig));
                }
                self.edit(alloc, gfid, Edit::Resize(size))?;
                Ok(done())
            }
        }
    }

    pub(crate) fn setattr(
        &mut self,
        alloc: Global,
        gfid: Gfid,
        attr: Attr,
    ) -> Result<FlatAnswer, AllocError>
        ensures answer { IfOk result (λ a. a ≡ flat_answer self.old (FlatOp.SetAttr gfid attr)) }
        ensures files { OnOk result (self.new ≡ flat_after self.old (FlatOp.SetAttr gfid attr)) }
    {
        match self.get(gfid) {
            None => Ok(refused(AppError::Enoent)),
            Some(_) => {
                self.edit(alloc, gfid, Edit::PutAttr(attr))?;
                Ok(done())
            }
        }
    }

    pub(crate) fn delattr(
        &mut self,
        alloc: Global,
        gfid: Gfid,
        name: Seq<u8>,
    ) -> Result<FlatAnswer, AllocError>
        ensures answer { IfOk result (λ a. a ≡ flat_answer self.old (FlatOp.DelAttr gfid name)) }
        ensures files { OnOk result (self.new ≡ flat_after self.old (FlatOp.DelAttr gfid name)) }
    {
        match self.get(gfid) {
            None => Ok(refused(AppError::Enoent)),
            Some(object) => match find_attr(attrs_in(object), name.as_slice()) {
                None => Ok(refused(AppError::Enodata)),
                Some(_) => {
                    self.edit(alloc, gfid, Edit::DropAttr(name))?;
                    Ok(done())
                }
            },
        }
    }

    pub(crate) fn write(
        &mut self,
        alloc: Global,
        gfid: Gfid,
        offset: u32,
        bytes: Data,
    ) -> Result<FlatAnswer, AllocError>
        ensures answer { IfOk result (λ a. a ≡ flat_answer self.old (FlatOp.Write gfid offset bytes)) }
        ensures files { OnOk result (self.new ≡ flat_after self.old (FlatOp.Write gfid offset bytes)) }
    {
        match self.get(gfid) {
            None => Ok(refused(AppError::Enoent)),
            Some(FlatObject::Directory { .. }) => Ok(refused(AppError::Eisdir)),
            Some(FlatObject::File { .. }) => {
                if !ends_within(offset, bytes.as_slice()) {
                    return Ok(refused(AppError::Efbig));
                }
                self.write_file(alloc, gfid, offset, bytes)
            }
        }
    }

    // A write to a file, within its greatest length; one of no bytes changes nothing.
    #[tactic(auto, using(crate::proofs::Outcomes::write_of_is))]
    fn write_file(
        &mut self,
        alloc: Global,
        gfid: Gfid,
        offset: u32,
        bytes: Data,
    ) -> Result<FlatAnswer, AllocError>
        requires { offset + length bytes ≤ file_limit }
        ensures answer { IfOk result (λ a. a ≡ answer_in (write_of bytes (edited_at self.old gfid (Edit.Write offset bytes)))) }
        ensures files { OnOk result (self.new ≡ files_in (write_of bytes (edited_at self.old gfid (Edit.Write offset bytes))) self.old) }
    {
        let count = bytes.len() as u32;
        if count == 0 {
            return Ok(FlatAnswer::Call(Answer::Count(0)));
        }
        self.edit(alloc, gfid, Edit::Write { offset, bytes })?;
        Ok(FlatAnswer::Call(Answer::Count(count)))
    }
}
