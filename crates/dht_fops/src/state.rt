use crate::changes::AttrDrop;
use crate::drops::{DirDrop, NameDrop};
use crate::entries::NewDir;
use crate::internal::{Healing, Indexing, Opening};
use crate::list::Listing;
use crate::look::PendingLook;
use crate::objects::Range;
use crate::rename::{Renaming, Source};
use crate::spans_read::PendingSpans;
use fop_types::{FopAnswer, Seq};

/// What a fop waits with, by what the reply is to give.
#[derive(Drop)]
pub(crate) enum State {
    Names(OnNames),
    Contents(OnContents),
    Number(OnNumber),
    Reply(OnReply),
}

/// A directory's names on a set are read.
#[derive(Drop)]
pub(crate) enum OnNames {
    /// For one of them.
    Look(PendingLook),
    /// For all of them.
    List(Listing),
    /// To see whether the directory, which is to be removed, has any; with the set that is read next.
    Empty(DirDrop, u8),
    /// To see whether a file's set has a copy of the new parent; with the set of a file that is replaced.
    Copy(Renaming, Option<u8>),
}

/// Contents of cells are read.
#[derive(Drop)]
pub(crate) enum OnContents {
    /// A directory's range on a set.
    Spans(PendingSpans),
    DirStat,
    FileStat,
    /// An object's metadata, for one attribute.
    GetAttr(Seq<u8>),
    /// An object's metadata, for an attribute that is to be dropped.
    DelAttr(AttrDrop),
    Bytes(Range),
}

/// A change is made, or what is like one: the reply says that it is done.
#[derive(Drop)]
pub(crate) enum OnNumber {
    /// A descriptor is opened.
    Open,
    /// The fop's last job, with the answer.
    Change(FopAnswer),
    /// A new directory's copy on a set.
    Birth(NewDir),
    /// The unlink of a file.
    Unlink(NameDrop),
    /// The unlink of a file that is replaced; with whether the file's set has a copy of the new parent.
    Replace(Renaming, bool),
    /// A copy of the new parent on the file's set.
    Bear(Renaming),
    /// The move.
    Move(Renaming),
}

/// The fop goes on whatever the reply, or waits for none.
#[derive(Drop)]
pub(crate) enum OnReply {
    /// The fop is done.
    End,
    /// The drop of a link, which is the fop's last job; with the number of the fop's entry.
    LinkDrop(Option<u32>),
    /// The extension of the hold by a directory that is to be removed.
    Extend(DirDrop),
    /// The link of the new name; with the number of the move's entry.
    NewLink(Source, Option<u32>),
    /// A descriptor is opened again.
    Reopen(Opening),
    /// The cells of a set are listed.
    Index(Indexing),
    /// A cell is healed.
    Heal(Healing),
}
