ghost use Rattle.std.specs.Prelude.{◌≡◌};
ghost use Rattle.dht_linkto.specs.DirNames.{first_content};
ghost use Rattle.dht_fops.specs.Courses.{contents_in, number_in};
ghost use Rattle.dht_fops.specs.Internal.{cells_in};
ghost use Rattle.dht_fops.specs.Objects.{bytes_of, mode_of, second_content};
ghost use Rattle.fop_types.specs.StoreOps.{attrs_of};

use fop_types::{Attr, Cell, Content, Data, IoError, Seq, SetReply};
use std::alloc::Global;

/// The contents that a read gave, and its place. A reply that answers no read, which no set gives to one, has none.
pub(crate) fn contents_in(
    alloc: Global,
    reply: SetReply,
) -> Result<(Seq<Option<Content>>, u32), IoError>
    ensures { result ≡ contents_in reply }
{
    match reply {
        SetReply::Contents(contents, place) => Ok((contents, place)),
        SetReply::Io(error) => Err(error),
        other => {
            drop(other);
            Ok((Seq::new(alloc), 0))
        }
    }
}

/// The number of the entry that a change made, if it made one.
pub(crate) fn number_in(reply: SetReply) -> Result<Option<u32>, IoError>
    ensures { result ≡ number_in reply }
{
    match reply {
        SetReply::Decided(number) => Ok(number),
        SetReply::Io(error) => Err(error),
        other => {
            drop(other);
            Ok(None)
        }
    }
}

/// The cells that a set listed.
pub(crate) fn cells_in(alloc: Global, reply: SetReply) -> Seq<Cell>
    ensures { result ≡ cells_in reply }
{
    match reply {
        SetReply::Listed {
            cells,
            answered: _,
            short: _,
        } => cells,
        other => {
            drop(other);
            Seq::new(alloc)
        }
    }
}

/// The first of the contents, which is taken out of them.
pub(crate) fn take_first(contents: &mut Seq<Option<Content>>) -> Option<Content>
    ensures first { result ≡ first_content contents.old }
    ensures rest { first_content contents.new ≡ second_content contents.old }
{
    if contents.is_empty() {
        None
    } else {
        contents.remove(0)
    }
}

/// A file's bytes; none where the content is no file's.
pub(crate) fn bytes_of(alloc: Global, content: Option<Content>) -> Data
    ensures { result ≡ bytes_of content }
{
    match content {
        Some(Content::Bytes(bytes)) => bytes,
        Some(
            Content::Meta {
                mode: _,
                attrs: _,
                span: _,
            },
        ) => Data::new(alloc),
        Some(
            Content::Names {
                removed: _,
                items: _,
            },
        ) => Data::new(alloc),
        None => Data::new(alloc),
    }
}

/// An object's mode; 0 where the content is no metadata.
pub(crate) fn mode_of(content: &Option<Content>) -> u16
    ensures { result ≡ mode_of content.now }
{
    match content {
        Some(
            Content::Meta {
                mode,
                attrs: _,
                span: _,
            },
        ) => *mode,
        Some(Content::Bytes(_)) => 0,
        Some(
            Content::Names {
                removed: _,
                items: _,
            },
        ) => 0,
        None => 0,
    }
}

/// An object's attributes; none where the content is no metadata.
pub(crate) fn attrs_of(alloc: Global, content: Option<Content>) -> Seq<Attr>
    ensures { result ≡ attrs_of content }
{
    match content {
        Some(
            Content::Meta {
                mode: _,
                attrs,
                span: _,
            },
        ) => attrs,
        Some(Content::Bytes(_)) => Seq::new(alloc),
        Some(
            Content::Names {
                removed: _,
                items: _,
            },
        ) => Seq::new(alloc),
        None => Seq::new(alloc),
    }
}
