ghost use Rattle.std.specs.Prelude.{◌≡◌, true, Some, IsOk, OnOk, OnErr};
ghost use Rattle.std.specs.Option.{option_copied};
ghost use Rattle.fop_types.specs.Names.{item_named, attr_named};
ghost use Rattle.fop_types.specs.StoreOps.{items_of, attrs_of};
ghost use Rattle.contents.specs.Edits.{Fits, edited_by, is_sure};
ghost use Rattle.contents.specs.Rising.{IsRising, is_rising};

use crate::attrs::find_attr_by;
use crate::edits::{Edit, edit_by};
use crate::halves::{Search, rise};
use crate::names::find_item_by;
use fop_types::{Attr, Content, Item};
use std::alloc::{AllocError, Global};
use std::marker::Model;

/// A content that is kept. Whether its names rise is looked at once, when it is put in, and stays so with each edit;
/// where they do, as in every message of a brick, a name is found by halves. Contracts see the content.
#[derive(Drop)]
pub struct OrderedContent {
    content: Content,
    search: Search,
}

impl Model for OrderedContent {
    ghost use Rattle.std.specs.Prelude.{◌≡◌};
    ghost use Rattle.fop_types.specs.declared.contents.Content.{Content};
    ghost use Rattle.contents.specs.Rising.{IsRising};
    ghost use Rattle.contents.specs.declared.halves.Search.TheVariants.{Halves};

    ghost Value = { Content };

    ghost view = { λ c. c.content };

    ghost invariant = { λ c. c.search ≡ Halves → IsRising c.content };
}

// Whether the names of a content rise.
fn is_rising(content: &Content) -> bool
    ensures { result ≡ is_rising content.now }
{
    match content {
        Content::Bytes(_) => true,
        Content::Meta { attrs, .. } => rise(attrs.as_slice()),
        Content::Names { items, .. } => rise(items.as_slice()),
    }
}

impl OrderedContent {
    /// A content that is put in. Its names are looked at once.
    pub fn new(content: Content) -> OrderedContent
        ensures { result ≡ content }
    {
        if is_rising(&content) {
            return OrderedContent {
                content,
                search: Search::Halves,
            };
        }
        OrderedContent {
            content,
            search: Search::InTurn,
        }
    }

    /// The content.
    pub fn content(&self) -> &Content
        ensures { result.now ≡ self.now }
    {
        &self.content
    }

    /// The item of a name, `None` where there is none, as in a content that is no directory's. Of n items about log n
    /// names are compared where they rise.
    pub fn item(&self, name: &[u8]) -> Option<&Item>
        ensures { option_copied result ≡ item_named (items_of (Some self.now)) name.now }
    {
        match &self.content {
            Content::Bytes(_) => None,
            Content::Meta { .. } => None,
            Content::Names { items, .. } => find_item_by(items.as_slice(), name, self.search),
        }
    }

    /// The attribute of a name, `None` where there is none, as in a content that is no metadata. Of n attributes about
    /// log n names are compared where they rise.
    pub fn attr(&self, name: &[u8]) -> Option<&Attr>
        ensures { option_copied result ≡ attr_named (attrs_of (Some self.now)) name.now }
    {
        match &self.content {
            Content::Bytes(_) => None,
            Content::Meta { attrs, .. } => find_attr_by(attrs.as_slice(), name, self.search),
            Content::Names { .. } => None,
        }
    }

    /// Edits the content in its place, as [`edit_content`](crate::edit_content) does, and finds names by halves where
    /// they rise.
    ///
    /// # Errors
    /// Out of memory, with nothing changed.
    pub fn edit(&mut self, alloc: Global, edit: Edit) -> Result<(), AllocError>
        requires { Fits edit }
        ensures ok { OnOk result (self.new ≡ edited_by edit self.old) }
        ensures err { OnErr result (self.new ≡ self.old) }
        ensures sure { is_sure edit ≡ true → IsOk result }
    {
        edit_by(alloc, &mut self.content, edit, self.search)?;
        Ok(())
    }
}
