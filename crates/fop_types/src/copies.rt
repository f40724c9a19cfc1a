ghost use Rattle.std.specs.Prelude.{◌≡◌, IfOk};

use crate::contents::{Attr, Content, Item};
use crate::lists::Seq;
use std::alloc::{AllocError, Global};

impl Item {
    /// A copy of the item with its name and target.
    ///
    /// # Errors
    /// Out of memory.
    pub fn copy(&self, alloc: Global) -> Result<Item, AllocError>
        ensures { IfOk result (λ c. c ≡ self.now) }
    {
        let name = self.name.copy(alloc)?;
        let target = self.target.copy(alloc)?;
        Ok(Item {
            name,
            gfid: self.gfid,
            kind: self.kind,
            target,
        })
    }
}

impl Attr {
    /// A copy of the attribute with its name and value.
    ///
    /// # Errors
    /// Out of memory.
    pub fn copy(&self, alloc: Global) -> Result<Attr, AllocError>
        ensures { IfOk result (λ c. c ≡ self.now) }
    {
        let name = self.name.copy(alloc)?;
        let value = self.value.copy(alloc)?;
        Ok(Attr { name, value })
    }
}

impl Seq<Item> {
    /// A copy of the names, in time and memory of their length. The room is reserved once.
    ///
    /// # Errors
    /// Out of memory.
    pub fn copy_items(&self, alloc: Global) -> Result<Seq<Item>, AllocError>
        ensures { IfOk result (λ c. c ≡ self.now) }
    {
        let items = self.as_slice();
        let mut copies = Vec::with_capacity(alloc, items.len())?;
        for item in items {
            copies.push(item.copy(alloc)?)?;
        }
        Ok(Seq::from_vec(copies))
    }
}

impl Seq<Attr> {
    /// A copy of the attributes. The room is reserved once.
    ///
    /// # Errors
    /// Out of memory.
    pub fn copy_attrs(&self, alloc: Global) -> Result<Seq<Attr>, AllocError>
        ensures { IfOk result (λ c. c ≡ self.now) }
    {
        let attrs = self.as_slice();
        let mut copies = Vec::with_capacity(alloc, attrs.len())?;
        for attr in attrs {
            copies.push(attr.copy(alloc)?)?;
        }
        Ok(Seq::from_vec(copies))
    }
}

impl Content {
    /// A copy of the content.
    ///
    /// # Errors
    /// Out of memory.
    pub fn copy(&self, alloc: Global) -> Result<Content, AllocError>
        ensures { IfOk result (λ c. c ≡ self.now) }
    {
        match self {
            Content::Bytes(bytes) => {
                let bytes = bytes.copy(alloc)?;
                Ok(Content::Bytes(bytes))
            }
            Content::Meta { mode, attrs, span } => {
                let attrs = attrs.copy_attrs(alloc)?;
                Ok(Content::Meta {
                    mode: *mode,
                    attrs,
                    span: *span,
                })
            }
            Content::Names { removed, items } => {
                let items = items.copy_items(alloc)?;
                Ok(Content::Names {
                    removed: *removed,
                    items,
                })
            }
        }
    }
}
