//! Lines of what a brick shows of an object.
ghost use Rattle.std.specs.Prelude.{◌≡◌, ◌++◌, ◌<◌, [], ◌∷◌, Some, OnOk, flat_map};
ghost use Rattle.afr_changelog.specs.Bytes.{encoded};
ghost use Rattle.cell_store.specs.Dump.{are_zero as are_all_zero, counters_line, span_line, item_line, content_lines, replica_line, rows_lines};

use crate::text::Text;
use afr_changelog::write12;
use fop_types::{Content, Gfid, Item, Kind, Row, Seq, Span};
use std::alloc::AllocError;

fn are_zero(of_data: u32, of_meta: u32, of_names: u32) -> bool
    ensures { result ≡ are_all_zero of_data of_meta of_names }
{
    of_data == 0 && of_meta == 0 && of_names == 0
}

// The numbers 1, 0, first and last.
fn span_value(span: Span) -> [u8; 16]
    ensures { result ≡ encoded (1 ∷ 0 ∷ span.first ∷ span.last ∷ []) }
{
    let mut bytes = [0; 16];
    bytes[..4].copy_from_slice(&1u32.to_be_bytes());
    bytes[8..12].copy_from_slice(&span.first.to_be_bytes());
    bytes[12..].copy_from_slice(&span.last.to_be_bytes());
    bytes
}

impl Text {
    #[tactic(auto, unfolding(crate::specs::Dump::counters_line))]
    fn counters(
        &mut self,
        gfid: Gfid,
        name: &[u8],
        of_data: u32,
        of_meta: u32,
        of_names: u32,
    ) -> Result<(), AllocError>
        ensures { OnOk result (self.new ≡ self.old ++ counters_line gfid name.now of_data of_meta of_names) }
    {
        if are_zero(of_data, of_meta, of_names) {
            return Ok(());
        }
        let value = write12([of_data, of_meta, of_names]);
        self.attribute(gfid, b" trusted.afr.", name, &value)
    }

    fn replica(
        &mut self,
        names: &[Seq<u8>],
        gfid: Gfid,
        of_data: &Row,
        of_meta: &Row,
        of_names: &Row,
        replica: usize,
    ) -> Result<(), AllocError>
        requires { replica < 5 }
        ensures { OnOk result (self.new ≡ self.old ++ replica_line names.now gfid of_data.now of_meta.now of_names.now replica) }
    {
        let in_data = of_data.pending[replica];
        let in_meta = of_meta.pending[replica];
        let in_entry = of_names.pending[replica];
        match names.get(replica) {
            Some(name) => self.counters(gfid, name.as_slice(), in_data, in_meta, in_entry),
            None => {
                let number = [b'0' + replica as u8];
                self.counters(gfid, &number, in_data, in_meta, in_entry)
            }
        }
    }

    /// The counters of an object, by the rows of its data, metadata and names.
    #[tactic(auto, unfolding(crate::specs::Dump::rows_lines))]
    pub fn rows(
        &mut self,
        names: &[Seq<u8>],
        gfid: Gfid,
        of_data: &Row,
        of_meta: &Row,
        of_names: &Row,
    ) -> Result<(), AllocError>
        ensures { OnOk result (self.new ≡ self.old ++ rows_lines names.now gfid of_data.now of_meta.now of_names.now) }
    {
        self.counters(gfid, b"dirty", of_data.dirty, of_meta.dirty, of_names.dirty)?;
        self.replica(names, gfid, of_data, of_meta, of_names, 0)?;
        self.replica(names, gfid, of_data, of_meta, of_names, 1)?;
        self.replica(names, gfid, of_data, of_meta, of_names, 2)?;
        self.replica(names, gfid, of_data, of_meta, of_names, 3)?;
        self.replica(names, gfid, of_data, of_meta, of_names, 4)
    }

    fn span(&mut self, gfid: Gfid, span: Option<Span>) -> Result<(), AllocError>
        ensures { OnOk result (self.new ≡ self.old ++ span_line gfid span) }
    {
        match span {
            Some(span) => {
                self.attribute(gfid, b" trusted.glusterfs.", b"dht", &span_value(span))
            }
            None => Ok(()),
        }
    }

    #[tactic(auto, unfolding(crate::specs::Dump::item_line))]
    fn link(&mut self, parent: Gfid, item: &Item) -> Result<(), AllocError>
        ensures { OnOk result (self.new ≡ self.old ++ item_line parent item.now) }
    {
        match item.kind {
            Kind::Link => self.words(
                parent,
                b"/",
                item.name.as_slice(),
                b" 01000 trusted.glusterfs.dht.linkto ",
                item.target.as_slice(),
            ),
            Kind::File => Ok(()),
            Kind::Dir => Ok(()),
        }
    }

    fn links(&mut self, parent: Gfid, items: &[Item]) -> Result<(), AllocError>
        ensures { OnOk result (self.new ≡ self.old ++ flat_map (item_line parent) items.now) }
    {
        for item in items {
            self.link(parent, item)?;
        }
        Ok(())
    }

    /// What a copy has of its own: a directory's range, or its links.
    pub fn content(&mut self, gfid: Gfid, content: &Content) -> Result<(), AllocError>
        ensures { OnOk result (self.new ≡ self.old ++ content_lines gfid (Some content.now)) }
    {
        match content {
            Content::Bytes(_) => Ok(()),
            Content::Meta { span, .. } => self.span(gfid, *span),
            Content::Names { items, .. } => self.links(gfid, items.as_slice()),
        }
    }
}
