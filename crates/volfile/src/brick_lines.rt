use fop_types::Seq;

/// A brick: its name in the script, and the host and path by which a volfile's clients name it.
#[derive(Drop)]
pub struct BrickLine {
    pub name: Seq<u8>,
    pub host: Seq<u8>,
    pub path: Seq<u8>,
}
