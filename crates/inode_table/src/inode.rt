use fop_types::Kind;

/// What the mount knows of a gfid in use: its kind, the number of the set that has it, and how many
/// descriptors and file operations name it, from 1 on.
#[derive(Clone, Copy)]
pub struct Inode {
    pub kind: Kind,
    pub set: u8,
    pub held: u32,
}
