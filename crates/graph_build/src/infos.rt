use fop_types::Seq;

// What a volume is: a client of a brick, an io-cache of so many pages, or one that hands fops through.
#[derive(Clone, Copy)]
pub(crate) enum Role {
    Client(u8),
    Replicate,
    Distribute,
    IoCache(u32),
    IoThreads,
    Pass,
}

// What is in a tree of volumes: the number of volumes on its longest path; whether all that it has are
// clients and pass-through volumes over one; whether there is a distribute volume, an io-cache, and an
// io-cache or io-threads.
#[derive(Clone, Copy)]
pub(crate) struct Tree {
    pub depth: u16,
    pub plain: bool,
    pub distribute: bool,
    pub cache: bool,
    pub queue: bool,
}

// Places of volumes are from 0; a volfile has at most 256.
//
// What is known of a volume: its role, the places of its subvolumes, the place of the client, replicate or
// distribute volume to which the way down from it leads, and the tree of which it is the top.
#[derive(Drop)]
pub(crate) struct Info {
    pub role: Role,
    pub below: Seq<u8>,
    pub bottom: u8,
    pub tree: Tree,
}
