/// Who asks for a lock: one call of one graph. An owner has at most one request at a time, on all its cells. Owners
/// are ordered by graph and then by call.
#[derive(Clone, Copy, PartialEq, Eq, PartialOrd, Ord)]
pub struct Owner {
    /// The number of the graph, as its client connected with it.
    pub graph: u32,
    /// The number of the call in its mount.
    pub call: u32,
}
