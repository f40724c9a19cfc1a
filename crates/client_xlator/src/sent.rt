use fop_types::Seq;

/// What came of a request: the messages for the brick, in order, or that the connection which it needs is
/// not open, and then nothing is sent.
#[derive(Drop)]
pub enum Sent {
    Messages(Seq<Seq<u8>>),
    NotConnected,
}
