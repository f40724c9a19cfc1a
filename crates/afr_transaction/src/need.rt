use fop_types::{BrickReq, CopyJob, Seq, SetReply, SplitRow};

/// What a transaction needs next: requests to replicas, a copy with the rows of its lock phase, nothing before the
/// next answer, or nothing more, with its reply.
#[derive(Drop)]
pub enum Need {
    Send(Seq<(u8, BrickReq)>),
    Copy(CopyJob, Seq<SplitRow>),
    Reply(SetReply),
    Wait,
}
