//! The descriptors of requests.
ghost use Rattle.std.specs.Prelude.{◌≡◌, ◌≢◌, IfSome, Some, None};
ghost use Rattle.client_xlator.specs.Client.{carried};
ghost use Rattle.graph_items.specs.Descriptors.{some_fd, file_of, fd_of, opened_by};

use fop_types::{BrickReq, Gfid, StoreOp};

fn some_fd(fd: u32, gfid: Gfid) -> Option<(u32, Gfid)>
    ensures is { result ≡ some_fd fd gfid }
    ensures carried { IfSome result (λ f. (f.0 ≢ 0) × (fd ≡ f.0)) }
{
    if fd == 0 { None } else { Some((fd, gfid)) }
}

// The file whose bytes an op of a descriptor changes.
fn file_of(op: &StoreOp) -> Option<Gfid>
    ensures { result ≡ file_of op.now }
{
    match op {
        StoreOp::Write { gfid, .. } => Some(*gfid),
        _ => None,
    }
}

/// The descriptor on which a request goes, with its file, and `None` where it goes on none. An open opens one itself.
pub fn fd_of(req: &BrickReq) -> Option<(u32, Gfid)>
    ensures is { result ≡ fd_of req.now }
    ensures carried { IfSome result (λ f. (f.0 ≢ 0) × (carried req.now ≡ f.0)) }
{
    match req {
        BrickReq::Fetch { fd, cell } => some_fd(*fd, cell.gfid),
        BrickReq::Op { fd, op, .. } => match file_of(op) {
            Some(gfid) => some_fd(*fd, gfid),
            None => None,
        },
        _ => None,
    }
}

/// The descriptor that is open once a request was answered Done: that of an open of its own.
pub fn opened_by(req: &BrickReq) -> Option<(u32, Gfid)>
    ensures { result ≡ opened_by req.now }
{
    match req {
        BrickReq::Open { fd, gfid } => Some((*fd, *gfid)),
        _ => None,
    }
}
