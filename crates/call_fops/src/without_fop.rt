ghost use Rattle.std.specs.Prelude.{◌≡◌};
ghost use Rattle.std.specs.FinMap as fin;
ghost use Rattle.fop_types.specs.Calls.{at_once as answer_of, of_root, or_else, where_open as where_open_of, where_closed as where_closed_of, seek_answer as seek_answer_of, close_answer as close_answer_of};
ghost use Rattle.call_fops.specs.Answered.{move_at_once as move_of, reply_at_once};
ghost use Rattle.call_fops.specs.Descriptors.{fds_of};

use crate::objects::open_fd;
use crate::replies::{CallReply, FdMove};
use fd_table::FdTable;
use fop_types::{Answer, AppError, Call, Path};

// The greatest offset of a descriptor, in bytes.
const FILE_LIMIT: u32 = 65536;

#[tactic(auto, using(crate::proofs::Components::of_root_is))]
fn at_root(path: &Path, error: AppError) -> Option<Answer>
    ensures { result ≡ of_root path.now.parts error }
{
    if path.parts.is_empty() {
        return Some(Answer::App(error));
    }
    None
}

fn where_open(fds: &FdTable, session: u8, fd: u8) -> Option<Answer>
    ensures { result ≡ where_open_of (fin.get (fds_of fds.now session) fd) }
{
    match open_fd(fds, session, fd) {
        None => None,
        Some(_) => Some(Answer::App(AppError::Einval)),
    }
}

fn where_closed(fds: &FdTable, session: u8, fd: u8) -> Option<Answer>
    ensures { result ≡ where_closed_of (fin.get (fds_of fds.now session) fd) }
{
    match open_fd(fds, session, fd) {
        None => Some(Answer::App(AppError::Ebadf)),
        Some(_) => None,
    }
}

fn seek_answer(fds: &FdTable, session: u8, fd: u8, offset: u32) -> Option<Answer>
    ensures { result ≡ seek_answer_of (fin.get (fds_of fds.now session) fd) offset }
{
    match open_fd(fds, session, fd) {
        None => Some(Answer::App(AppError::Ebadf)),
        Some(_) => {
            if offset > FILE_LIMIT {
                return Some(Answer::App(AppError::Einval));
            }
            Some(Answer::Count(offset))
        }
    }
}

fn close_answer(fds: &FdTable, session: u8, fd: u8) -> Option<Answer>
    ensures { result ≡ close_answer_of (fin.get (fds_of fds.now session) fd) }
{
    match open_fd(fds, session, fd) {
        None => Some(Answer::App(AppError::Ebadf)),
        Some(_) => Some(Answer::Done),
    }
}

fn create_answer(fds: &FdTable, session: u8, fd: u8, path: &Path) -> Option<Answer>
    ensures { result ≡ or_else (where_open_of (fin.get (fds_of fds.now session) fd)) (of_root path.now.parts AppError.Eexist) }
{
    match where_open(fds, session, fd) {
        Some(answer) => Some(answer),
        None => at_root(path, AppError::Eexist),
    }
}

fn rename_answer(path: &Path, target: &Path) -> Option<Answer>
    ensures { result ≡ or_else (of_root path.now.parts AppError.Eopnotsupp) (of_root target.now.parts AppError.Eisdir) }
{
    match at_root(path, AppError::Eopnotsupp) {
        Some(answer) => Some(answer),
        None => at_root(target, AppError::Eisdir),
    }
}

fn answer_at_once(call: &Call, session: u8, fds: &FdTable) -> Option<Answer>
    ensures { result ≡ answer_of (fds_of fds.now session) call.now }
{
    match call {
        Call::Mkdir { path, .. } => at_root(path, AppError::Eexist),
        Call::Rmdir { path } => at_root(path, AppError::Ebusy),
        Call::Create { fd, path, .. } => create_answer(fds, session, *fd, path),
        Call::Unlink { path } => at_root(path, AppError::Eisdir),
        Call::Rename { path, target } => rename_answer(path, target),
        Call::Open { fd, .. } => where_open(fds, session, *fd),
        Call::Stat { .. } => None,
        Call::List { .. } => None,
        Call::Chmod { .. } => None,
        Call::Truncate { .. } => None,
        Call::SetAttr { .. } => None,
        Call::GetAttr { .. } => None,
        Call::DelAttr { .. } => None,
        Call::Read { fd, .. } => where_closed(fds, session, *fd),
        Call::Write { fd, .. } => where_closed(fds, session, *fd),
        Call::Seek { fd, offset } => seek_answer(fds, session, *fd, *offset),
        Call::Close { fd } => close_answer(fds, session, *fd),
    }
}

fn move_at_once(call: &Call, answer: &Answer) -> FdMove
    ensures { result ≡ move_of call.now answer.now }
{
    match call {
        Call::Seek { fd, .. } => match answer {
            Answer::Count(offset) => FdMove::Seeks {
                fd: *fd,
                offset: *offset,
            },
            _ => FdMove::Stays,
        },
        Call::Close { fd } => match answer {
            Answer::Done => FdMove::Closes { fd: *fd },
            _ => FdMove::Stays,
        },
        _ => FdMove::Stays,
    }
}

/// What a call of a session is answered without a fop, by its path and the session's descriptors alone: an error, a
/// descriptor that is moved, or one that is closed. `None` exactly where the call sends fops.
pub fn at_once(call: &Call, session: u8, fds: &FdTable) -> Option<CallReply>
    ensures { result ≡ reply_at_once (fds_of fds.now session) call.now }
{
    match answer_at_once(call, session, fds) {
        Some(answer) => {
            let fd = move_at_once(call, &answer);
            Some(CallReply { answer, fd })
        }
        None => None,
    }
}
