ghost use Rattle.std.specs.Prelude.{◌≡◌};
ghost use Rattle.std.specs.FinMap as map;
ghost use Rattle.fop_types.specs.Calls.{at_once as at_once_of, of_root, where_open as where_open_of, where_closed as where_closed_of, seek_answer as seek_answer_of, close_answer as close_answer_of, or_else};

use crate::fds::Fds;
use fop_types::{Answer, AppError, Call, Path};

const FILE_LIMIT: u32 = 65536;

#[tactic(auto, using(crate::proofs::Walks::of_root_is))]
fn at_root(path: &Path, error: AppError) -> Option<Answer>
    ensures { result ≡ of_root path.now.parts error }
{
    if path.parts.is_empty() {
        return Some(Answer::App(error));
    }
    None
}

fn where_open(fds: &Fds, fd: u8) -> Option<Answer>
    ensures { result ≡ where_open_of (map.get fds.now fd) }
{
    match fds.get(fd) {
        None => None,
        Some(_) => Some(Answer::App(AppError::Einval)),
    }
}

fn where_closed(fds: &Fds, fd: u8) -> Option<Answer>
    ensures { result ≡ where_closed_of (map.get fds.now fd) }
{
    match fds.get(fd) {
        None => Some(Answer::App(AppError::Ebadf)),
        Some(_) => None,
    }
}

fn seek_answer(fds: &Fds, fd: u8, offset: u32) -> Option<Answer>
    ensures { result ≡ seek_answer_of (map.get fds.now fd) offset }
{
    match fds.get(fd) {
        None => Some(Answer::App(AppError::Ebadf)),
        Some(_) => {
            if offset > FILE_LIMIT {
                return Some(Answer::App(AppError::Einval));
            }
            Some(Answer::Count(offset))
        }
    }
}

fn close_answer(fds: &Fds, fd: u8) -> Option<Answer>
    ensures { result ≡ close_answer_of (map.get fds.now fd) }
{
    match fds.get(fd) {
        None => Some(Answer::App(AppError::Ebadf)),
        Some(_) => Some(Answer::Done),
    }
}

fn create_at_once(fds: &Fds, fd: u8, path: &Path) -> Option<Answer>
    ensures { result ≡ or_else (where_open_of (map.get fds.now fd)) (of_root path.now.parts AppError.Eexist) }
{
    match where_open(fds, fd) {
        Some(answer) => Some(answer),
        None => at_root(path, AppError::Eexist),
    }
}

fn rename_at_once(path: &Path, target: &Path) -> Option<Answer>
    ensures { result ≡ or_else (of_root path.now.parts AppError.Eopnotsupp) (of_root target.now.parts AppError.Eisdir) }
{
    match at_root(path, AppError::Eopnotsupp) {
        Some(answer) => Some(answer),
        None => at_root(target, AppError::Eisdir),
    }
}

/// What a call answers by its session's descriptors and its path alone.
pub fn at_once(fds: &Fds, call: &Call) -> Option<Answer>
    ensures { result ≡ at_once_of fds.now call.now }
{
    match call {
        Call::Mkdir { path, .. } => at_root(path, AppError::Eexist),
        Call::Rmdir { path } => at_root(path, AppError::Ebusy),
        Call::Create { fd, path, .. } => create_at_once(fds, *fd, path),
        Call::Unlink { path } => at_root(path, AppError::Eisdir),
        Call::Rename { path, target } => rename_at_once(path, target),
        Call::Open { fd, .. } => where_open(fds, *fd),
        Call::Stat { .. } => None,
        Call::List { .. } => None,
        Call::Chmod { .. } => None,
        Call::Truncate { .. } => None,
        Call::SetAttr { .. } => None,
        Call::GetAttr { .. } => None,
        Call::DelAttr { .. } => None,
        Call::Read { fd, .. } => where_closed(fds, *fd),
        Call::Write { fd, .. } => where_closed(fds, *fd),
        Call::Seek { fd, offset } => seek_answer(fds, *fd, *offset),
        Call::Close { fd } => close_answer(fds, *fd),
    }
}
