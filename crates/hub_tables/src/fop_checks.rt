//! Whether a fop is within the bounds of fops.
ghost use Rattle.std.specs.Prelude.{◌≡◌, ◌≤◌, ◌↔◌, IsTrue, true};
ghost use Rattle.std.specs.List.{list_all};
ghost use Rattle.fop_types.specs.Limits.{max_data};
ghost use Rattle.fop_types.specs.Bounds.{Each, IsComponent, IsFop, IsGfid, IsMode, IsObject, IsOpenFd, IsOpened, IsUnit, IsUserAttr, IsUserAttrName, is_component as is_component_word, is_name_byte};

use fop_types::{Attr, Fop, Gfid, Object, OpenFd};

// The greatest mode, the most bytes of a file, the longest value of an attribute, the most descriptors, and the most objects
// that are made.
const MODE: u16 = 511;

const DATA: usize = 65536;

const VALUE: usize = 1024;

const FDS: usize = 16384;

const MADE: u32 = 4096;

fn are_name_bytes(name: &[u8]) -> bool
    ensures { result ≡ list_all is_name_byte name.now }
{
    name.iter().all(|b| 33 <= *b && *b <= 126 && *b != b'/')
}

fn is_component(name: &[u8]) -> bool
    ensures { result ≡ is_component_word name.now }
{
    1 <= name.len()
        && are_name_bytes(name)
        && !(name == b".".as_slice() || name == b"..".as_slice())
}

fn is_user_attr_name(name: &[u8]) -> bool
    ensures { IsTrue result ↔ IsUserAttrName name.now }
{
    6 <= name.len() && name.len() <= 64 && &name[..5] == b"user.".as_slice()
}

fn is_user_attr(attr: &Attr) -> bool
    ensures { IsTrue result ↔ IsUserAttr attr.now }
{
    is_user_attr_name(attr.name.as_slice()) && attr.value.len() <= VALUE
}

// A gfid, an object and a size are within their bounds by their types.
fn is_gfid(gfid: Gfid) -> bool
    ensures within { IsGfid gfid }
    ensures yes { result ≡ true }
{
    let _ = gfid;
    true
}

fn is_object(object: Object) -> bool
    ensures within { IsObject object }
    ensures yes { result ≡ true }
{
    let _ = object;
    true
}

fn is_size(size: u32) -> bool
    ensures within { IsUnit size }
    ensures yes { result ≡ true }
{
    let _ = size;
    true
}

fn is_open_fd(fd: u32) -> bool
    ensures { IsTrue result ↔ IsOpenFd fd }
{
    fd >= 1
}

fn is_opened(fd: OpenFd) -> bool
    ensures { IsTrue result ↔ IsOpened fd }
{
    is_gfid(fd.gfid) && is_open_fd(fd.fd)
}

fn are_opened(fds: &[OpenFd]) -> bool
    ensures { IsTrue result ↔ Each IsOpened fds.now }
{
    for fd in fds {
        if !is_opened(*fd) {
            return false;
        }
    }
    true
}

fn is_named(parent: Object, name: &[u8]) -> bool
    ensures { IsTrue result ↔ (IsObject parent × IsComponent name.now) }
{
    is_object(parent) && is_component(name)
}

fn is_mode(mode: u16) -> bool
    ensures { IsTrue result ↔ IsMode mode }
{
    mode <= MODE
}

fn is_made(parent: Object, name: &[u8], mode: u16, drawn: Gfid) -> bool
    ensures { IsTrue result ↔ (IsObject parent × IsComponent name.now × IsMode mode × IsGfid drawn) }
{
    is_gfid(drawn) && is_named(parent, name) && is_mode(mode)
}

fn is_range(fd: u32, object: Object, offset: u32, len: usize) -> bool
    ensures { IsTrue result ↔ (IsOpenFd fd × IsObject object × (offset ≤ max_data) × (len ≤ max_data)) }
{
    is_object(object) && is_open_fd(fd) && offset as usize <= DATA && len <= DATA
}

/// Whether a fop is within its bounds, as those of a script's calls are.
pub fn is_fop(fop: &Fop) -> bool
    ensures { IsTrue result ↔ IsFop fop.now }
{
    match fop {
        Fop::Lookup { parent, name } => is_named(*parent, name.as_slice()),
        Fop::Mkdir {
            parent,
            name,
            mode,
            drawn,
        } => is_made(*parent, name.as_slice(), *mode, *drawn),
        Fop::Rmdir { parent, name } => is_named(*parent, name.as_slice()),
        Fop::Create {
            fd,
            parent,
            name,
            mode,
            drawn,
        } => is_open_fd(*fd) && is_made(*parent, name.as_slice(), *mode, *drawn),
        Fop::Unlink { parent, name } => is_named(*parent, name.as_slice()),
        Fop::Rename {
            parent,
            name,
            target,
            new_name,
        } => is_named(*parent, name.as_slice()) && is_named(*target, new_name.as_slice()),
        Fop::Open { fd, object } => is_object(*object) && is_open_fd(*fd),
        Fop::Stat { object } => is_object(*object),
        Fop::List { object } => is_object(*object),
        Fop::Chmod { object, mode } => is_object(*object) && is_mode(*mode),
        Fop::Truncate { object, size } => is_object(*object) && is_size(*size),
        Fop::SetAttr { object, attr } => is_object(*object) && is_user_attr(attr),
        Fop::GetAttr { object, name } => is_object(*object) && is_user_attr_name(name.as_slice()),
        Fop::DelAttr { object, name } => is_object(*object) && is_user_attr_name(name.as_slice()),
        Fop::Read {
            fd,
            object,
            offset,
            count,
        } => is_range(*fd, *object, *offset, *count as usize),
        Fop::Write {
            fd,
            object,
            offset,
            bytes,
        } => is_range(*fd, *object, *offset, bytes.len()),
        Fop::Migrate { fds } => fds.len() <= FDS && are_opened(fds.as_slice()),
        Fop::Heal { count } => *count <= MADE,
    }
}
