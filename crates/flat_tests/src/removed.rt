use flat_fs::FlatFs;
use fop_types::{Answer, AppError, FlatAnswer, FlatOp, Gfid, Seq};
use std::alloc::{AllocError, Global};

const ROOT: Gfid = Gfid { hi: 0, lo: 1 };

const MADE: Gfid = Gfid { hi: 0, lo: 2 };

// A name of so many bytes, and the error of its look-up in a removed directory.
const NAMES: [(usize, AppError); 2] = [(1, AppError::Enoent), (256, AppError::Enametoolong)];

fn named(alloc: Global, length: usize) -> Result<Seq<u8>, AllocError> {
    let mut name = Vec::new(alloc);
    name.resize(length, b'n')?;
    Ok(Seq::from_vec(name))
}

fn carry_out(alloc: Global, files: &mut FlatFs, op: FlatOp) -> Result<(), AllocError> {
    drop(files.apply(alloc, op)?);
    Ok(())
}

// Makes a directory and removes it.
fn remove(alloc: Global, files: &mut FlatFs) -> Result<(), AllocError> {
    let name = named(alloc, 1)?;
    let made = FlatOp::Mkdir {
        parent: ROOT,
        name,
        mode: 0o755,
        drawn: MADE,
    };
    carry_out(alloc, files, made)?;
    let name = named(alloc, 1)?;
    carry_out(alloc, files, FlatOp::Rmdir { parent: ROOT, name })
}

fn is_error(answer: &FlatAnswer, error: AppError) -> bool {
    match answer {
        FlatAnswer::Call(Answer::App(found)) => *found == error,
        _ => false,
    }
}

fn refuses(
    alloc: Global,
    files: &mut FlatFs,
    op: FlatOp,
    error: AppError,
) -> Result<bool, AllocError> {
    let answer = files.apply(alloc, op)?;
    let refused = is_error(&answer, error);
    drop(answer);
    Ok(refused)
}

// Whether a look-up of a name of so many bytes gives this error.
fn lacks(
    alloc: Global,
    files: &mut FlatFs,
    length: usize,
    error: AppError,
) -> Result<bool, AllocError> {
    let name = named(alloc, length)?;
    refuses(alloc, files, FlatOp::Lookup { parent: MADE, name }, error)
}

// Whether each look-up and a listing of the removed directory give their errors.
fn is_removed(alloc: Global, files: &mut FlatFs) -> Result<bool, AllocError> {
    for (length, error) in &NAMES {
        if !lacks(alloc, files, *length, *error)? {
            return Ok(false);
        }
    }
    refuses(alloc, files, FlatOp::List { gfid: MADE }, AppError::Enoent)
}

fn stays_removed(alloc: Global) -> Result<bool, AllocError> {
    let mut files = FlatFs::new(alloc)?;
    remove(alloc, &mut files)?;
    is_removed(alloc, &mut files)
}

// A removed directory stays under its gfid, which a call that looked it up before may still have: it has no names and
// takes none.
#[test]
fn removed(rt: HostRuntime) {
    assert!(rt; matches!(stays_removed(rt.alloc()), Ok(true)));
}
