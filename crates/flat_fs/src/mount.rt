ghost use Rattle.std.specs.Prelude.{◌≡◌, true, false, OnOk, OnErr, IfOk, is_err, replicate, length};
ghost use Rattle.fop_types.specs.Calls.{makes as makes_of, looked_up, last_op as last_op_of};
ghost use Rattle.std.specs.FinMap as map;
ghost use Rattle.flat_fs.specs.Mount.{Mount, first_mount, paths_walk, served, by_walk, by_op, file_given as file_of, answer_to, after_call, RunsInOrder};
ghost use Rattle.flat_fs.specs.Walks.{objects};

use crate::at_once::at_once;
use crate::fds::Fds;
use crate::flat_fs::FlatFs;
use crate::last_op::last_op;
use crate::walk::Found;
use fop_types::{Answer, Call, FlatAnswer, Gfid};
use std::alloc::{AllocError, Global};
use std::marker::Model;

// The answer of a call, and the file of the descriptor that it opens.
#[derive(Drop)]
struct Reply {
    answer: Answer,
    file: Gfid,
}

const ROOT: Gfid = Gfid { hi: 0, lo: 1 };

fn file_given(call: &Call, found: Found, drawn: Gfid) -> Gfid
    ensures { result ≡ file_of call.now (objects found) drawn }
{
    match call {
        Call::Create { .. } => drawn,
        Call::Open { .. } => match found {
            Found::Nothing => ROOT,
            Found::One(gfid) => gfid,
            Found::Two(gfid, _) => gfid,
        },
        _ => ROOT,
    }
}

// A call whose look-ups led to objects.
fn serve_found(
    alloc: Global,
    files: &mut FlatFs,
    fds: &Fds,
    drawn: Gfid,
    call: &Call,
    found: Found,
) -> Result<Reply, AllocError>
    ensures answer { IfOk result (λ r. r.answer ≡ (by_op files.old (file_of call.now (objects found) drawn) (last_op_of call.now (objects found) drawn fds.now)).answer) }
    ensures file { IfOk result (λ r. r.file ≡ (by_op files.old (file_of call.now (objects found) drawn) (last_op_of call.now (objects found) drawn fds.now)).file) }
    ensures files { OnOk result (files.new ≡ (by_op files.old (file_of call.now (objects found) drawn) (last_op_of call.now (objects found) drawn fds.now)).files) }
{
    let file = file_given(call, found, drawn);
    match last_op(alloc, call, found, drawn, fds)? {
        None => Ok(Reply {
            answer: Answer::Done,
            file: ROOT,
        }),
        Some(op) => match files.apply(alloc, op)? {
            FlatAnswer::Call(answer) => Ok(Reply { answer, file }),
            FlatAnswer::Found { .. } => Ok(Reply {
                answer: Answer::Done,
                file,
            }),
        },
    }
}

// A call that is not answered at once.
#[tactic(auto, using(crate::proofs::Walks::by_stop))]
fn serve_walk(
    alloc: Global,
    files: &mut FlatFs,
    fds: &Fds,
    drawn: Gfid,
    call: &Call,
) -> Result<Reply, AllocError>
    ensures answer { IfOk result (λ r. r.answer ≡ (by_walk files.old fds.now drawn call.now (paths_walk files.old (looked_up call.now))).answer) }
    ensures file { IfOk result (λ r. r.file ≡ (by_walk files.old fds.now drawn call.now (paths_walk files.old (looked_up call.now))).file) }
    ensures files { OnOk result (files.new ≡ (by_walk files.old fds.now drawn call.now (paths_walk files.old (looked_up call.now))).files) }
{
    match files.walk(call) {
        Err(error) => Ok(Reply {
            answer: Answer::App(error),
            file: ROOT,
        }),
        Ok(found) => serve_found(alloc, files, fds, drawn, call, found),
    }
}

fn serve(
    alloc: Global,
    files: &mut FlatFs,
    fds: &Fds,
    drawn: Gfid,
    call: &Call,
) -> Result<Reply, AllocError>
    ensures answer { IfOk result (λ r. r.answer ≡ (served files.old fds.now drawn call.now).answer) }
    ensures file { IfOk result (λ r. r.file ≡ (served files.old fds.now drawn call.now).file) }
    ensures files { OnOk result (files.new ≡ (served files.old fds.now drawn call.now).files) }
{
    match at_once(fds, call) {
        Some(answer) => Ok(Reply { answer, file: ROOT }),
        None => serve_walk(alloc, files, fds, drawn, call),
    }
}

// How many objects a call asks to be made.
fn makes(call: &Call) -> u64
    ensures { result ≡ makes_of call.now }
{
    match call {
        Call::Mkdir { .. } => 1,
        Call::Create { .. } => 1,
        _ => 0,
    }
}

// The files, the descriptors of each session, and the number of mkdir and create calls so far.
#[derive(Drop)]
struct Parts {
    files: FlatFs,
    sessions: Vec<Fds>,
    made: u64,
}

impl Model for Parts {
    ghost use Rattle.std.specs.Prelude.{◌≡◌, length};
    ghost use Rattle.flat_fs.specs.Mount.{Mount, mount_code};

    ghost Value = { Mount };

    ghost coded = { mount_code };

    ghost view = { λ p. record { files = p.files; sessions = p.sessions.items; made = p.made } };

    ghost invariant = { λ p. length p.sessions.items ≡ 256 };
}

fn no_sessions(alloc: Global) -> Result<Vec<Fds>, AllocError>
    ensures { IfOk result (λ v. v.items ≡ replicate 256 map.empty) }
{
    let mut sessions = Vec::with_capacity(alloc, 256)?;
    for _ in 0..256usize {
        sessions.push(Fds::new(alloc))?;
    }
    Ok(sessions)
}

impl Parts {
    fn new(alloc: Global) -> Result<Parts, AllocError>
        ensures { IfOk result (λ p. p ≡ first_mount) }
    {
        Ok(Parts {
            files: FlatFs::new(alloc)?,
            sessions: no_sessions(alloc)?,
            made: 0,
        })
    }

    fn call(&mut self, alloc: Global, session: u8, call: &Call) -> Result<Answer, AllocError>
        ensures answer { IfOk result (λ a. a ≡ answer_to self.old (record { session = session; call = call.now })) }
        ensures after { OnOk result (self.new ≡ after_call self.old (record { session = session; call = call.now })) }
    {
        let Some(made) = self.made.checked_add(makes(call)) else {
            return Err(AllocError);
        };
        let Some(lo) = made.checked_add(1) else {
            return Err(AllocError);
        };
        let index = session as usize;
        let drawn = Gfid { hi: 0, lo };
        let reply = serve(alloc, &mut self.files, &self.sessions[index], drawn, call)?;
        self.sessions[index].after_answer(call, reply.file, &reply.answer)?;
        self.made = made;
        Ok(reply.answer)
    }
}

/// A mount on the flat file system alone: sessions numbered from 0 to 255, each with its descriptors, whose calls run
/// one after another.
///
/// Contracts see its files, its descriptors and the number of mkdir and create calls, and whether it is spent.
#[derive(Drop)]
pub struct FlatMount {
    parts: Parts,
    spent: bool,
}

impl Model for FlatMount {
    ghost use Rattle.flat_fs.specs.Mount.{State, state_code};

    ghost Value = { State };

    ghost coded = { state_code };

    ghost view = { λ m. record { mount = m.parts; spent = m.spent } };
}

impl FlatMount {
    /// The root alone, empty, with mode 755 octal, and no descriptor.
    ///
    /// # Errors
    /// Out of memory.
    pub fn new(alloc: Global) -> Result<FlatMount, AllocError>
        ensures { IfOk result (λ m. m ≡ record { mount = first_mount; spent = false }) }
    {
        let parts = Parts::new(alloc)?;
        Ok(FlatMount {
            parts,
            spent: false,
        })
    }

    /// A law: calls one after another give the answers, and leave the mount, that `call` gives and leaves one by one.
    pub fn calls_run_in_order()
        ensures { RunsInOrder }
    {}

    /// Whether a call has run out of memory, so that all further ones do.
    pub fn is_spent(&self) -> bool
        ensures { result ≡ self.now.spent }
    {
        self.spent
    }

    /// One whole call of a session: its answer, and what it changes.
    ///
    /// # Errors
    /// Out of memory, in this call or in one before it; the mount is spent then, and its files are not to be used.
    pub fn call(&mut self, alloc: Global, session: u8, call: &Call) -> Result<Answer, AllocError>
        ensures answer { IfOk result (λ a. a ≡ answer_to self.old.mount (record { session = session; call = call.now })) }
        ensures after { OnOk result (self.new ≡ record { mount = after_call self.old.mount (record { session = session; call = call.now }); spent = false }) }
        ensures spent { OnErr result (self.new.spent ≡ true) }
        ensures never_again { self.old.spent ≡ true → is_err result ≡ true }
    {
        if self.spent {
            return Err(AllocError);
        }
        self.spent = true;
        let answer = self.parts.call(alloc, session, call)?;
        self.spent = false;
        Ok(answer)
    }
}
