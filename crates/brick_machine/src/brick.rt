ghost use Rattle.std.specs.Prelude.{◌≡◌, true, false, [], ◌∷◌, ◌++◌, IfOk, OnOk, OnErr};
ghost use Rattle.wire_xdr.specs.WireText.{input_text, IsInputOf};
ghost use Rattle.wire_messages.specs.Messages.{input_in, IsSaid};
ghost use Rattle.cell_store.specs.Dump.{dumped};
ghost use Rattle.brick_machine.specs.Machine.{state_of, texts_of};

use crate::outs::Outs;
use crate::sharing::shared;
use crate::state::State;
use bytes::Bytes;
use cell_store::Store;
use fop_types::Seq;
use std::alloc::{AllocError, Global};
use std::marker::Model;
use wire_messages::input_of;

/// A brick: what it keeps, its inputs, and the outputs that they caused, both in bytes.
///
/// Contracts see it as its journal, the list of its inputs; the names under which it shows the replicas of its set; and
/// whether it is spent: a brick that ran out of memory answers so from then on, and its journal ends with the last
/// input that it served.
#[derive(Drop)]
pub struct Brick {
    state: State,
    inputs: Vec<Bytes>,
    made: Vec<Bytes>,
    is_spent: bool,
}

impl Model for Brick {
    ghost use Rattle.std.specs.Prelude.{◌≡◌, MatchBool};
    ghost use Rattle.brick_machine.specs.Journal.{Journal};
    ghost use Rattle.brick_machine.specs.State.{named};
    ghost use Rattle.brick_machine.specs.Machine.{state_of, texts_of};

    ghost Value = { Journal };

    ghost view = { λ b. record { journal = b.inputs.items; names = b.state.store.names; spent = b.is_spent } };

    ghost invariant = { λ b. (b.made.items ≡ texts_of b.inputs.items) × MatchBool b.is_spent (Unit {0}) (b.state ≡ named b.state.store.names (state_of b.inputs.items)) };
}

impl Brick {
    /// A brick without inputs: its store has only the root, no graph is connected, and no replica has a name.
    ///
    /// # Errors
    /// Out of memory.
    pub fn new(alloc: Global) -> Result<Brick, AllocError>
        ensures { IfOk result (λ brick. brick ≡ record { journal = []; names = []; spent = false }) }
    {
        let state = State::new(alloc)?;
        Ok(Brick {
            state,
            inputs: Vec::new(alloc),
            made: Vec::new(alloc),
            is_spent: false,
        })
    }

    /// Binds the names under which `dump` shows the replicas: those of the client volumes, in replica order. The
    /// journal must be empty. It needs no memory.
    pub fn bind_names(&mut self, names: Seq<Seq<u8>>)
        requires { self.old.journal ≡ [] }
        ensures { self.new ≡ record self.old { names = names } }
    {
        self.state.store.bind_names(names);
    }

    /// Serves an input: appends it to the journal, and what it causes to the outputs. Bytes that are no input cause a
    /// `Malformed` with the place at which they stop being one, and change nothing else. The input is kept as it is:
    /// sender, journal and brick share its bytes.
    ///
    /// # Errors
    /// Out of memory, now or in an earlier call. Journal and outputs are unchanged, and the brick is spent: it answers
    /// the same from then on.
    pub fn serve(&mut self, alloc: Global, input: Bytes) -> Result<(), AllocError>
        ensures ok { OnOk result ((self.old.spent ≡ false) × (self.new ≡ record { journal = self.old.journal ++ input ∷ []; names = self.old.names; spent = false })) }
        ensures said { OnOk result (IsSaid IsInputOf input_text input (input_in input)) }
        ensures err { OnErr result (self.new ≡ record { journal = self.old.journal; names = self.old.names; spent = true }) }
    {
        if self.is_spent {
            return Err(AllocError);
        }
        self.is_spent = true;
        self.inputs.reserve(1)?;
        let taken = self.inputs.len() as u64 + 1;
        let read = input_of(alloc, input.as_slice())?;
        let message = shared(&input, read)?;
        let mut outs = Outs::new(alloc, taken);
        self.state.serve(alloc, &mut outs, message)?;
        let mut made = outs.into_made();
        self.made.append(&mut made)?;
        self.inputs.push_reserved(input);
        self.is_spent = false;
        Ok(())
    }

    /// The inputs, in the order in which they were served.
    pub fn journal(&self) -> &[Bytes]
        ensures { result.now ≡ self.now.journal }
    {
        self.inputs.as_slice()
    }

    /// The outputs that the inputs caused, in order.
    pub fn outputs(&self) -> &[Bytes]
        ensures { result.now ≡ texts_of self.now.journal }
    {
        self.made.as_slice()
    }

    /// True exactly where the brick ran out of memory.
    pub fn is_spent(&self) -> bool
        ensures { result ≡ self.now.spent }
    {
        self.is_spent
    }

    /// What the brick keeps of its cells, with the names of the replicas. Of a brick that is spent nothing is said
    /// here.
    pub fn store(&self) -> &Store
        ensures { self.now.spent ≡ false → result.now ≡ record { cells = (state_of self.now.journal).store.cells; names = self.now.names } }
    {
        let _journal = &self.inputs;
        &self.state.store
    }

    /// What replicate and distribute keep on the brick's objects, as text: the store's `dump`, under the names of
    /// `bind_names`. Of a brick that is spent nothing is said here.
    ///
    /// # Errors
    /// Out of memory.
    pub fn dump(&self, alloc: Global) -> Result<Vec<u8>, AllocError>
        ensures { IfOk result (λ text. self.now.spent ≡ false → text.items ≡ dumped self.now.names (state_of self.now.journal).store.cells) }
    {
        let text = self.store().dump(alloc)?;
        Ok(text)
    }
}
