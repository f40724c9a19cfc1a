ghost use Rattle.std.specs.Prelude.{◌≡◌, [], ◌∷◌, OnOk, IfOk};
ghost use Rattle.fop_types.specs.declared.messages.OutKind.TheVariants.{Reply};
ghost use Rattle.fop_types.specs.declared.messages.BrickRep.TheVariants.{Done};
ghost use Rattle.fop_types.specs.declared.messages.DoneArm.TheVariants as done;
ghost use Rattle.brick_machine.specs.code.Outs.{put_out};

use bytes::Bytes;
use fop_types::{BrickRep, Content, DoneArm, OutKind, Output};
use std::alloc::{AllocError, Global};
use std::marker::Model;
use wire_xdr::{copy_bytes, rep_bytes};

/// The outputs of one input, in bytes, each with the number of inputs up to it.
#[derive(Drop)]
pub struct Outs {
    count: u64,
    made: Vec<Bytes>,
}

impl Model for Outs {
    ghost use Rattle.brick_machine.specs.code.Outs.{Outgoing};

    ghost Value = { Outgoing };

    ghost view = { λ o. record { taken = o.count; texts = o.made.items } };
}

impl Outs {
    /// No outputs so far, of the input of this number.
    pub(crate) fn new(alloc: Global, taken: u64) -> Outs
        ensures { result ≡ record { taken = taken; texts = [] } }
    {
        Outs {
            count: taken,
            made: Vec::new(alloc),
        }
    }

    pub(crate) fn into_made(self) -> Vec<Bytes>
        ensures { result.items ≡ self.texts }
    {
        self.made
    }

    pub(crate) fn put(&mut self, alloc: Global, kind: OutKind) -> Result<(), AllocError>
        ensures { OnOk result (self.new ≡ put_out self.old (kind ∷ [])) }
    {
        let output = Output {
            taken: self.count,
            kind,
        };
        let bytes = rep_bytes(alloc, &output);
        drop(output);
        let made = Bytes::from_vec(bytes?)?;
        self.made.push(made)?;
        Ok(())
    }

    pub(crate) fn reply(
        &mut self,
        alloc: Global,
        wind: u64,
        rep: BrickRep,
    ) -> Result<(), AllocError>
        ensures { OnOk result (self.new ≡ put_out self.old (Reply wind rep ∷ [])) }
    {
        self.put(alloc, OutKind::Reply { wind, rep })
    }

    /// Answers that a request is done, with nothing beside.
    pub(crate) fn done(&mut self, alloc: Global, wind: u64) -> Result<(), AllocError>
        ensures { OnOk result (self.new ≡ put_out self.old (Reply wind (Done done.Nothing) ∷ [])) }
    {
        self.reply(alloc, wind, BrickRep::Done(DoneArm::Nothing))
    }

    /// Answers a fetch, from the content where it is.
    pub(crate) fn copy(
        &mut self,
        alloc: Global,
        wind: u64,
        content: &Content,
        last: u64,
    ) -> Result<(), AllocError>
        ensures { OnOk result (self.new ≡ put_out self.old (Reply wind (Done (done.Content content.now last)) ∷ [])) }
    {
        let made = Bytes::from_vec(copy_bytes(alloc, self.count, wind, content, last)?)?;
        self.made.push(made)?;
        Ok(())
    }
}
