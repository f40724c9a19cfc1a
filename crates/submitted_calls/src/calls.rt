//! Calls of sessions.
ghost use Rattle.std.specs.Prelude.{◌≡◌};

use fop_types::Call;
use std::marker::Model;

/// A call of a session, as it was submitted. Contracts see it as a submission.
#[derive(Drop)]
pub struct Submitted<'a> {
    pub session: u8,
    pub call: &'a Call,
}

impl<'a> Model for Submitted<'a> {
    ghost use Rattle.fop_types.specs.Calls.{Submission};

    ghost Value = { Submission };

    ghost view = { λ s. record { session = s.session; call = s.call.now } };
}
