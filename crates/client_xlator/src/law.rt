ghost use Rattle.client_xlator.specs.Law.{EndedStaysEnded};

/// The law over all calls of a client, for contracts and proofs alone: from a new client on, the open
/// connection is always the last one, and one that has ended is never open again, so a request that is
/// bound to it is never sent.
pub fn ended_stays_ended()
    ensures { EndedStaysEnded }
{}
