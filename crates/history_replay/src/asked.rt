//! The calls that a walk visits.
use crate::cases::AnswerAt;
use crate::ends::is_found;
use crate::findings::Findings;
use crate::reading::{answer_at, index_at, places_at, reply_index};
use crate::trace::Trace;
use fop_types::{Call, Gfid};

/// A call by its index: the places of its reply; the reply; and whether part 1 of its rename is in the history.
#[derive(Drop)]
pub(crate) struct Asked<'a> {
    pub at: usize,
    pub call: &'a Call,
    pub places: &'a [u32],
    pub reply: Option<AnswerAt<'a>>,
    pub has_first: bool,
}

fn lists(call: &Call) -> bool {
    match call {
        Call::List { .. } => true,
        _ => false,
    }
}

impl<'a> Asked<'a> {
    /// The place of the lookup that is next after these objects were found.
    pub(crate) fn lookup_place(&self, found: &[Gfid]) -> Option<u32> {
        if is_found(self.call, found) {
            None
        } else {
            self.places.get(found.len()).copied()
        }
    }

    /// The place where the directory is listed that these lookups found.
    pub(crate) fn list_place(&self, found: &[Gfid]) -> Option<u32> {
        if lists(self.call) && is_found(self.call, found) {
            self.places.get(found.len()).copied()
        } else {
            None
        }
    }
}

/// The call at an index.
pub(crate) fn asked_at<'a>(trace: &Trace<'a>, f: &Findings, at: usize) -> Option<Asked<'a>> {
    let reply = reply_index(f, at);
    match trace.calls.get(at) {
        None => None,
        Some(call) => Some(Asked {
            at,
            call: call.call,
            places: places_at(trace, reply),
            reply: answer_at(trace, reply),
            has_first: index_at(f.first.as_slice(), at).is_some(),
        }),
    }
}
