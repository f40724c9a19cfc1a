//! The audit of answers: whether what a stat, a getattr, a list, or a read without an io-cache showed, the names that a call which
//! was answered well has looked up, and what an error but an I/O error rests on, were in what sound bricks answered to fetches of
//! the call, after a quorum of a set had granted it locks. Whether the locks still stood then is not asked. And the sets from which
//! calls that were answered well take names, as they had read them, or of the objects that they change, if their changes work on
//! what their paths lead to, and a rename takes away a file of the new name.
//!
//! ```text
//!   replies    call 7 was answered Bytes        its call, by log_calls::calls_in; its graph, by change_audit::call_graphs
//!
//!   events     brick 0 grants Lock(7, cells)  ..  brick 2 grants Lock(7, cells)  ..  brick 2 answers Fetch(cell) by a content
//!              a quorum of the bricks of one set, each for just these cells           a brick of them, which is sound by their
//!                                                                                     rows, for a wind of the call
//!
//!   path       / ──a──► directory 2 ──b──► file 9       each name in a content of its directory's names
//!
//!   answer     the part of the content from an offset; its size and the mode; the value of an attribute; the names of a
//!              directory on all sets
//!
//!   error      the path, as far as it leads, and there a file, a directory, or a name that no set has
//!   history    entry k: call 7                  its operation: on file 9, or on a name of directory 2, which one set shows;
//!                                               of a rename the new name, too: replaced, unlinked by another entry, or nowhere
//! ```
//!
//! The locks and the fetches of each call are found by one pass over what arrived (`finding`), and the offsets of reads by one
//! over the replies (`offsets`), without a contract. What was found is then checked where it is (`fetches`, `holders`, `quorums`,
//! `lacking`, `readings`) and compared with the answer (`showing`, `objects`; of names `paths`, `directories`, `lists`; of errors
//! `reached`, `missing`, `grounds`) or with the operation (`works`, `operations`, `rooms`, `unlinks`), and an audit's `true` rests
//! on that alone: true says that each answer was read so; false says nothing. Script, plans, log, bricks and what was found are
//! handed on as one `Run` (`runs`), with the call that has its reply (`readings`). No content is copied, and each audit decodes
//! one once for a reply, but for names: a step of a path decodes those that the call has read of its directory, from the last on,
//! until its name is there; of an error each step decodes all of them, and what the error says of a directory once more. With n
//! events, winds, replies, locks and fetches an audit takes time of the order n log n, and of the bytes that are decoded: a step
//! goes through the locks and the fetches of its directory in its own call alone.
#![tactic(auto)]

mod answers;
mod cells;
mod directories;
mod errors;
mod fetches;
mod finding;
mod found;
mod grounds;
mod holders;
mod keeping;
mod lacking;
mod lists;
mod missing;
mod names;
mod naming;
mod objects;
mod offsets;
mod operations;
mod paths;
mod quorums;
mod reached;
mod readings;
mod replies;
mod rooms;
mod runs;
mod showing;
mod submissions;
mod taken;
mod unlinks;
mod works;

pub use names::names_are_read;
pub use replies::answers_are_read;
pub use taken::sets_taken_from;
