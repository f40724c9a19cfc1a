//! What the nodes of a graph hand to one another, and the connections of its clients.
//!
//! A node is asked for a file operation, a job of a set, or a request to a brick ([`Down`]), and answers by a fop's
//! answer, a set's reply, or a brick's ([`Up`]). What has to be within bounds at the end of its way keeps that by its type:
//! the values of an operation and of a job, what a set's reply shows, a request and a brick's reply.
//!
//! [`Clients`] has the clients of a graph, by the numbers of their bricks, and says of a set which of its replicas are
//! connected.
#![tactic(auto)]

mod clients;
mod descriptors;
mod items;

pub use clients::Clients;
pub use descriptors::{fd_of, opened_by};
pub use items::{BrickReply, Down, FileOp, Request, SetAnswer, SetJob, Up};
