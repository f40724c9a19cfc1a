//! The client translator: the end of a graph towards one brick, with its connections.
//!
//! ```text
//!               request, wind (slot, turn)
//!                         │
//!   connection 3 open ?   ▼   bound to 3 or to none ?
//!        ┌─────────────────────────────────────┐ no
//!        │ client of brick 5 in graph 1        ├────► NotConnected: the fop is answered ENOTCONN
//!        └─────────────────────────────────────┘
//!          yes │  open of (number, gfid) done on connection 3 ?  no: it goes first,
//!              ▼                                                 as wind (slot + 2147483648, turn)
//!      [ open, ] request     as messages in XDR
//! ```
//!
//! Connections are numbered from 1 and never come again. A request under a lock is bound to the connection
//! on which the lock was granted; once that has ended, the request is not sent ([`ended_stays_ended`]).
//! What the brick knows of descriptors goes with the connection, so a request on a descriptor is preceded
//! by an open of it until one was answered Done on the open connection.
//!
//! Called by the graph for each of its client volumes. With n descriptors opened on a connection a call
//! takes time of the order log n, and of the length of its messages.
#![tactic(auto)]

mod client;
mod law;
mod sent;

pub use client::Client;
pub use law::ended_stays_ended;
pub use sent::Sent;
