//! The messages between the mount and its bricks, in XDR (RFC 4506), exact in both directions.
//!
//! Each value has one encoding in units of four bytes, the highest byte first. A brick's inputs are
//! requests and controls, its outputs are replies and answers to controls.
//!
//! ```text
//!   unlock by call 7 in graph 1, wind 5:
//!
//!   00000000 00000000 00000005 00000001 00000002 00000007
//!   request  wind, two units   graph    unlock   call
//! ```
//!
//! The client translator encodes requests and decodes replies; a brick decodes requests and encodes
//! replies. A decoder answers the value whose encoding begins the bytes, or the place at which they
//! stop being a message: the first unit that continues no encoding, or their end.
//!
//! What the bytes of each value are is defined in `specs/`, in the order in which `specs/Lib.antt` lists
//! its files. `specs/code/` has the functions of the code, and nothing that a reader must believe.
#![tactic(auto)]

mod decode;
mod decoded;
mod encode;
mod limits;

pub use decode::{decode_rep, decode_req};
pub use decoded::{DecodeError, Decoded};
pub use encode::{copy_bytes, encode_rep, encode_req, rep_bytes};
pub use fop_types::{BrickRep, BrickReq, DoneArm, Input, OutKind, Output, Proc, StoreOp};
