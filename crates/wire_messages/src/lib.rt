//! Whole messages between the mount and its bricks: bytes that are one input or one output and nothing
//! after it.
//!
//! ```text
//!   bytes  ──►  Whole(value)      the bytes are the one encoding of the value
//!          ──►  Wrong { place }   they are none: the first unit that continues no encoding, the end of
//!                                 bytes that are cut, or the length of an encoding with bytes after it
//! ```
//!
//! `wire_xdr` reads a value from the beginning of some bytes. A brick and the hub take whole messages, and
//! what they make of bytes is a function of the bytes: `input_in` and `output_in`.
#![tactic(auto)]

mod decode;
mod messages;

pub use decode::{input_of, messages_read_back, output_of};
pub use messages::Message;
