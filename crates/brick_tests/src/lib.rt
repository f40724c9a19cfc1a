//! Cases of a brick, in bytes: journals with the outputs that they cause, taken by hand from the format and the rules
//! of a brick; what a brick shows of its store; who holds and who waits for its locks; and the messages that it takes and
//! puts out. The library is empty.
//!
//! Each message of a table of `wire_xdr` or `wire_messages` is a text of its units of four bytes, in hexadecimal and apart
//! by spaces.
#![tactic(auto)]

// brick_machine
#[cfg(test)]
mod cells;
#[cfg(test)]
mod dumps;
#[cfg(test)]
mod journals;
#[cfg(test)]
mod locks;
#[cfg(test)]
mod losses;
#[cfg(test)]
mod refusals;
#[cfg(test)]
mod tables;
#[cfg(test)]
mod writes;
// brick_locks
#[cfg(test)]
mod owners;
// wire_xdr
#[cfg(test)]
mod encodings;
#[cfg(test)]
mod places;
#[cfg(test)]
mod units;
// wire_messages
#[cfg(test)]
mod whole;
