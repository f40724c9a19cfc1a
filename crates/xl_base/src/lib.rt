//! The ends of the program and the words that every text shares: where bytes come from, where they
//! go, and how a word is read as a number or as bytes.
//!
//! ```text
//! reader --> Source --> read_all --> bytes --> (the program) --> bytes --> write_all --> Sink --> writer
//! ```
//!
//! A [`Source`] may report the bytes that are left, a [`Sink`] the bytes that it took, and both count
//! their faults. Contracts of callers speak of these only, so they hold over every source and sink.
//! [`StdSource`] and [`StdSink`] wrap a reader and a writer of std and report what these report, which is
//! nothing for standard input and output. [`MemSource`] and [`MemSink`] work in memory, report all of
//! their bytes, and fail at listed calls.
//!
//! `main` makes the real ends; the top calls read by [`read_all`] and write by [`write_all`]; parsers
//! read numbers and data by [`decimal`] and [`hex`].
#![tactic(auto)]

mod decimals;
mod failures;
mod hexadecimals;
mod listed_calls;
mod mem_sinks;
mod mem_sources;
mod sinks;
mod sources;
mod std_sinks;
mod std_sources;
mod whole_reads;
mod whole_writes;

pub use decimals::decimal;
pub use failures::{Failed, ReadError};
pub use hexadecimals::hex;
pub use mem_sinks::MemSink;
pub use mem_sources::MemSource;
pub use sinks::Sink;
pub use sources::Source;
pub use std_sinks::StdSink;
pub use std_sources::StdSource;
pub use whole_reads::read_all;
pub use whole_writes::write_all;
