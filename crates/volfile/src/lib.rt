//! The volfile: the text that names the volumes of a graph.
//!
//! ```text
//! volume NAME            begins a block; at most 256 volumes
//! type CATEGORY/KIND     once
//! option KEY VALUE       of equal keys the last counts; VALUE is a word or "a text"
//! subvolumes NAME ..     at most once, of volumes that were defined before
//! end-volume             the last volume is the top of the graph
//! ```
//!
//! ```text
//!   text --lines--> VolfileReader --end--> Volfile --print--> text
//!                   volumes so far with the places of their names, open block
//! ```
//!
//! [`parse`] reads a whole text by [`VolfileReader`], which takes it line by line, as a script does with
//! the volfiles inside it. [`print`] writes a volfile in its one form, and [`parse`] of that gives the
//! same volumes but for line numbers. [`first_line`], [`words`], [`is_name`] and [`is_visible_word`] are
//! what the script's grammar shares with this one. A script's [`BrickLine`]s are the bricks that the
//! clients of a volfile name.
//!
//! With n bytes of text reading takes time of the order n log v, where v is the number of volumes.
#![tactic(auto)]

mod brick_lines;
mod comments;
mod cuts;
mod defined;
mod errors;
mod forms;
mod held;
mod names;
mod parses;
mod prints;
mod quotes;
mod readers;
mod statements;
mod volumes;

pub use brick_lines::BrickLine;
pub use cuts::{first_line, len_to, line_after, words};
pub use errors::{VolError, VolKind};
pub use forms::{is_name, is_same, is_text_byte, is_visible_word};
pub use names::VolumeNames;
pub use parses::parse;
pub use prints::print;
pub use readers::VolfileReader;
pub use volumes::{OptionLine, Volfile, Volume, option_value};
