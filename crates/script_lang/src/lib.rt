//! The script: the text that says what a run does.
//!
//! ```text
//! brick NAME HOST PATH              up to 60
//! volfile NAME                      up to 16, each with the lines of a volfile
//!   ..
//! end-volfile
//! start NAME                        the volfile that is mounted first
//! phase                             up to 4,096
//! do SESSION CALL                   up to 4,096 in all, of up to 64 sessions
//! control ACTION
//! control before BRICK PROC N ACTION
//! control after BRICK PROC N ACTION
//! ```
//!
//! ```text
//!   text --lines--> Reading -- `volfile` --> volfile::VolfileReader
//!                   a draft <- `end-volfile`       |
//!                     |
//!                     +--> statements --> calls, controls --> words: paths, numbers, data, names
//!                     v
//!                   Script
//! ```
//!
//! [`parse`] reads a whole text, line by line. Its result is the grammar of `specs/ScriptText`: the script,
//! or the first line that is refused with the first kind that holds of it. The program's top call reads
//! scripts by it; plans, the hub and the report go by the [`Script`] that it gives.
#![tactic(auto)]

mod actions;
mod calls;
mod controls;
mod drafts;
mod errors;
mod fd_calls;
mod few;
mod kinds;
mod laws;
mod numbers;
mod parses;
mod path_calls;
mod paths;
mod phase_lines;
mod places;
mod readings;
mod scripts;
mod sharing;
mod statements;
mod words;

pub use errors::{ScriptError, ScriptKind};
pub use laws::accepted_scripts_keep_limits;
pub use parses::parse;
pub use scripts::{Action, CallLine, ControlLine, NamedVolfile, Phase, Script, When};
