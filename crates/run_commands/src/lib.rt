//! What the program does with a script, command by command: `run`, `mount` and `gen` run it, judge what the run left, and
//! write; `check` and `replay` write without a run.
//!
//! ```text
//!   run     run_read ───┐  a World,    log,      run_judge:    ┌─ yes ─► its text to the sink, log and bricks to the rack
//!   gen     generate ───┼─ or threads ─ bricks ─ is it lawful? ┤
//!   mount   mount_read ─┘                                      └─ no ──► nothing
//!   check   check ──► read_script, check_read
//!   replay  replay ─► write_verdict
//! ```
//!
//! Each gives its status. `run_read` and `mount_read` are handed a script that was read and accepted; `script_commands`, which
//! reads it, knows no hub, and `run_judge` trusts none. Which words are which command is the caller's question.
#![tactic(auto)]

mod checking;
mod generating;
mod mounting;
mod racks;
mod replaying;
mod running;

pub use checking::check;
pub use generating::generate;
pub use mounting::mount_read;
pub use racks::end_rack;
pub use replaying::replay;
pub use running::run_read;
