//! The program: `vealepoch check` reads a script from standard input and plans its volfiles; `run SEED` runs it over bricks in
//! memory in one thread, and writes the report to standard output; `mount WORKERS` does so by threads; `gen N` runs a script
//! that it makes; `replay` judges a script with its report.
//!
//! ```text
//! standard input ── read_script ── World or threads ── lawful_report ── standard output
//!                       │    │        hub and bricks,       │
//!              grammar, plans │        event by event    run_judge: audits of the log, then its report
//!                          Refusal
//! ```
//!
//! `top` and `top_mount` are the whole of it over any source and sink, and their contracts carry the headline: they read the
//! words and, of a run, the script, and `run_commands` carries the command out. What is here besides looks at the first word, and explains a status
//! other than 0 on standard error.
#![tactic(auto)]

mod mains;
mod tops;

use std::process::ExitCode;

#[cfg(test)]
mod tests;

fn main(rt: HostRuntime) -> ExitCode {
    ExitCode::from(mains::start(&rt))
}
