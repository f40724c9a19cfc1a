//! Places of lines in a script.

/// Where the line of a call is in the script: its phase, and its place among the phase's calls, both from 0.
#[derive(Clone, Copy)]
pub struct LineAt {
    pub phase: u32,
    pub index: u32,
}
