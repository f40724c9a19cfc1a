/// How soon a task is to be taken: every waiting task of a higher priority goes first.
#[derive(Clone, Copy)]
pub enum Priority {
    /// Lookups and calls that only read what an object is.
    High,
    /// Changes of names and attributes.
    Normal,
    /// Reads and writes of data.
    Low,
    /// Background work, as heal.
    Least,
}
