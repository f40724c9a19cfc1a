use std::collections::LinkedList;
use xlator_law::WindNo;

/// Whose a pass is: the hub's, a reader's, or nobody's any more, once it was joined into another.
#[derive(Clone, Copy, PartialEq, Eq)]
pub enum Role {
    Hub,
    Reader,
    Spent,
}

/// A wind that a pass did not win, and the word that it saw instead.
pub struct Loss {
    pub wind: WindNo,
    pub word: u64,
}

/// What a pass knows of the winds. No value of it is made: it is for contracts alone.
pub struct View {
    pub role: Role,
    /// The winds that it settled or bailed.
    pub won: LinkedList<WindNo>,
    /// The winds that it tried to settle, bail or collect where another step had come first.
    pub lost: LinkedList<Loss>,
    /// The winds that it opened; the hub's alone.
    pub opened: LinkedList<WindNo>,
    /// The winds of `won` that it bailed; the hub's alone.
    pub bailed: LinkedList<WindNo>,
    /// The winds that it collected; the hub's alone.
    pub collected: LinkedList<WindNo>,
    /// Whether no pass was split off yet; the hub's alone.
    pub alone: bool,
}
