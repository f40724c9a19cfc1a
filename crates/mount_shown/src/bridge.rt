ghost use Rattle.mount_shown.specs.Bridge.{StepsAreOps, StartIsEmpty, MoreSetsShow, FirstSetsShow};

/// What a step makes of the files of all sets: a change that is decided as adopted makes them what its op does, and births that
/// are sent what the birth of a copy does; each other step leaves them. The call does nothing: its contract exports this.
pub fn steps_are_ops()
    ensures { StepsAreOps }
{}

/// At the start the sets show the flat file system that has the root alone. The call does nothing: its contract exports this.
pub fn start_is_empty()
    ensures { StartIsEmpty }
{}

/// The files of all sets stay the flat file system's where a graph with more sets follows; and they are so on the sets of an
/// older graph, where nothing is beyond these. The call does nothing: its contract exports this.
pub fn sets_may_be_more()
    ensures more { MoreSetsShow }
    ensures first { FirstSetsShow }
{}
