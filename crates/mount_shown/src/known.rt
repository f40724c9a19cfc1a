ghost use Rattle.mount_shown.specs.Known.{CallsKnowHere, CallsKnowNowhere};

/// What a fop knows of names before its first change, in a state whose files stand. A name that it saw on some set, as a file's or
/// a directory's, is in the flat file system; its directory is not removed; and no unsettled change touches the name or
/// removes the directory. A name that it saw on no set of its graph is not in the flat file system, and no unsettled change
/// touches a name of the directory or removes it. The call does nothing: its contract exports this.
pub fn calls_know_names()
    ensures here { CallsKnowHere }
    ensures nowhere { CallsKnowNowhere }
{}
