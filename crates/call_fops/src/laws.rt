ghost use Rattle.call_fops.specs.Bounded.{FopsAreBounded};
ghost use Rattle.call_fops.specs.Counts.{LookupsAreCounted};
ghost use Rattle.call_fops.specs.Follow.{DescriptorsFollow};
ghost use Rattle.call_fops.specs.Lawful.{WalksAreLawful};

/// A call whose fops have lawful answers at their places has a lawful answer. Where each lookup answered what the flat file
/// system does at its place, and the last fop is lawful at its own, or one of them answered an I/O error, which has no
/// place, the call's answer is lawful at the places of its fops in order. The walk has then led where the lookups at these
/// places lead. The call does nothing: its contract exports this.
pub fn walks_are_lawful()
    ensures { WalksAreLawful }
{}

/// A call sends one lookup for each component of its paths, and its last fop; fewer where a lookup ends it. The call does
/// nothing: its contract exports this.
pub fn lookups_are_counted()
    ensures { LookupsAreCounted }
{}

/// The table of descriptors follows the replies: a session's descriptors are, after each reply of its calls, what the answer
/// makes of them, and the other sessions' descriptors stay. It asks that answers have the form of their fops. The call does
/// nothing: its contract exports this.
pub fn descriptors_follow()
    ensures { DescriptorsFollow }
{}

/// A call that is not answered at once always has a next fop, until it has its answer. The fop names objects that the walk
/// has reached, or a file that is open, and has the bounds of a fop where the call has those of a call. The call does
/// nothing: its contract exports this.
pub fn fops_are_bounded()
    ensures { FopsAreBounded }
{}
