ghost use Rattle.dht_linkto.specs.Known.{BeginsKnowing, KeepsKnowing};
ghost use Rattle.dht_linkto.specs.Laws.{FindsTheFirst, ReadsEachOnce};

/// What a search finds, where each set shows the same whenever it is read: the first real name, or the first I/O
/// error, along one order of the sets. The order begins with the hashed set; the set to which that set's link
/// leads comes next, and then the others, rising. The call does nothing: its contract exports this.
pub fn finds_the_first()
    ensures { FindsTheFirst }
{}

/// In that order each set stands exactly once. The call does nothing: its contract exports this.
pub fn reads_each_once()
    ensures { ReadsEachOnce }
{}

/// A search that begins knows nothing, and every set is still to be read. The call does nothing: its contract exports
/// this.
pub fn begins_knowing()
    ensures { BeginsKnowing }
{}

/// What a search knows by the replies so far, each reply keeps: every set that was read showed no file or directory of
/// the name. What it finds is what a set showed; it finds nothing only once every set showed none; an I/O error is a
/// set's own. Nothing is said of what the sets show later. The call does nothing: its contract exports this.
pub fn keeps_knowing()
    ensures { KeepsKnowing }
{}
