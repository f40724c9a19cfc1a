ghost use Rattle.dht_fops.specs.Additions.{FopsAddOnSets};
ghost use Rattle.dht_fops.specs.Answers.{FopsAnswerAsFlat};
ghost use Rattle.dht_laws.specs.Asking.{FopsAskAll};
ghost use Rattle.dht_laws.specs.Births.{FopsBearFirst, FopsBearOnce};
ghost use Rattle.dht_laws.specs.Costs.{FopsAskFew};
ghost use Rattle.dht_laws.specs.Endings.{FopsAnswerChanges, FlatAnswersChanges};
ghost use Rattle.dht_fops.specs.Founded.{FopsAskWell};
ghost use Rattle.dht_laws.specs.Holds.{FopsExtendHolds};
ghost use Rattle.dht_laws.specs.Homes.{FopsChangeOnSets};
ghost use Rattle.dht_laws.specs.Links.{FopsChangeLinks, FopsIgnoreLinks};
ghost use Rattle.dht_laws.specs.Places.{FopsPlaceAnswers};

/// What a fop knows before it asks: each job is on a set of the volume, and is one that a set takes, if the replies so far
/// are within their bounds; a name that is added was seen on no set; a name that is dropped was seen as a file's on that set; a
/// directory is removed after its name was seen, the hold was extended by it, and every set showed it empty; a name that is
/// moved was seen on that set, and the new one on none, on that set as a file's, or dropped before, by part 1 of the rename. These
/// are facts about the replies so far alone. The call does nothing: its contract exports this.
pub fn fops_ask_well()
    ensures { FopsAskWell }
{}

/// The place of an answer is that of the latest read or change with an effect, and there is none where no lock was needed. An
/// I/O error has no place, and is the one that the latest reply carried. The call does nothing: its contract exports this.
pub fn fops_place_answers()
    ensures { FopsPlaceAnswers }
{}

/// What a fop answers after a change with an effect: Done, the count of the bytes that it wrote, or the file that it made on
/// its set, at the number of the change's entry, and only once that change is the fop's own operation. Where a job that it
/// needs failed, no other follows, and the job's I/O error is the answer. A link is changed after the fop's own operation, and
/// then nothing else. And these are the answers of the flat file system, where it accepts the operation. The call does nothing:
/// its contract exports this.
pub fn fops_answer_changes()
    ensures fops { FopsAnswerChanges }
    ensures flat { FlatAnswersChanges }
{}

/// What a change without an effect rests on, a birth and a move: a link that is dropped was seen on that set; a link is added
/// for a name to which a file was moved on another set; a copy is born of the directory that the fop makes, or of one of
/// which that set showed no copy; and a name is moved into a directory of which that set showed a copy, or bore one. The call
/// does nothing: its contract exports this.
pub fn fops_change_links()
    ensures { FopsChangeLinks }
{}

/// The reply of a change of a link is not heeded, an I/O error or any other: what a fop asks for afterwards, and what it
/// answers, is one and the same. So is it with the heal of a cell. The call does nothing: its contract exports this.
pub fn fops_ignore_links()
    ensures { FopsIgnoreLinks }
{}

/// On which set a name is added: a directory's on the first, and a file's or a link's on the set to which the name belongs, by
/// the layout that is known, and where none is by the ranges that the sets showed. The call does nothing: its contract exports
/// this.
pub fn fops_add_on_sets()
    ensures { FopsAddOnSets }
{}

/// On which set a fop reads and changes: a file's bytes, mode and attributes on the set that has the file, and a directory's
/// mode and attributes on the first, where a directory is removed too. Each other cell of a job is a directory's: one that
/// the fop names, that a set showed, or that the fop makes. The call does nothing: its contract exports this.
pub fn fops_change_on_sets()
    ensures { FopsChangeOnSets }
{}

/// The copies of a new directory: its name is added after the birth of each further copy was answered, each with its own range
/// of the even split; a copy that a rename bears has no range. And each set is asked for at most one birth, in the order of the
/// sets. The call does nothing: its contract exports this.
pub fn fops_bear_first()
    ensures names { FopsBearFirst }
    ensures once { FopsBearOnce }
{}

/// By which directory the hold of a call is extended: rmdir's by the directory that it removes, which a set showed under the
/// name in the directory that is held; no other fop's is. The call does nothing: its contract exports this.
pub fn fops_extend_holds()
    ensures { FopsExtendHolds }
{}

/// What is asked for before these fops are answered: an open that is done its descriptor; the opening of descriptors in a new
/// graph each of them; and a heal the index of every set. The call does nothing: its contract exports this.
pub fn fops_ask_all()
    ensures { FopsAskAll }
{}

/// How many jobs a fop asks for at most: 4 for each set and 16; a migration one for each descriptor; a heal one for each
/// set and each of its cells. So it ends. The call does nothing: its contract exports this.
pub fn fops_ask_few()
    ensures { FopsAskFew }
{}

/// A fop against the flat file system that the sets show, where the cells that were read still have what they showed. Until
/// it asks a change with an effect, its answer, if it is no I/O error, is that of the flat file system, which changes
/// nothing; and the first such change is one that the flat file system accepts. The call does nothing: its contract exports
/// this.
pub fn fops_answer_as_flat()
    ensures { FopsAnswerAsFlat }
{}
