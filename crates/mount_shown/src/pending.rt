ghost use Rattle.mount_shown.specs.Pending.{EveryChangeBeginsWell, EveryFopIsPossible, EveryStateKeepsFiles};

/// The law of the files, of every state that allowed steps lead to. The contents of all sets show the flat file system after the
/// history. Each unsettled change is one that its set would apply and the flat file system accept, were it decided as adopted now;
/// and any two of them are apart, so that they may be decided in any order. The call does nothing: its contract exports this.
pub fn every_state_keeps_files()
    ensures { EveryStateKeepsFiles }
{}

/// The law of the changes that begin, in every state that allowed steps lead to: a change that a fop asks for fits, and is apart
/// from every change that is unsettled; so a create finds its name free on every set, an unlink and a rename find the file where
/// they saw it, an rmdir finds the directory empty, and a change of a link touches no name. Where a change with an effect begins,
/// the flat file system accepts the fop's own operation too, of which the change may be a part. The call does nothing: its
/// contract exports this.
pub fn every_change_begins_well()
    ensures well { EveryChangeBeginsWell }
    ensures possible { EveryFopIsPossible }
{}
