ghost use Rattle.afr_laws.specs.Alone.{EveryHolderIsAlone};
ghost use Rattle.afr_laws.specs.Covered.{EveryStateCoversLines};
ghost use Rattle.afr_laws.specs.Guarded.{EveryStateKeepsLines, EveryChangeIsDrawn};
ghost use Rattle.afr_laws.specs.Overtaken.{EveryOvertakenIsApart};
ghost use Rattle.afr_laws.specs.OwnPhases.{EveryPhaseIsOwn};
ghost use Rattle.afr_laws.specs.Ready.{EveryMemberIsReady};
ghost use Rattle.afr_laws.specs.Seen.{EverySeenRowStands};
ghost use Rattle.afr_laws.specs.Sound.{EverySoundIsFree};
ghost use Rattle.afr_laws.specs.Standing.{EveryRowStands};

/// The law of lines and locks, of every state that allowed steps lead to. Messages carry numbers of
/// transactions that have begun and of connections that were opened; what is on its way on an open connection
/// is what its transaction knows to be on its way, one request at a brick but for an open before it; no two
/// held locks of a brick conflict; requests of the open connection are behind the last control of their graph;
/// a transaction waits only for the request that its stage sends, with the cells, op, masks and content of its
/// phase; a grant on the open connection is a lock that
/// the brick holds, until the transaction unlocks, or a Closed is on its way; and no two locks of a brick that
/// it granted so conflict, whatever is on its way.
pub fn every_state_keeps_lines()
    ensures { EveryStateKeepsLines }
{}

/// The law of numbers: each change that a transaction is about, or settles, has a number that was drawn, and a
/// number that was not drawn is that of no change.
pub fn every_change_is_drawn()
    ensures { EveryChangeIsDrawn }
{}

/// The law of covered lines, of every state that allowed steps lead to. A granted lock of the open connection, whose
/// transaction does not unlock, is held by the brick unless it lost that graph's connection, and no control of that
/// graph is in the line. Each request in the line of a brick that needs a lock, and whose graph the brick has
/// connected, is of a transaction that holds a lock there, granted on the connection on which it asks, over the cells
/// on which the request works, births apart, and exclusive where it alters them; none is behind an unlock of its transaction or
/// behind a control of its graph.
pub fn every_state_covers_lines()
    ensures { EveryStateCoversLines }
{}

/// The law of holders, of every state that allowed steps lead to. While a brick holds a lock of a connection that is
/// open, and no Closed is on its way, each request in its line that needs a lock and is of another transaction is of
/// one whose own lock the brick holds too, and the two locks do not conflict; so none of another transaction alters a
/// cell of the lock, births apart. The graphs of held and waiting locks are
/// connected; and behind a request whose graph is not connected there is a control of every graph whose connection is
/// open, unless a Closed is on its way.
pub fn every_holder_is_alone()
    ensures { EveryHolderIsAlone }
{}

/// The law of rows, of every state that allowed steps lead to. Whatever is on its way from a brick, no request in its
/// line that is of another transaction alters a cell of a lock that it granted on the open connection, births apart. So
/// the rows of the grant stand until its transaction goes on behind its lock phase: the counters are those that were
/// shown, and a copy that was there is there, with the same last change; one that was not may be born.
pub fn every_row_stands()
    ensures { EveryRowStands }
{}

/// The law of lock phases that overtake each other, of every state that allowed steps lead to. Every lock phase that
/// ended reached a quorum. While a transaction works behind a lock phase with exclusive locks, and a later lock phase
/// over one of its cells has ended, none of its open grants is of a brick that the later one reached; so they are fewer
/// than a quorum.
pub fn every_overtaken_is_apart()
    ensures { EveryOvertakenIsApart }
{}

/// The law of what a lock phase saw, of every state that allowed steps lead to, for one, three and five replicas. While
/// neither it nor a later lock phase over the cell wrote, the row that it saw stands at every brick that it reached,
/// also where its grant has ended since, and no request in that brick's line alters the cell.
pub fn every_seen_row_stands()
    ensures { EverySeenRowStands }
{}

/// The law of the sound, of every state that allowed steps lead to, for one, three and five replicas. A replica that was
/// sound on a cell in a lock phase that has ended, and that neither this phase nor a later one over the cell which wrote
/// accuses, is present, does not accuse itself, and is accused by few of the bricks that the phase reached; so fewer than
/// a quorum of all accuse it, in their rows or by what is in their lines, whatever its connection. That holds of the last
/// lock phase of the cell that wrote where its own posts and settles do not accuse the replica. A lock phase accuses all
/// whom its transaction's posts and settles accuse.
pub fn every_sound_is_free()
    ensures { EverySoundIsFree }
{}

/// The law of the ready, of every state that allowed steps lead to. From the mark of a change to its last post, each
/// replica that its lock phase reached and that is not out was sound on each of the change's cells by the rows of the lock
/// phase, or it received a copy of the cell, and a quorum with itself confirmed the clear. When its posts are sent, a
/// quorum has applied the change. While a change is settled, the group has exactly the replicas that were reached, are
/// sound on each of its cells, and hold it as the verdict says.
pub fn every_member_is_ready()
    ensures { EveryMemberIsReady }
{}

/// The law of own lock phases, of every state that allowed steps lead to. The lock phase that a transaction is behind is
/// the one that it ended, and no two transactions are behind the same one.
pub fn every_phase_is_own()
    ensures { EveryPhaseIsOwn }
{}
