ghost use Rattle.mount_laws.specs.Laws.{EveryStateKeepsHolds, EveryStateKeepsSettled, EveryStateKeepsSights, EveryStateKeepsGraphs, EveryStateKeepsEffects, EveryStateKeepsObjects, EveryStateKeepsPresence, EveryStateKeepsHomes, EveryStateKeepsAnswers, EveryStateKeepsBirths, EveryStateKeepsLayouts};

/// The law of holds, of every state that allowed steps lead to. Holds of different calls do not conflict. A call holds
/// what its fop's kind says, and the directories by which it was extended, as long as the fop needs them. The job
/// under way is what the fop's course asks for after what was handed in. It is covered by the hold, and so is each
/// job that has settled under it: a read is of objects that are held, a change of objects that are held
/// exclusively and of the cells that its op needs, a birth of such objects or of the one that the fop makes, and of
/// the cells to which its op gives a content.
pub fn every_state_keeps_holds()
    ensures { EveryStateKeepsHolds }
{}

/// The law of settled jobs, of every state that allowed steps lead to. After a job's settling, each unsettled
/// change on its cells is its own call's, until the hold is released; until the job's own change begins, none is
/// left at all. The change of a job is unsettled until that job decides it; while a fop is under way, no job of
/// another call decides a change of its own. At most one unsettled change touches a cell of a set. From the
/// asking of a read or a change to the end of its hold no change of another call becomes unsettled on its cells. To
/// an object that a call holds no other call gives birth, but its own fop's new object.
pub fn every_state_keeps_settled()
    ensures { EveryStateKeepsSettled }
{}

/// The law of sights, of every state that allowed steps lead to. What a fop has read is what is adopted now, with
/// its own changes since; of a cell that was not shown, which is a directory's on a set after the first, there are
/// no names. No step of another call changes what is adopted on the cells of a settled job, but for the birth of an
/// absent cell. A change is of the cells that its op needs, and they are firm; a cell that is not firm has no
/// names.
pub fn every_state_keeps_sights()
    ensures { EveryStateKeepsSights }
{}

/// The law of graphs, of every state that allowed steps lead to. A fop under way is on the sets of its call's graph,
/// and has no more sets than any unanswered call. On the sets that an unanswered call's graph lacks no change was
/// begun, no file lives and no directory has a name or a link, and no object that was answered is on them; and so it
/// is beyond the sets of the newest graph.
pub fn every_state_keeps_graphs()
    ensures { EveryStateKeepsGraphs }
{}

/// The law of effects, of every state that allowed steps lead to. A change with an effect is an entry of its call,
/// and its op is that part of the fop that the call began last; a change without one adds a link or drops a name. A
/// call begins each part at most once, and the second after the first was adopted. The history has the effects of the
/// adopted changes and nothing else, each once and with its operation, and a call's parts come in their order.
pub fn every_state_keeps_effects()
    ensures { EveryStateKeepsEffects }
{}

/// The law of objects, of every state that allowed steps lead to. No two calls drew one gfid. Each object that was
/// made is the root, or was made by one change that was adopted, on its home. Each name on a set is a link, or of an
/// object that was made; a file's name is on its home, a directory's on the first set. So are the names that a fop
/// was shown or has added. The objects that calls were answered, and that fops under way name, were made with the
/// kind that was answered, a file on the set.
pub fn every_state_keeps_objects()
    ensures { EveryStateKeepsObjects }
{}

/// The law of presence, of every state that allowed steps lead to. A cell of a change, and a cell of a birth that a
/// quorum confirmed, has a content of its aspect.
pub fn every_state_keeps_presence()
    ensures { EveryStateKeepsPresence }
{}

/// The law of homes, of every state that allowed steps lead to. A job that reads, changes or gives birth to a cell of a file is
/// on the file's home. A change with an effect is of an object that was made: of a file's bytes, mode or attributes on its home,
/// of a directory's mode or attributes on the first set, where a directory is removed too.
pub fn every_state_keeps_homes()
    ensures { EveryStateKeepsHomes }
{
    dht_laws::fops_change_on_sets();
}

/// The law of answers, of every state that allowed steps lead to. A call that has begun a change with an effect, and is
/// answered something else than an I/O error, has all its changes adopted, and is answered what its own operation
/// gives, at the number of that operation's entry. The places of a call do not fall: they begin at the length of the
/// history at its submission, and end at its length now.
pub fn every_state_keeps_answers()
    ensures { EveryStateKeepsAnswers }
{
    dht_laws::fops_answer_changes();
    dht_laws::fops_place_answers();
}

/// The law of births, of every state that allowed steps lead to. An object with the gfid that a call drew is made by a change of
/// that call alone, and until then its cells are born by that call alone, none before its own fop. Each birth of a cell gives
/// it the content of its first birth. A present cell has the range of its first birth, and as long as it is not firm all
/// its content. A made directory's copy is firm on each set of the graph of the call that made it, and has no range on the
/// others.
pub fn every_state_keeps_births()
    ensures { EveryStateKeepsBirths }
{
    dht_laws::fops_bear_first();
    dht_laws::fops_change_links();
    dht_laws::fops_answer_changes();
}

/// The law of layouts, of every state that allowed steps lead to. A layout that was learnt is the one that the directory's copies
/// have now, set by set: a copy's range is that of its birth, and where a set had none to show there is none.
pub fn every_state_keeps_layouts()
    ensures { EveryStateKeepsLayouts }
{
    dht_laws::fops_bear_first();
    dht_laws::fops_change_links();
    dht_laws::fops_answer_changes();
}
