ghost use Rattle.afr_laws.specs.Rows.{RowsShowAccusers, AccusersFollow, QuorumsMeet, SoundnessIsCounted, SoundHasFewAccusers};

/// The law of rows that are sent: of five replicas, they say whom the brick accuses.
pub fn rows_show_accusers()
    ensures { RowsShowAccusers }
{}

/// The law of accusations: posts and settles add them, clears take them back, nothing else touches them.
pub fn accusers_follow()
    ensures { AccusersFollow }
{}

/// The law of quorums: two sets with more members together than there are replicas have one in common.
pub fn quorums_meet()
    ensures { QuorumsMeet }
{}

/// The law of soundness: it is a matter of counts of replicas.
pub fn soundness_is_counted()
    ensures { SoundnessIsCounted }
{}

/// The law of the sound: fewer than a quorum of all replicas accuse one, reached or not.
pub fn sound_has_few_accusers()
    ensures { SoundHasFewAccusers }
{}
