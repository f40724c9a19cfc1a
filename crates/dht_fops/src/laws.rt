ghost use Rattle.dht_fops.specs.Bounds.{FopsKeepBounds, AnswersHaveBounds};
ghost use Rattle.dht_fops.specs.code.Within.{CoursesKeepFops};

/// Bounds alone: where the fop's values are within theirs, and the replies so far, whatever they answer, each job is on a set
/// of the volume and one that a set takes, and the directory of a hold and an object that is found have gfids within
/// bounds. So the course of a fop keeps bounds from its beginning and under each such reply; a fop on such a course gives
/// what is within bounds, and what it waits for leads to such a course again; and a reply that answers its job is within
/// bounds. The call does nothing: its contract exports this.
pub fn fops_keep_bounds()
    ensures courses { FopsKeepBounds }
    ensures fops { CoursesKeepFops }
    ensures answers { AnswersHaveBounds }
{}
