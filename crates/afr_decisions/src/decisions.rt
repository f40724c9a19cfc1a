ghost use Rattle.afr_decisions.specs.Stands.{EveryDecisionStands, EveryVerdictStands};
ghost use Rattle.afr_decisions.specs.Guarded.{EveryStateIsGuarded};

/// The law of decisions, of every state that allowed steps lead to, for one, three and five replicas. No replica takes a change by
/// one lock phase and leaves it by another that settles it later. So where a quorum confirmed the posts or settles of a lock
/// phase, each later one that settles the change agrees with it; no two lock phases that a quorum confirmed decide one change
/// differently, whatever has become of it. A change that was adopted or dropped was so by a quorum, and a transaction that a
/// quorum confirmed agrees with the verdict, where there is one.
pub fn every_decision_stands()
    ensures { EveryDecisionStands }
{}

/// The law of verdicts, from every state that allowed steps lead to on, for one, three and five replicas. A change that was adopted
/// is never dropped later, nor the reverse. A quorum that confirmed stays noted: a change whose posts a quorum confirmed is never
/// dropped, and one that a quorum settled one way is never decided the other way.
pub fn every_verdict_stands()
    ensures { EveryVerdictStands }
{}

/// The law of guarded sets, of every state that allowed steps lead to, for one, three and five replicas: these facts, and those of
/// `afr_laws` and `afr_soundness`, under the names of the rules. That copies agree is a law of `afr_contents`.
pub fn every_state_is_guarded()
    ensures { EveryStateIsGuarded }
{}
