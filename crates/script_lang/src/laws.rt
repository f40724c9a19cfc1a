ghost use Rattle.script_lang.specs.Accepted.{AcceptedKeepLimits};

/// The law of accepted scripts, for proofs alone: a script that the grammar gives keeps its limits, names what
/// exists, numbers its sessions by first mention, and its calls' words have their bounds.
pub fn accepted_scripts_keep_limits()
    ensures { AcceptedKeepLimits }
{}
