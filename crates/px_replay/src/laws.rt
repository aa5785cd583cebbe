ghost use Rattle.px_replay.specs.Laws.{FollowedIsOne, ReplayConfines, ReplayReaches, ReplayDecides};

/// A law: at most one execution follows a trace with given inputs.
pub fn followed_is_one()
    ensures { FollowedIsOne }
{}

/// A law: what a replay takes of a script is reached by an execution.
pub fn replay_reaches()
    ensures { ReplayReaches }
{}

/// A law: what follows a script is confined to what a replay took of it.
pub fn replay_confines()
    ensures { ReplayConfines }
{}

/// A law: a replay decides whether an execution follows a script, and else where it departs.
pub fn replay_decides()
    ensures { ReplayDecides }
{}
