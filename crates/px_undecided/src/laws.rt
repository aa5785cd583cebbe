ghost use Rattle.px_undecided.specs.Laws.{RefutedDrops};

/// A law: where a look refutes a drop of a job's table, nothing makes true what the path assumes that was dropped. So no execution
/// takes it, and none was lost.
pub fn refuted_drops()
    ensures { RefutedDrops }
{}
