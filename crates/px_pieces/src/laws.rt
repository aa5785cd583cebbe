ghost use Rattle.px_pieces.specs.Histories.{DeskHistories};
ghost use Rattle.px_pieces.specs.WorkedHistories.{WorkedChain, WorkedCycle, WorkedDiamond, WorkedLosses};

/// What every legal history of every desk keeps.
pub fn desk_histories()
    ensures { DeskHistories }
{}

/// Some histories, worked by hand.
pub fn worked_histories()
    ensures chain { WorkedChain }
    ensures cycle { WorkedCycle }
    ensures diamond { WorkedDiamond }
    ensures losses { WorkedLosses }
{}
