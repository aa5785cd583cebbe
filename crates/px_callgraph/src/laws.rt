ghost use Rattle.px_callgraph.specs.Ranks.{RanksAreUnique, RanksRise};
ghost use Rattle.px_callgraph.specs.Laws.{ActsLessen, ConstraintsAreSorted, ConstraintsGrow, ReachedAreAskable, ReachedKeepStates, WaysKeepStates};
ghost use Rattle.px_callgraph.specs.WorkedCommands.{WorkedWords, WorkedLoops, WorkedLimits};
ghost use Rattle.px_callgraph.specs.WorkedDivisions.{WorkedDivisions};
ghost use Rattle.px_callgraph.specs.WorkedBlocks.{WorkedBlocks};
ghost use Rattle.px_callgraph.specs.WorkedCalls.{WorkedCalls};
ghost use Rattle.px_callgraph.specs.WorkedCallees.{WorkedCallees};
ghost use Rattle.px_callgraph.specs.WorkedDerivations.{WorkedDerivations};
ghost use Rattle.px_callgraph.specs.WorkedPaths.{WorkedPaths};

/// A procedure has one rank at most.
pub fn ranks_are_unique()
    ensures { RanksAreUnique }
{}

/// Ranks rise from what is called to the caller, outside cycles.
pub fn ranks_rise()
    ensures { RanksRise }
{}

/// The alternatives of some states, worked by hand.
pub fn worked_alternatives()
    ensures words { WorkedWords }
    ensures loops { WorkedLoops }
    ensures limits { WorkedLimits }
    ensures divisions { WorkedDivisions }
    ensures blocks { WorkedBlocks }
    ensures calls { WorkedCalls }
{}

/// Each way on from a state keeps it well sorted, with as many slots, where no call is going on.
pub fn ways_keep_states()
    ensures { WaysKeepStates }
{}

/// The ends of all paths through some bodies, worked by hand.
pub fn worked_paths()
    ensures { WorkedPaths }
{}

/// What some bodies call, and which of them are in one recursion component, worked by hand.
pub fn worked_callees()
    ensures { WorkedCallees }
{}

/// Which steps derive the entries of a small procedure, and where others fail first, worked by hand.
pub fn worked_derivations()
    ensures { WorkedDerivations }
{}

/// The constraint of a well-sorted state is well sorted.
pub fn constraints_are_sorted()
    ensures { ConstraintsAreSorted }
{}

/// Each act leaves fewer acts to a path, so that every path ends.
pub fn acts_lessen()
    ensures { ActsLessen }
{}

/// Each act adds to the variables and to the constraint of a state, and takes nothing away.
pub fn constraints_grow()
    ensures { ConstraintsGrow }
{}

/// What is reached from the start is well sorted, and each way on keeps it so, calls included.
pub fn reached_keep_states()
    ensures { ReachedKeepStates }
{}

/// The constraint of what is reached, and of where each way leads from there, may be asked of a solver.
pub fn reached_are_askable()
    ensures { ReachedAreAskable }
{}
