ghost use Rattle.px_meaning.specs.CoreLaws.{BoundsWiden, EventsDetermine, EventsHaveMarks, HeapsGrow, TracesAreWhole, TypesStay};
ghost use Rattle.px_meaning.specs.TreeLaws.{TreeBoundsWiden, TreeEventsDetermine, TreeEventsHaveMarks, TreeHeapsGrow, TreeTracesAreWhole, TreeTypesStay};
ghost use Rattle.px_meaning.specs.FullerLaws.{FullerMeanings};
ghost use Rattle.px_meaning.specs.WorkedBodies.{WorkedExecutions};
ghost use Rattle.px_meaning.specs.WorkedTrees.{WorkedTreeExecutions};
ghost use Rattle.px_meaning.specs.WorkedList.{WorkedListExecution};
ghost use Rattle.px_meaning.specs.WorkedCuts.{WorkedCuts};
ghost use Rattle.px_meaning.specs.WorkedDivisions.{WorkedDivisions};

use crate::fuller::Fuller;

/// A law: what happens within a bound on the iterations of loops happens without one, and within the next.
pub fn bounds_widen()
    ensures { BoundsWiden }
{}

/// A law: marks, values of inputs and numbers of new blocks determine an execution of the core.
pub fn events_determine()
    ensures { EventsDetermine }
{}

/// A law: what is seen of one execution, but for the numbers of new blocks, is never a proper beginning of
/// what is seen of another from the same calling state.
pub fn traces_are_whole()
    ensures { TracesAreWhole }
{}

/// A law: a trace is the marks of events, and each execution has events.
pub fn events_have_marks()
    ensures { EventsHaveMarks }
{}

/// A law: blocks once there stay there, live or freed.
pub fn heaps_grow()
    ensures { HeapsGrow }
{}

/// A law: calls of programs whose bodies keep to types leave well-typed heaps and give values of their types.
pub fn types_stay()
    ensures { TypesStay }
{}

/// A law: for typed trees too, what happens within a bound happens without one, and within the next.
pub fn tree_bounds_widen()
    ensures { TreeBoundsWiden }
{}

/// A law: marks, values of inputs and numbers of new blocks determine an execution of typed trees.
pub fn tree_events_determine()
    ensures { TreeEventsDetermine }
{}

/// A law: for typed trees too, a trace is the marks of events, and each execution has events.
pub fn tree_events_have_marks()
    ensures { TreeEventsHaveMarks }
{}

/// A law: for typed trees too, what is seen of one execution, but for the numbers of new blocks, is never a
/// proper beginning of what is seen of another from the same calling state.
pub fn tree_traces_are_whole()
    ensures { TreeTracesAreWhole }
{}

/// A law: for typed trees too, blocks once there stay there, live or freed.
pub fn tree_heaps_grow()
    ensures { TreeHeapsGrow }
{}

/// A law: calls of programs whose trees keep the typing rules leave well-typed heaps and give values of
/// their types.
pub fn tree_types_stay()
    ensures { TreeTypesStay }
{}

/// A law: each meaning in which what isn't understood has executions too agrees with the meaning of a program up to there.
pub fn fuller_meanings<F: Fuller>()
    ensures { FullerMeanings F.rest }
{}

/// Small programs and what they do, worked by hand.
pub fn worked_executions()
    ensures { WorkedExecutions }
{}

/// The same programs as typed trees.
pub fn worked_tree_executions()
    ensures { WorkedTreeExecutions }
{}

/// A program with a list, as typed trees: its second `drop` is a double free.
pub fn worked_list_execution()
    ensures { WorkedListExecution }
{}

/// What these programs don't do: no execution has a worked trace without its last mark.
pub fn worked_cuts()
    ensures { WorkedCuts }
{}

/// What `/` and `%` give of two numbers, and two small functions that divide.
pub fn worked_divisions()
    ensures { WorkedDivisions }
{}
