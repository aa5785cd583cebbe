ghost use Rattle.std.specs.Prelude.{◌<◌, ◌^◌, length};
ghost use Rattle.px_meaning.specs.TypedProgram.{typed_program};
ghost use Rattle.px_replay.specs.Replays.{heap_map, IsReplay};
ghost use Rattle.px_syntax.specs.ProgramTree.{program_tree};

use crate::callees::Callees;
use crate::interpreter::body;
use crate::script::Script;
use crate::stop::Stop;
use crate::{Heap, ReplayFault, Replayed};
use px_base::{Mark, ProcId};
use px_entry::Exit;
use px_syntax::Program;
use px_terms::{Items, Value};
use std::alloc::Global;

/// The execution of a procedure that takes the choices of the trace and these inputs, in order; each new block has
/// the least number outside the heap.
pub fn step_trace(
    alloc: Global,
    program: &Program,
    proc: ProcId,
    arguments: &[Value],
    heap: &Heap,
    inputs: &[i32],
    trace: &[Mark],
) -> Result<Replayed, ReplayFault>
    requires { length trace.now < 2 ^ 32 }
    ensures { IsReplay (typed_program (program_tree program.now)) proc.0 arguments.now (heap_map heap.now) inputs.now trace.now result }
{
    let arguments = Items::from_slice(alloc, arguments)?.into_vec();
    let heap = heap.copy(alloc)?;
    replay(alloc, program, proc, arguments, heap, inputs, trace)
}

// The same, of arguments and a heap of its own.
fn replay(
    alloc: Global,
    program: &Program,
    proc: ProcId,
    arguments: Vec<Value>,
    heap: Heap,
    inputs: &[i32],
    trace: &[Mark],
) -> Result<Replayed, ReplayFault>
    requires { length trace.now < 2 ^ 32 }
    ensures { IsReplay (typed_program (program_tree program.now)) proc.0 arguments.items (heap_map heap) inputs.now trace.now result }
{
    // A call takes a mark, and so does a turn: none nests deeper than this, and no loop makes so many turns.
    let callees = Callees {
        program,
        depth: trace.len() + 2,
    };
    let mut script = Script {
        marks: trace,
        inputs,
        heap,
    };
    let answer = body(alloc, &callees, proc, arguments, &mut script);
    let Script { marks, heap, .. } = script;
    let mark = trace.len().saturating_sub(marks.len()) as u32;
    match answer {
        Ok(result) => {
            if marks.is_empty() {
                Ok(Replayed {
                    exit: Exit::Ok,
                    result,
                    heap,
                })
            } else {
                Err(ReplayFault::Departs { mark })
            }
        }
        Err(stop) => match stop {
            Stop::Failed(kind, site) => {
                if marks.is_empty() {
                    Ok(Replayed {
                        exit: Exit::Error(kind, site),
                        result: Value::Unwritten,
                        heap,
                    })
                } else {
                    Err(ReplayFault::Departs { mark })
                }
            }
            Stop::Departs => Err(ReplayFault::Departs { mark }),
            Stop::NoMemory => Err(ReplayFault::NoMemory),
        },
    }
}
