ghost use Rattle.std.specs.Prelude.{◌≡◌, IfOk};
ghost use Rattle.px_entry.specs.Contents.{variable_content};
ghost use Rattle.px_core.specs.BodyTree.{body_tree};
ghost use Rattle.px_callgraph.specs.JobTree.{job_tree};
ghost use Rattle.px_callgraph.specs.States.{start_of, given_variables};
ghost use Rattle.px_callgraph.specs.Alternatives as spec;
ghost use Rattle.px_walks.specs.Starts.{first_content};
ghost use Rattle.px_walks.specs.Walks.{walk_of};

use crate::Walk;
use crate::control::put_commands;
use px_callgraph::{Job, State};
use px_core::Body;
use px_terms::{Content, Items, NoMemory, Place, Poly, Sort, ValueType, Var, VarInfo};
use std::alloc::Global;

// A variable as a written content.
fn variable_content(alloc: Global, value: ValueType, x: u32) -> Result<Content, NoMemory>
    ensures { IfOk result (λ content. content ≡ variable_content value x) }
{
    Ok(match value {
        ValueType::Int => Content::Word(Poly::var(alloc, Var(x))?),
        ValueType::Pointer(_) => Content::Place(Place::Var(Var(x))),
    })
}

// What stands in a slot at the start.
fn first_content(alloc: Global, parameters: &[ValueType], slot: u32) -> Result<Content, NoMemory>
    ensures { IfOk result (λ content. content ≡ first_content parameters.now slot) }
{
    match parameters.get(slot as usize) {
        Some(value) => variable_content(alloc, *value, slot),
        None => Ok(Content::Unwritten),
    }
}

// The slots at the start.
fn first_slots(alloc: Global, body: &Body) -> Result<Items<Content>, NoMemory>
    ensures { IfOk result (λ slots. slots ≡ (start_of (body_tree body.now)).slots) }
{
    let mut slots = Items::new(alloc);
    for slot in 0..body.slots {
        slots.push(first_content(alloc, body.parameters.as_slice(), slot)?)?;
    }
    Ok(slots)
}

// A variable for each parameter.
fn first_variables(alloc: Global, parameters: &[ValueType]) -> Result<Items<VarInfo>, NoMemory>
    ensures { IfOk result (λ vars. vars ≡ given_variables parameters.now) }
{
    let mut vars = Items::new(alloc);
    for value in parameters {
        vars.push(VarInfo {
            sort: Sort::Given,
            value: *value,
        })?;
    }
    Ok(vars)
}

// What is known at the start of a body.
fn first_state(alloc: Global, body: &Body) -> Result<State, NoMemory>
    ensures { IfOk result (λ state. state ≡ start_of (body_tree body.now)) }
{
    Ok(State {
        slots: first_slots(alloc, body)?,
        vars: first_variables(alloc, body.parameters.as_slice())?,
        pure: Items::new(alloc),
        pre: Items::new(alloc),
        atoms: Items::new(alloc),
        trace: Items::new(alloc),
        loops: Items::new(alloc),
        steps: 0,
    })
}

/// The start of all paths of a job.
pub fn start<'a>(alloc: Global, job: &'a Job) -> Result<Walk<'a>, NoMemory>
    ensures { IfOk result (λ walk. walk_of walk ≡ spec.start (job_tree job.entry.now)) }
{
    let mut control = Vec::new(alloc);
    put_commands(&mut control, &job.body.commands)?;
    Ok(Walk {
        state: first_state(alloc, &job.body)?,
        call: None,
        control,
    })
}
