ghost use Rattle.std.specs.Prelude.{◌≡◌, List, option_map, IfOk};
ghost use Rattle.px_core.specs.CommandTree.{command_tree};
ghost use Rattle.px_core.specs.Control.{Item};
ghost use Rattle.px_callgraph.specs.declared.states.State.{State as StateOf};
ghost use Rattle.px_callgraph.specs.Alternatives.{after_command};
ghost use Rattle.px_callgraph.specs.Commands as commands;
ghost use Rattle.px_calls.specs.Calls.{call_of};

use crate::{Call, Calling, Stage};
use px_callgraph::State;
use px_core::{Command, Operand};
use px_match::operand_content;
use px_terms::{Content, Items, NoMemory};
use std::alloc::Global;

/// The call that a command begins, with its arguments as they are in the state before it; none, where the command is
/// no call.
#[tactic(auto, using(px_core::proofs::CommandEquations::trees))]
pub fn enter<'a>(
    alloc: Global,
    state: &State,
    command: &Command,
) -> Result<Option<Call<'a>>, NoMemory>
    ensures { IfOk result (λ call. (k : List Item) (t : StateOf) → after_command state.now (command_tree command.now) k t ≡ record { state = t; call = option_map call_of call; control = k }) }
{
    match command {
        Command::Call {
            to,
            proc,
            arguments,
            site,
        } => Ok(Some(Call {
            calling: Calling {
                to: *to,
                proc: *proc,
                arguments: argument_contents(alloc, state, arguments)?,
                site: *site,
            },
            stage: Stage::Choosing,
        })),
        _ => Ok(None),
    }
}

// The contents of operands, in order.
#[tactic(auto, using(px_match::proofs::Operands::operand_is))]
fn argument_contents(
    alloc: Global,
    state: &State,
    operands: &[Operand],
) -> Result<Items<Content>, NoMemory>
    ensures { IfOk result (λ contents. contents ≡ commands.argument_contents state.now operands.now) }
{
    let mut contents = Items::new(alloc);
    for operand in operands {
        contents.push(operand_content(alloc, state.slots.as_slice(), operand)?)?;
    }
    Ok(contents)
}
