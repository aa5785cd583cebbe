ghost use Rattle.std.specs.Prelude.{◌≡◌, ◌++◌, [], map, IfOk, OnOk};
ghost use Rattle.px_core.specs.CommandTree.{command_tree, commands_of};
ghost use Rattle.px_core.specs.BodyTree.{body_tree};
ghost use Rattle.px_callgraph.specs.NameLists.{names_of, names_in};

use px_core::{Body, Command};
use px_terms::NoMemory;
use std::alloc::Global;

// The procedures that a body calls, each as often as it is called.
pub(crate) fn names_called(alloc: Global, body: &Body) -> Result<Vec<u32>, NoMemory>
    ensures { IfOk result (λ names. names.items ≡ names_in (body_tree body.now).commands) }
{
    let mut names = Vec::new(alloc);
    add_names(&body.commands, &mut names)?;
    Ok(names)
}

// Puts the procedures that the commands call after the others, each as often as it is called.
#[cycle(names)]
fn add_names(commands: &[Command], names: &mut Vec<u32>) -> Result<(), NoMemory>
    ensures { OnOk result (names.new.items ≡ names.old.items ++ names_in (commands_of (map command_tree commands.now))) }
{
    for command in commands {
        add_names_of(command, names)?;
    }
    Ok(())
}

#[cycle(names)]
#[tactic(auto, using(px_core::proofs::CommandEquations::trees))]
fn add_names_of(command: &Command, names: &mut Vec<u32>) -> Result<(), NoMemory>
    ensures { OnOk result (names.new.items ≡ names.old.items ++ names_of (command_tree command.now)) }
{
    match command {
        Command::If { then, other, .. } => {
            add_names(then, names)?;
            add_names(other, names)
        }
        Command::Loop {
            head,
            body,
            step,
            ..
        } => {
            add_names(head, names)?;
            add_names(body, names)?;
            add_names(step, names)
        }
        Command::Call { proc, .. } => {
            names.push(proc.0)?;
            Ok(())
        }
        _ => Ok(()),
    }
}
