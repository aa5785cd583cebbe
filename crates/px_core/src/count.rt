ghost use Rattle.std.specs.Prelude.{◌≡◌, min, map};
ghost use Rattle.px_core.specs.CommandTree.{command_tree, commands_of};
ghost use Rattle.px_core.specs.BodyTree.{body_tree};
ghost use Rattle.px_core.specs.Sizes.{command_size, commands_size};

use crate::{Body, Command};

/// The number of commands of a body, those that stand in others counted. From 2^64 - 1 commands on it is
/// that number. Takes no memory.
pub fn size(body: &Body) -> u64
    ensures { result ≡ min (commands_size (body_tree body.now).commands) u64.MAX }
{
    size_of_commands(&body.commands)
}

#[cycle(size)]
fn size_of_commands(commands: &[Command]) -> u64
    ensures { result ≡ min (commands_size (commands_of (map command_tree commands.now))) u64.MAX }
{
    let mut count = 0u64;
    for command in commands {
        count = count.saturating_add(size_of_command(command));
    }
    count
}

#[cycle(size)]
fn size_of_command(command: &Command) -> u64
    ensures { result ≡ min (command_size (command_tree command.now)) u64.MAX }
{
    match command {
        Command::If { then, other, .. } => {
            let count = size_of_commands(then).saturating_add(size_of_commands(other));
            count.saturating_add(1)
        }
        Command::Loop {
            head,
            body,
            step,
            ..
        } => {
            let count = size_of_commands(head).saturating_add(size_of_commands(body));
            let count = count.saturating_add(size_of_commands(step));
            count.saturating_add(1)
        }
        _ => 1,
    }
}
