ghost use Rattle.std.specs.Prelude.{◌≡◌, ◌↔◌, true, map};
ghost use Rattle.px_core.specs.CommandTree.{command_tree, commands_of};
ghost use Rattle.px_core.specs.BodyTree.{body_tree};
ghost use Rattle.px_body_spelling.specs.Commands.{IsCommand, AreCommands};
ghost use Rattle.px_body_spelling.specs.Bodies.{IsBody};

use crate::read::{MOST_COMMANDS, MOST_PARAMETERS};
use px_core::{Body, Command, size};
use px_spelling::{Wire, are_in_range};

/// Whether a body is in range, so that its bytes are read again as it is. Takes no memory.
pub fn is_body_in_range(body: &Body) -> bool
    ensures { result ≡ true ↔ IsBody (body_tree body.now) }
{
    body.slots.is_in_range()
        && are_in_range(MOST_PARAMETERS, body.parameters.as_slice())
        && body.result.is_in_range()
        && are_commands_in_range(&body.commands)
        && size(body) <= MOST_COMMANDS as u64
}

#[cycle(commands)]
fn are_commands_in_range(commands: &[Command]) -> bool
    ensures { result ≡ true ↔ AreCommands (commands_of (map command_tree commands.now)) }
{
    for command in commands {
        if !is_command_in_range(command) {
            return false;
        }
    }
    true
}

#[cycle(commands)]
#[tactic(auto, using(px_core::proofs::CommandEquations::trees))]
fn is_command_in_range(command: &Command) -> bool
    ensures { result ≡ true ↔ IsCommand (command_tree command.now) }
{
    match command {
        Command::Assign { to, a, b, .. } => {
            to.is_in_range() && a.is_in_range() && b.is_in_range()
        }
        Command::Unset { to } => to.is_in_range(),
        Command::Read { slot: number, site }
        | Command::Input { to: number, site }
        | Command::Stop { word: number, site } => { number.is_in_range() && site.is_in_range() }
        Command::Test { to, a, b, site, .. } | Command::Divide { to, a, b, site } => {
            to.is_in_range() && a.is_in_range() && b.is_in_range() && site.is_in_range()
        }
        Command::If { slot, then, other } => {
            slot.is_in_range() && are_commands_in_range(then) && are_commands_in_range(other)
        }
        Command::Loop {
            site,
            head,
            body,
            step,
        } => {
            site.is_in_range()
                && are_commands_in_range(head)
                && are_commands_in_range(body)
                && are_commands_in_range(step)
        }
        Command::Load {
            to,
            at,
            field,
            block,
            site,
        } => {
            to.is_in_range()
                && at.is_in_range()
                && field.is_in_range()
                && block.is_in_range()
                && site.is_in_range()
        }
        Command::Store {
            at,
            field,
            block,
            from,
            site,
        } => {
            at.is_in_range()
                && field.is_in_range()
                && block.is_in_range()
                && from.is_in_range()
                && site.is_in_range()
        }
        Command::Malloc { to, block, site } => {
            to.is_in_range() && block.is_in_range() && site.is_in_range()
        }
        Command::Free { at, block, site } => {
            at.is_in_range() && block.is_in_range() && site.is_in_range()
        }
        Command::Call {
            to,
            proc,
            arguments,
            site,
        } => {
            to.is_in_range()
                && proc.is_in_range()
                && are_in_range(u32::MAX, arguments)
                && site.is_in_range()
        }
        Command::Return { from } => from.is_in_range(),
        Command::Leave | Command::Break | Command::Continue => true,
    }
}
