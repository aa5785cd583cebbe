ghost use Rattle.std.specs.Prelude.{◌≡◌, IfOk, map};
ghost use Rattle.px_core.specs.CommandTree.{command_tree};
ghost use Rattle.px_core.specs.BodyTree.{body_tree};

use crate::{Body, Command};
use px_terms::{Items, NoMemory};
use std::alloc::Global;

/// A body that equals this one.
pub fn copy_body(alloc: Global, body: &Body) -> Result<Body, NoMemory>
    ensures { IfOk result (λ copy. body_tree copy ≡ body_tree body.now) }
{
    let parameters = Items::from_slice(alloc, body.parameters.as_slice())?;
    let commands = copy_commands(alloc, &body.commands)?;
    Ok(Body {
        slots: body.slots,
        parameters,
        result: body.result,
        commands,
    })
}

#[cycle(copy)]
fn copy_commands(alloc: Global, commands: &[Command]) -> Result<Vec<Command>, NoMemory>
    ensures { IfOk result (λ copy. map command_tree copy.items ≡ map command_tree commands.now) }
{
    let mut copy = Vec::with_capacity(alloc, commands.len())?;
    for command in commands {
        copy.push(copy_command(alloc, command)?)?;
    }
    Ok(copy)
}

#[cycle(copy)]
fn copy_command(alloc: Global, command: &Command) -> Result<Command, NoMemory>
    ensures { IfOk result (λ copy. command_tree copy ≡ command_tree command.now) }
{
    Ok(match command {
        Command::If { slot, then, other } => Command::If {
            slot: *slot,
            then: copy_commands(alloc, then)?,
            other: copy_commands(alloc, other)?,
        },
        Command::Loop {
            site,
            head,
            body,
            step,
        } => Command::Loop {
            site: *site,
            head: copy_commands(alloc, head)?,
            body: copy_commands(alloc, body)?,
            step: copy_commands(alloc, step)?,
        },
        Command::Call {
            to,
            proc,
            arguments,
            site,
        } => Command::Call {
            to: *to,
            proc: *proc,
            arguments: Vec::from_slice(alloc, arguments)?,
            site: *site,
        },
        &Command::Assign { to, op, a, b } => Command::Assign { to, op, a, b },
        &Command::Unset { to } => Command::Unset { to },
        &Command::Read { slot, site } => Command::Read { slot, site },
        &Command::Test {
            to,
            how,
            a,
            b,
            site,
        } => Command::Test {
            to,
            how,
            a,
            b,
            site,
        },
        Command::Leave => Command::Leave,
        &Command::Load {
            to,
            at,
            field,
            block,
            site,
        } => Command::Load {
            to,
            at,
            field,
            block,
            site,
        },
        &Command::Store {
            at,
            field,
            block,
            from,
            site,
        } => Command::Store {
            at,
            field,
            block,
            from,
            site,
        },
        &Command::Malloc { to, block, site } => Command::Malloc { to, block, site },
        &Command::Free { at, block, site } => Command::Free { at, block, site },
        &Command::Input { to, site } => Command::Input { to, site },
        &Command::Return { from } => Command::Return { from },
        Command::Break => Command::Break,
        Command::Continue => Command::Continue,
        &Command::Stop { word, site } => Command::Stop { word, site },
        &Command::Divide { to, a, b, site } => Command::Divide { to, a, b, site },
    })
}
