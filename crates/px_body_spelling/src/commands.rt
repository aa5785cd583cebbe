ghost use Rattle.std.specs.Prelude.{◌≡◌, ◌-◌, ◌+◌, ◌++◌, ◌∷◌, [], map, IfOk, OnOk};
ghost use Rattle.px_core.specs.CommandTree.{command_tree, commands_of};
ghost use Rattle.px_core.specs.Sizes.{command_size, commands_size};
ghost use Rattle.px_spelling.specs.Reading.{Gives};
ghost use Rattle.px_body_spelling.specs.Commands.{choose_at, loop_at, command_by, command_at, row_at, list_by, commands_at};

use crate::plain::read_plain;
use px_base::Site;
use px_core::Command;
use px_spelling::{Wire, WireFault};
use px_terms::NoMemory;
use std::alloc::Global;

// One more command.
fn put(commands: &mut Vec<Command>, command: Command) -> Result<(), NoMemory>
    ensures { OnOk result (map command_tree commands.new.items ≡ map command_tree commands.old.items ++ command_tree command ∷ []) }
{
    commands.push(command)?;
    Ok(())
}

/// A list of commands, for how many more there is room after it, and the bytes after it. Commands stand in each other at
/// most `depth` deep, and those that stand in others take room too. Memory is taken command by command.
#[cycle(command)]
#[tactic(auto, unfolding(crate::specs::Commands::list_by))]
pub(crate) fn read_commands(
    alloc: Global,
    depth: u32,
    room: u32,
    bytes: &[u8],
) -> Result<(Vec<Command>, u32, &[u8]), WireFault>
    ensures reads { Gives (λ x. (commands_of (map command_tree x.0.items), x.2.now)) result (commands_at depth room bytes.now) }
    ensures left { IfOk result (λ x. x.1 ≡ room - commands_size (commands_of (map command_tree x.0.items))) }
{
    let (count, rest) = u32::read(alloc, bytes)?;
    if count > room {
        return Err(WireFault::NotAMessage);
    }
    read_row(alloc, depth, room, count, rest)
}

// So many commands.
#[cycle(command)]
fn read_row(
    alloc: Global,
    depth: u32,
    room: u32,
    count: u32,
    bytes: &[u8],
) -> Result<(Vec<Command>, u32, &[u8]), WireFault>
    ensures reads { Gives (λ x. (commands_of (map command_tree x.0.items), x.2.now)) result (row_at (command_at depth) count room bytes.now) }
    ensures left { IfOk result (λ x. x.1 ≡ room - commands_size (commands_of (map command_tree x.0.items))) }
{
    let mut commands = Vec::new(alloc);
    let mut left = room;
    let mut rest = bytes;
    for _ in 0..count {
        let (command, behind, after) = read_command(alloc, depth, left, rest)?;
        put(&mut commands, command)?;
        left = behind;
        rest = after;
    }
    Ok((commands, left, rest))
}

// A command, by the depth alone.
#[cycle(command)]
#[tactic(auto, using(crate::proofs::CommandReading::command_is))]
fn read_command(
    alloc: Global,
    depth: u32,
    room: u32,
    bytes: &[u8],
) -> Result<(Command, u32, &[u8]), WireFault>
    ensures reads { Gives (λ x. (command_tree x.0, x.2.now)) result (command_at depth room bytes.now) }
    ensures left { IfOk result (λ x. x.1 ≡ room - command_size (command_tree x.0)) }
{
    read_one(alloc, depth, room, bytes)
}

// A command, where commands may still stand in each other `depth` deep.
#[cycle(command)]
#[tactic(auto, unfolding(crate::specs::Commands::command_by, crate::specs::Commands::command_with))]
fn read_one(
    alloc: Global,
    depth: u32,
    room: u32,
    bytes: &[u8],
) -> Result<(Command, u32, &[u8]), WireFault>
    ensures reads { Gives (λ x. (command_tree x.0, x.2.now)) result (command_by depth room (commands_at (depth - 1)) bytes.now) }
    ensures left { IfOk result (λ x. x.1 ≡ room - command_size (command_tree x.0)) }
{
    if depth == 0 {
        return Err(WireFault::NotAMessage);
    }
    if room == 0 {
        return Err(WireFault::NotAMessage);
    }
    let (tag, rest) = u8::read(alloc, bytes)?;
    match tag {
        4 => read_if(alloc, depth - 1, room - 1, rest),
        5 => read_loop(alloc, depth - 1, room - 1, rest),
        _ => {
            let (command, rest) = read_plain(alloc, tag, rest)?;
            Ok((command, room - 1, rest))
        }
    }
}

// An `If` after its byte, where there is room for so many commands in it.
#[cycle(command)]
#[tactic(auto, unfolding(crate::specs::Commands::choose_at), using(px_core::proofs::CommandEquations::trees))]
fn read_if(
    alloc: Global,
    depth: u32,
    room: u32,
    bytes: &[u8],
) -> Result<(Command, u32, &[u8]), WireFault>
    ensures reads { Gives (λ x. (command_tree x.0, x.2.now)) result (choose_at (commands_at depth) room bytes.now) }
    ensures left { IfOk result (λ x. x.1 ≡ room + 1 - command_size (command_tree x.0)) }
{
    let (slot, rest) = u32::read(alloc, bytes)?;
    let (then, left, rest) = read_commands(alloc, depth, room, rest)?;
    let (other, left, rest) = read_commands(alloc, depth, left, rest)?;
    Ok((Command::If { slot, then, other }, left, rest))
}

// A `Loop` after its byte, where there is room for so many commands in it.
#[cycle(command)]
#[tactic(auto, unfolding(crate::specs::Commands::loop_at), using(px_core::proofs::CommandEquations::trees))]
fn read_loop(
    alloc: Global,
    depth: u32,
    room: u32,
    bytes: &[u8],
) -> Result<(Command, u32, &[u8]), WireFault>
    ensures reads { Gives (λ x. (command_tree x.0, x.2.now)) result (loop_at (commands_at depth) room bytes.now) }
    ensures left { IfOk result (λ x. x.1 ≡ room + 1 - command_size (command_tree x.0)) }
{
    let (site, rest) = Site::read(alloc, bytes)?;
    let (head, left, rest) = read_commands(alloc, depth, room, rest)?;
    let (body, left, rest) = read_commands(alloc, depth, left, rest)?;
    let (step, left, rest) = read_commands(alloc, depth, left, rest)?;
    Ok((
        Command::Loop {
            site,
            head,
            body,
            step,
        },
        left,
        rest,
    ))
}
