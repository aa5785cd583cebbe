ghost use Rattle.std.specs.Prelude.{◌≡◌, map};
ghost use Rattle.std.specs.List.{list_all};
ghost use Rattle.px_core.specs.CommandTree.{command_tree, commands_of};
ghost use Rattle.px_core.specs.BodyTree.{body_tree};
ghost use Rattle.px_wire.specs.BodyRanges.{operand_within, to_within, from_within, value_within, command_within, commands_within, body_within};

use crate::term_ranges::{are_value_types_within, is_type_within, is_value_type_within};
use px_core::{Body, Command, Operand};
use px_terms::ValueType;

/// Slots of a body: one for each parameter, and one for each command.
const MOST_SLOTS: u32 = 2_016;

pub(crate) fn is_body_within(types: usize, body: &Body) -> bool
    ensures { result ≡ body_within types (body_tree body.now) }
{
    body.parameters.len() <= body.slots as usize
        && body.slots <= MOST_SLOTS
        && are_value_types_within(types, body.parameters.as_slice())
        && is_value_within(types, body.result)
        && are_commands_within(body.slots, types, &body.commands)
}

fn is_value_within(types: usize, value: Option<ValueType>) -> bool
    ensures { result ≡ value_within types value }
{
    match value {
        Some(t) => is_value_type_within(types, t),
        None => true,
    }
}

fn is_operand_within(slots: u32, a: Operand) -> bool
    ensures { result ≡ operand_within slots a }
{
    match a {
        Operand::Slot(i) => i < slots,
        Operand::Word(_) | Operand::Null => true,
    }
}

fn are_operands_within(slots: u32, all: &[Operand]) -> bool
    ensures { result ≡ list_all (operand_within slots) all.now }
{
    all.iter().all(|a| is_operand_within(slots, *a))
}

fn is_to_within(slots: u32, to: Option<u32>) -> bool
    ensures { result ≡ to_within slots to }
{
    match to {
        Some(i) => i < slots,
        None => true,
    }
}

fn is_from_within(slots: u32, from: Option<Operand>) -> bool
    ensures { result ≡ from_within slots from }
{
    match from {
        Some(a) => is_operand_within(slots, a),
        None => true,
    }
}

#[cycle(commands)]
fn are_commands_within(slots: u32, types: usize, commands: &[Command]) -> bool
    ensures { result ≡ commands_within slots types (commands_of (map command_tree commands.now)) }
{
    for command in commands {
        if !is_command_within(slots, types, command) {
            return false;
        }
    }
    true
}

#[cycle(commands)]
#[tactic(auto, using(px_core::proofs::CommandEquations::trees))]
fn is_command_within(slots: u32, types: usize, command: &Command) -> bool
    ensures { result ≡ command_within slots types (command_tree command.now) }
{
    match command {
        Command::Assign { to, a, b, .. }
        | Command::Test { to, a, b, .. }
        | Command::Divide { to, a, b, .. } => {
            *to < slots && is_operand_within(slots, *a) && is_operand_within(slots, *b)
        }
        Command::Unset { to } | Command::Input { to, .. } => *to < slots,
        Command::Read { slot, .. } => *slot < slots,
        Command::If { slot, then, other } => {
            *slot < slots
                && are_commands_within(slots, types, then)
                && are_commands_within(slots, types, other)
        }
        Command::Loop {
            head,
            body,
            step,
            ..
        } => {
            are_commands_within(slots, types, head)
                && are_commands_within(slots, types, body)
                && are_commands_within(slots, types, step)
        }
        Command::Load { to, at, block, .. } => {
            *to < slots && is_operand_within(slots, *at) && is_type_within(types, *block)
        }
        Command::Store {
            at,
            block,
            from,
            ..
        } => {
            is_operand_within(slots, *at)
                && is_type_within(types, *block)
                && is_operand_within(slots, *from)
        }
        Command::Malloc { to, block, .. } => *to < slots && is_type_within(types, *block),
        Command::Free { at, block, .. } => {
            is_operand_within(slots, *at) && is_type_within(types, *block)
        }
        Command::Call { to, arguments, .. } => {
            is_to_within(slots, *to) && are_operands_within(slots, arguments)
        }
        Command::Return { from } => is_from_within(slots, *from),
        Command::Leave | Command::Break | Command::Continue | Command::Stop { .. } => true,
    }
}
