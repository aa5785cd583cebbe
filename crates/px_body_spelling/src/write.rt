ghost use Rattle.std.specs.Prelude.{◌≡◌, ◌++◌, map};
ghost use Rattle.px_core.specs.CommandTree.{command_tree, commands_of};
ghost use Rattle.px_core.specs.BodyTree.{body_tree};
ghost use Rattle.px_body_spelling.specs.Commands.{command_bytes, commands_bytes};
ghost use Rattle.px_body_spelling.specs.Bodies.{body_bytes};

use px_core::{Body, Command};
use px_spelling::{Output, Wire, write_count, write_items};

/// Puts the bytes of a body.
pub fn write_body<O: Output>(body: &Body, out: &mut O, target: &mut O::Target)
    ensures written { O.written out.new ≡ O.written out.old ++ body_bytes (body_tree body.now) }
    ensures reached { (from : O.Target) → O.reaches from out.old target.old → O.reaches from out.new target.new }
{
    body.slots.write(out, target);
    write_items(body.parameters.as_slice(), out, target);
    body.result.write(out, target);
    write_commands(&body.commands, out, target)
}

#[cycle(write)]
#[tactic(auto, using(crate::proofs::CommandLoops::how_many_are))]
fn write_commands<O: Output>(commands: &[Command], out: &mut O, target: &mut O::Target)
    ensures written { O.written out.new ≡ O.written out.old ++ commands_bytes (commands_of (map command_tree commands.now)) }
    ensures reached { (from : O.Target) → O.reaches from out.old target.old → O.reaches from out.new target.new }
{
    write_count(commands.len(), out, target);
    for command in commands {
        write_command(command, out, target);
    }
}

#[cycle(write)]
#[tactic(auto, using(px_core::proofs::CommandEquations::trees))]
fn write_command<O: Output>(command: &Command, out: &mut O, target: &mut O::Target)
    ensures written { O.written out.new ≡ O.written out.old ++ command_bytes (command_tree command.now) }
    ensures reached { (from : O.Target) → O.reaches from out.old target.old → O.reaches from out.new target.new }
{
    match command {
        Command::Assign { to, op, a, b } => {
            0u8.write(out, target);
            to.write(out, target);
            op.write(out, target);
            a.write(out, target);
            b.write(out, target)
        }
        Command::Unset { to } => {
            1u8.write(out, target);
            to.write(out, target)
        }
        Command::Read { slot, site } => {
            2u8.write(out, target);
            slot.write(out, target);
            site.write(out, target)
        }
        Command::Test {
            to,
            how,
            a,
            b,
            site,
        } => {
            3u8.write(out, target);
            to.write(out, target);
            how.write(out, target);
            a.write(out, target);
            b.write(out, target);
            site.write(out, target)
        }
        Command::If { slot, then, other } => {
            4u8.write(out, target);
            slot.write(out, target);
            write_commands(then, out, target);
            write_commands(other, out, target)
        }
        Command::Loop {
            site,
            head,
            body,
            step,
        } => {
            5u8.write(out, target);
            site.write(out, target);
            write_commands(head, out, target);
            write_commands(body, out, target);
            write_commands(step, out, target)
        }
        Command::Leave => 6u8.write(out, target),
        Command::Load {
            to,
            at,
            field,
            block,
            site,
        } => {
            7u8.write(out, target);
            to.write(out, target);
            at.write(out, target);
            field.write(out, target);
            block.write(out, target);
            site.write(out, target)
        }
        Command::Store {
            at,
            field,
            block,
            from,
            site,
        } => {
            8u8.write(out, target);
            at.write(out, target);
            field.write(out, target);
            block.write(out, target);
            from.write(out, target);
            site.write(out, target)
        }
        Command::Malloc { to, block, site } => {
            9u8.write(out, target);
            to.write(out, target);
            block.write(out, target);
            site.write(out, target)
        }
        Command::Free { at, block, site } => {
            10u8.write(out, target);
            at.write(out, target);
            block.write(out, target);
            site.write(out, target)
        }
        Command::Input { to, site } => {
            11u8.write(out, target);
            to.write(out, target);
            site.write(out, target)
        }
        Command::Call {
            to,
            proc,
            arguments,
            site,
        } => {
            12u8.write(out, target);
            to.write(out, target);
            proc.write(out, target);
            write_items(arguments, out, target);
            site.write(out, target)
        }
        Command::Return { from } => {
            13u8.write(out, target);
            from.write(out, target)
        }
        Command::Break => 14u8.write(out, target),
        Command::Continue => 15u8.write(out, target),
        Command::Stop { word, site } => {
            16u8.write(out, target);
            word.write(out, target);
            site.write(out, target)
        }
        Command::Divide { to, a, b, site } => {
            17u8.write(out, target);
            to.write(out, target);
            a.write(out, target);
            b.write(out, target);
            site.write(out, target)
        }
    }
}
