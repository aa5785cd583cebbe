ghost use Rattle.std.specs.Prelude.{◌≡◌};
ghost use Rattle.px_core.specs.CommandTree.{command_tree};
ghost use Rattle.px_core.specs.BodyTree.{body_tree};
ghost use Rattle.px_walks.specs.Items.{trees};
ghost use Rattle.px_walks.specs.NoCalls.{has_no_call, have_no_call};

use px_core::{Body, Command};

/// Whether a body calls nobody. Takes no memory.
pub fn calls_nobody(body: &Body) -> bool
    ensures { result ≡ have_no_call (body_tree body.now).commands }
{
    have_no_call(&body.commands)
}

#[cycle(calls)]
fn have_no_call(commands: &[Command]) -> bool
    ensures { result ≡ have_no_call (trees commands.now) }
{
    for command in commands {
        if !has_no_call(command) {
            return false;
        }
    }
    true
}

#[cycle(calls)]
#[tactic(auto, using(px_core::proofs::CommandEquations::trees))]
fn has_no_call(command: &Command) -> bool
    ensures { result ≡ has_no_call (command_tree command.now) }
{
    match command {
        Command::If { then, other, .. } => have_no_call(then) && have_no_call(other),
        Command::Loop {
            head,
            body,
            step,
            ..
        } => have_no_call(head) && have_no_call(body) && have_no_call(step),
        Command::Call { .. } => false,
        _ => true,
    }
}
