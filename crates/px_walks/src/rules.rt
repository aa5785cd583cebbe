ghost use Rattle.std.specs.Prelude.{◌≡◌, ◌∷◌, List};
ghost use Rattle.px_core.specs.CommandTree.{command_tree};
ghost use Rattle.px_core.specs.Control.{Item, Act};
ghost use Rattle.px_callgraph.specs.Derivations as spec;
ghost use Rattle.px_walks.specs.Nexts.{items_from};

use crate::control::Upcoming;
use crate::pieces::Part;
use px_core::Command;
use px_entry::Rule;

/// Whether what comes next takes no step of its own.
pub fn is_silent(next: Upcoming) -> bool
    ensures { (rest : List Item) → result ≡ spec.is_silent (items_from next.entry rest) }
{
    match next {
        Upcoming::Command(command) => is_silent_command(command),
        Upcoming::End(Part::Head, _) => false,
        Upcoming::Nothing | Upcoming::End(Part::Body, _) | Upcoming::End(Part::Step, _) => true,
    }
}

#[tactic(auto, using(px_core::proofs::CommandEquations::trees))]
fn is_silent_command(command: &Command) -> bool
    ensures { (rest : List Item) → result ≡ spec.is_silent (Act (command_tree command.now) ∷ rest) }
{
    matches!(command, Command::Loop { .. } | Command::Return { .. })
}

/// The rule by which what comes next uses a live block.
pub fn live_rule(next: Upcoming) -> Rule
    ensures { (rest : List Item) → result ≡ spec.live_rule (items_from next.entry rest) }
{
    match next {
        Upcoming::Command(command) => command_live_rule(command),
        Upcoming::Nothing | Upcoming::End(_, _) => Rule::Load,
    }
}

#[tactic(auto, using(px_core::proofs::CommandEquations::trees))]
fn command_live_rule(command: &Command) -> Rule
    ensures { (rest : List Item) → result ≡ spec.live_rule (Act (command_tree command.now) ∷ rest) }
{
    match command {
        Command::Store { .. } => Rule::Store,
        Command::Free { .. } => Rule::Free,
        _ => Rule::Load,
    }
}

/// The rule by which what comes next uses a freed block.
pub fn freed_rule(next: Upcoming) -> Rule
    ensures { (rest : List Item) → result ≡ spec.freed_rule (items_from next.entry rest) }
{
    match next {
        Upcoming::Command(command) => command_freed_rule(command),
        Upcoming::Nothing | Upcoming::End(_, _) => Rule::FreedAccess,
    }
}

#[tactic(auto, using(px_core::proofs::CommandEquations::trees))]
fn command_freed_rule(command: &Command) -> Rule
    ensures { (rest : List Item) → result ≡ spec.freed_rule (Act (command_tree command.now) ∷ rest) }
{
    match command {
        Command::Free { .. } => Rule::FreeTwice,
        _ => Rule::FreedAccess,
    }
}
