ghost use Rattle.std.specs.Prelude.{◌≡◌, ◌∷◌, [], ◌++◌, ◌<◌, ◌^◌, length, List, IfOk, OnOk};
ghost use Rattle.px_core.specs.CommandTree.{command_tree};
ghost use Rattle.px_core.specs.Control.{Item};
ghost use Rattle.px_walks.specs.Nexts.{items_from};
ghost use Rattle.px_walks.specs.Walks.{walk_of};
ghost use Rattle.px_explore.specs.Taken as spec;

use px_callgraph::Way;
use px_core::Command;
use px_entry::{Atom, AtomState, Rule, Step};
use px_terms::{Items, NoMemory};
use px_walks::{Part, Upcoming, Walk, freed_rule, is_calling, is_silent, live_rule, next_item};
use std::alloc::Global;

// ---- the rule

// Whether a way leads to a block that is freed.
fn is_freed(atoms: &[Atom], way: Way) -> bool
    ensures { result ≡ spec.is_freed_way atoms.now way }
{
    let Way::Atom(n) = way else {
        return false;
    };
    match atoms.get(n as usize) {
        Some(atom) => matches!(atom.state, AtomState::Freed),
        None => false,
    }
}

// The rule of a way through a pointer.
fn pointer_rule(live: Rule, freed: Rule, null: Rule, is_freed: bool, way: Way) -> Rule
    ensures { result ≡ spec.pointer_rule live freed null is_freed way }
{
    match way {
        Way::Atom(_) => { if is_freed { freed } else { live } }
        Way::MissingLive => Rule::MissingLive,
        Way::MissingFreed => Rule::MissingFreed,
        _ => null,
    }
}

fn read_rule(way: Way) -> Rule
    ensures { result ≡ spec.read_rule way }
{
    match way {
        Way::Unwritten => Rule::ReadUnwritten,
        _ => Rule::ReadWritten,
    }
}

fn test_rule(way: Way) -> Rule
    ensures { result ≡ spec.test_rule way }
{
    match way {
        Way::Then => Rule::TestTrue,
        _ => Rule::TestFalse,
    }
}

fn malloc_rule(way: Way) -> Rule
    ensures { result ≡ spec.malloc_rule way }
{
    match way {
        Way::Made => Rule::Alloc,
        _ => Rule::AllocNull,
    }
}

fn divide_rule(way: Way) -> Rule
    ensures { result ≡ spec.divide_rule way }
{
    match way {
        Way::ByZero => Rule::DivideZero,
        _ => Rule::Divide,
    }
}

// The rule by which a command's way is taken.
#[tactic(auto, using(px_core::proofs::CommandEquations::trees))]
fn command_rule(command: &Command, is_freed: bool, way: Way) -> Rule
    ensures { result ≡ spec.command_rule (command_tree command.now) is_freed way }
{
    match command {
        Command::Read { .. } => read_rule(way),
        Command::Test { .. } => test_rule(way),
        Command::Leave => Rule::LeaveLoop,
        Command::Load { .. } => pointer_rule(
            Rule::Load,
            Rule::FreedAccess,
            Rule::NullAccess,
            is_freed,
            way,
        ),
        Command::Store { .. } => pointer_rule(
            Rule::Store,
            Rule::FreedAccess,
            Rule::NullAccess,
            is_freed,
            way,
        ),
        Command::Malloc { .. } => malloc_rule(way),
        Command::Free { .. } => {
            pointer_rule(Rule::Free, Rule::FreeTwice, Rule::FreeNull, is_freed, way)
        }
        Command::Input { .. } => Rule::Input,
        Command::Call { .. } => Rule::Call,
        Command::Divide { .. } => divide_rule(way),
        Command::Assign { .. }
        | Command::Unset { .. }
        | Command::If { .. }
        | Command::Loop { .. }
        | Command::Return { .. }
        | Command::Break
        | Command::Continue
        | Command::Stop { .. } => Rule::Assign,
    }
}

fn item_rule(next: Upcoming, is_freed: bool, way: Way) -> Rule
    ensures { (rest : List Item) → result ≡ spec.item_rule (items_from next.entry rest) is_freed way }
{
    match next {
        Upcoming::Command(command) => command_rule(command, is_freed, way),
        Upcoming::End(Part::Head, _) => Rule::Unroll,
        Upcoming::Nothing | Upcoming::End(Part::Body, _) | Upcoming::End(Part::Step, _) => {
            Rule::Assign
        }
    }
}

// ---- the steps

fn choices(alloc: Global, way: Way) -> Result<Items<u32>, NoMemory>
    ensures { IfOk result (λ choices. choices ≡ spec.choices_of way) }
{
    let mut choices = Items::new(alloc);
    if let Way::Atom(n) = way {
        choices.push(n)?;
    }
    Ok(choices)
}

// A step with one choice.
fn put_choice(
    alloc: Global,
    rule: Rule,
    choice: u32,
    steps: &mut Items<Step>,
) -> Result<(), NoMemory>
    ensures { OnOk result (steps.new ≡ steps.old ++ spec.a_choice rule choice ∷ []) }
{
    let mut choices = Items::new(alloc);
    choices.push(choice)?;
    steps.push(Step { rule, choices })
}

// The use of a block that is met.
fn put_use(
    alloc: Global,
    next: Upcoming,
    atom: u32,
    way: Way,
    steps: &mut Items<Step>,
) -> Result<(), NoMemory>
    ensures { OnOk result ((rest : List Item) → steps.new ≡ steps.old ++ spec.use_steps (items_from next.entry rest) atom way) }
{
    match way {
        Way::MissingLive => put_choice(alloc, live_rule(next), atom, steps),
        Way::MissingFreed => put_choice(alloc, freed_rule(next), atom, steps),
        _ => Ok(()),
    }
}

// Puts the steps by which a way outside a call is taken after those that lead there.
fn put_item_steps(
    alloc: Global,
    walk: &Walk,
    way: Way,
    steps: &mut Items<Step>,
) -> Result<(), NoMemory>
    ensures { OnOk result (steps.new ≡ steps.old ++ spec.steps_of (walk_of walk.now).control walk.now.state.atoms way) }
{
    let next = next_item(walk);
    if is_silent(next) {
        return Ok(());
    }
    let atoms = walk.state.atoms.as_slice();
    steps.push(Step {
        rule: item_rule(next, is_freed(atoms, way), way),
        choices: choices(alloc, way)?,
    })?;
    put_use(alloc, next, atoms.len() as u32, way, steps)
}

// What a way within a call adds to the choices of the call's step.
fn choice_of(atoms: u32, way: Way) -> Option<u32>
    ensures { result ≡ spec.choice_of atoms way }
{
    match way {
        Way::Entry(n) | Way::Atom(n) => Some(n),
        Way::Missing => Some(atoms),
        _ => None,
    }
}

// Puts a choice after those of the last step.
#[tactic(auto, using(crate::proofs::ChoiceLemmas::choice_last))]
fn put_last_choice(choice: u32, steps: &mut Items<Step>) -> Result<(), NoMemory>
    ensures { OnOk result (steps.new ≡ spec.with_choice choice steps.old) }
{
    let Some(mut last) = steps.pop() else {
        return Ok(());
    };
    last.choices.push(choice)?;
    steps.push(last)
}

// Takes a way within a call: the call's step is the last one.
fn put_choices(atoms: u32, way: Way, steps: &mut Items<Step>) -> Result<(), NoMemory>
    ensures { OnOk result (steps.new ≡ spec.with_choices (spec.choice_of atoms way) steps.old) }
{
    match choice_of(atoms, way) {
        Some(choice) => put_last_choice(choice, steps),
        None => Ok(()),
    }
}

/// Puts the steps by which a way is taken after those that lead there; within a call its choice after those of the
/// call's step, which is the last.
pub(crate) fn put_steps(
    alloc: Global,
    walk: &Walk,
    way: Way,
    steps: &mut Items<Step>,
) -> Result<(), NoMemory>
    ensures { OnOk result (steps.new ≡ spec.steps_with (walk_of walk.now) way steps.old) }
{
    if is_calling(walk) {
        put_choices(walk.state.atoms.len() as u32, way, steps)
    } else {
        put_item_steps(alloc, walk, way, steps)
    }
}
