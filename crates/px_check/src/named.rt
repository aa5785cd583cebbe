ghost use Rattle.std.specs.Prelude.{◌≡◌, ℕ, false, cond, List, ◌∷◌, Option, None};
ghost use Rattle.std.specs.Option.{option_copied};
ghost use Rattle.px_base.specs.declared.trace.Site.{Site as SiteOf};
ghost use Rattle.px_terms.specs.declared.types.TypeId.{TypeId};
ghost use Rattle.px_core.specs.declared.command.Operand.{Operand};
ghost use Rattle.px_core.specs.declared.command.Operator.{Operator};
ghost use Rattle.px_core.specs.declared.command.Comparison.{Comparison};
ghost use Rattle.px_core.specs.CommandTree.{command_tree};
ghost use Rattle.px_core.specs.CommandTree as tree;
ghost use Rattle.px_core.specs.Control.{Turns, Item, AfterHead};
ghost use Rattle.px_entry.specs.declared.atoms.Atom.{Atom as AtomOf};
ghost use Rattle.px_entry.specs.Cases as cases;
ghost use Rattle.px_entry.specs.Rules.{same_rule};
ghost use Rattle.px_callgraph.specs.Derivations as spec;
ghost use Rattle.px_walks.specs.Nexts.{items_from};
ghost use Rattle.px_walks.specs.Items.{end_of};
ghost use Rattle.px_check.specs.Steps.{named_way};

use px_callgraph::Way;
use px_core::Command;
use px_entry::{Atom, AtomState, Rule};
use px_walks::{Part, Upcoming};

/// Whether both are the same rule.
pub(crate) fn is_same_rule(a: Rule, b: Rule) -> bool
    ensures { result ≡ same_rule a b }
{
    a == b
}

// The way of a rule without choices.
fn alone(choices: &[u32], way: Way) -> Option<Way>
    ensures { result ≡ spec.alone choices.now way }
{
    if choices.is_empty() { Some(way) } else { None }
}

fn is_freed(state: &AtomState) -> bool
    ensures { result ≡ cases.is_freed state.now }
{
    matches!(state, AtomState::Freed)
}

// The way to the block of an atom, where it is freed or live as the rule says.
fn atom_way(n: u32, freed: bool, atom: Option<&Atom>) -> Option<Way>
    ensures { result ≡ spec.atom_way n freed (option_copied atom.entry) }
{
    if is_freed(&atom?.state) == freed {
        Some(Way::Atom(n))
    } else {
        None
    }
}

// The same, of the atom that the choices name.
fn chosen_atom(freed: bool, atoms: &[Atom], choices: &[u32]) -> Option<Way>
    ensures { result ≡ spec.chosen_atom freed atoms.now choices.now }
{
    match choices {
        [n] => atom_way(*n, freed, atoms.get(*n as usize)),
        _ => None,
    }
}

// Of a load or a store, which has this rule.
fn access_way(access: Rule, atoms: &[Atom], rule: Rule, choices: &[u32]) -> Option<Way>
    ensures { result ≡ spec.access_way access atoms.now rule choices.now }
{
    match rule {
        Rule::NullAccess => alone(choices, Way::Null),
        Rule::FreedAccess => chosen_atom(true, atoms, choices),
        Rule::MissingLive => alone(choices, Way::MissingLive),
        Rule::MissingFreed => alone(choices, Way::MissingFreed),
        _ => live_way(access, atoms, rule, choices),
    }
}

// The way to a live block, where the rule is the one that is wanted.
fn live_way(access: Rule, atoms: &[Atom], rule: Rule, choices: &[u32]) -> Option<Way>
    ensures { result ≡ cond (same_rule access rule) (spec.chosen_atom false atoms.now choices.now) None }
{
    if is_same_rule(access, rule) {
        chosen_atom(false, atoms, choices)
    } else {
        None
    }
}

// Of `free`.
fn free_way(atoms: &[Atom], rule: Rule, choices: &[u32]) -> Option<Way>
    ensures { (at : Operand) (block : TypeId) (site : SiteOf) → result ≡ spec.command_way atoms.now (tree.free at block site) rule choices.now }
{
    match rule {
        Rule::Free => chosen_atom(false, atoms, choices),
        Rule::FreeTwice => chosen_atom(true, atoms, choices),
        Rule::FreeNull => alone(choices, Way::Null),
        Rule::MissingLive => alone(choices, Way::MissingLive),
        Rule::MissingFreed => alone(choices, Way::MissingFreed),
        _ => None,
    }
}

// Of what has one way on and no other rule.
fn assign_way(rule: Rule, choices: &[u32]) -> Option<Way>
    ensures assign { (atoms : List AtomOf) (to : ℕ) (op : Operator) (a b : Operand) → result ≡ spec.command_way atoms (tree.assign to op a b) rule choices.now }
    ensures unset { (atoms : List AtomOf) (to : ℕ) → result ≡ spec.command_way atoms (tree.unset to) rule choices.now }
    ensures choice { (atoms : List AtomOf) (slot : ℕ) (first second : tree.CommandTrees) → result ≡ spec.command_way atoms (tree.choose slot first second) rule choices.now }
    ensures broken { (atoms : List AtomOf) → result ≡ spec.command_way atoms tree.break rule choices.now }
    ensures continued { (atoms : List AtomOf) → result ≡ spec.command_way atoms tree.continue rule choices.now }
{
    match rule {
        Rule::Assign => alone(choices, Way::On),
        _ => None,
    }
}

fn read_way(rule: Rule, choices: &[u32]) -> Option<Way>
    ensures { (atoms : List AtomOf) (slot : ℕ) (site : SiteOf) → result ≡ spec.command_way atoms (tree.read slot site) rule choices.now }
{
    match rule {
        Rule::ReadWritten => alone(choices, Way::Written),
        Rule::ReadUnwritten => alone(choices, Way::Unwritten),
        _ => None,
    }
}

fn test_way(rule: Rule, choices: &[u32]) -> Option<Way>
    ensures { (atoms : List AtomOf) (to : ℕ) (how : Comparison) (a b : Operand) (site : SiteOf) → result ≡ spec.command_way atoms (tree.test to how a b site) rule choices.now }
{
    match rule {
        Rule::TestTrue => alone(choices, Way::Then),
        Rule::TestFalse => alone(choices, Way::Else),
        _ => None,
    }
}

fn leave_way(rule: Rule, choices: &[u32]) -> Option<Way>
    ensures { (atoms : List AtomOf) → result ≡ spec.command_way atoms tree.leave rule choices.now }
{
    match rule {
        Rule::LeaveLoop => alone(choices, Way::On),
        _ => None,
    }
}

fn malloc_way(rule: Rule, choices: &[u32]) -> Option<Way>
    ensures { (atoms : List AtomOf) (to : ℕ) (block : TypeId) (site : SiteOf) → result ≡ spec.command_way atoms (tree.malloc to block site) rule choices.now }
{
    match rule {
        Rule::Alloc => alone(choices, Way::Made),
        Rule::AllocNull => alone(choices, Way::Null),
        _ => None,
    }
}

fn input_way(rule: Rule, choices: &[u32]) -> Option<Way>
    ensures { (atoms : List AtomOf) (to : ℕ) (site : SiteOf) → result ≡ spec.command_way atoms (tree.input to site) rule choices.now }
{
    match rule {
        Rule::Input => alone(choices, Way::On),
        _ => None,
    }
}

fn divide_way(rule: Rule, choices: &[u32]) -> Option<Way>
    ensures { (atoms : List AtomOf) (to : ℕ) (a b : Operand) (site : SiteOf) → result ≡ spec.command_way atoms (tree.divide to a b site) rule choices.now }
{
    match rule {
        Rule::Divide => alone(choices, Way::Divided),
        Rule::DivideZero => alone(choices, Way::ByZero),
        _ => None,
    }
}

// The way of a command that a step takes, where the rule is the command's.
#[tactic(auto, using(px_core::proofs::CommandEquations::trees))]
fn command_way(atoms: &[Atom], command: &Command, rule: Rule, choices: &[u32]) -> Option<Way>
    ensures { result ≡ spec.command_way atoms.now (command_tree command.now) rule choices.now }
{
    match command {
        Command::Assign { .. } => assign_way(rule, choices),
        Command::Unset { .. } => assign_way(rule, choices),
        Command::If { .. } => assign_way(rule, choices),
        Command::Break => assign_way(rule, choices),
        Command::Continue => assign_way(rule, choices),
        Command::Read { .. } => read_way(rule, choices),
        Command::Test { .. } => test_way(rule, choices),
        Command::Leave => leave_way(rule, choices),
        Command::Load { .. } => access_way(Rule::Load, atoms, rule, choices),
        Command::Store { .. } => access_way(Rule::Store, atoms, rule, choices),
        Command::Malloc { .. } => malloc_way(rule, choices),
        Command::Free { .. } => free_way(atoms, rule, choices),
        Command::Input { .. } => input_way(rule, choices),
        Command::Divide { .. } => divide_way(rule, choices),
        Command::Loop { .. }
        | Command::Call { .. }
        | Command::Return { .. }
        | Command::Stop { .. } => None,
    }
}

/// The way that a step names of what comes next, if its rule is one there.
pub(crate) fn named_way(atoms: &[Atom], next: Upcoming, rule: Rule, choices: &[u32]) -> Option<Way>
    ensures { (rest : List Item) → result ≡ named_way atoms.now (items_from next.entry rest) rule choices.now }
{
    match next {
        Upcoming::Command(command) => command_way(atoms, command, rule, choices),
        Upcoming::End(part, _) => end_way(part, rule, choices),
        Upcoming::Nothing => None,
    }
}

// Of the end of a loop's head.
fn unroll_way(rule: Rule, choices: &[u32]) -> Option<Way>
    ensures { (atoms : List AtomOf) (l : Turns) (k : List Item) → result ≡ named_way atoms (AfterHead l ∷ k) rule choices.now }
{
    match rule {
        Rule::Unroll => alone(choices, Way::On),
        _ => None,
    }
}

// Of the end of a part of a loop.
fn end_way(part: Part, rule: Rule, choices: &[u32]) -> Option<Way>
    ensures { (atoms : List AtomOf) (l : Turns) (k : List Item) → result ≡ named_way atoms (end_of part l ∷ k) rule choices.now }
{
    match part {
        Part::Head => unroll_way(rule, choices),
        Part::Body | Part::Step => None,
    }
}
