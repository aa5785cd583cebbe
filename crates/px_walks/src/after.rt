ghost use Rattle.std.specs.Prelude.{◌≡◌, ◌∷◌, [], List, cond, option_map, IfOk};
ghost use Rattle.px_core.specs.CommandTree.{command_tree};
ghost use Rattle.px_core.specs.Control.{Item, Act, acts, leave_to, break_to, continue_to};
ghost use Rattle.px_core.specs.WellFormedItems.{where_in};
ghost use Rattle.px_callgraph.specs.declared.states.State.{State as StateOf};
ghost use Rattle.px_callgraph.specs.JobTree.{JobTree};
ghost use Rattle.px_callgraph.specs.States.{content_at};
ghost use Rattle.px_callgraph.specs.Commands.{command_ways, outcome_of};
ghost use Rattle.px_callgraph.specs.Alternatives.{items_after, chosen, item_ways};
ghost use Rattle.px_walks.specs.Items.{trees, items_of};
ghost use Rattle.px_walks.specs.Nexts.{place_of, leaves_at, breaks_at, continues_at, IsAfter};

use crate::control::{innermost, put_commands, put_part, take_part};
use crate::{OpenLoop, Part, Piece};
use px_callgraph::State;
use px_core::Command;
use px_terms::{Content, NoMemory};

// The outcome that a content is, where it is the word 1 or 0.
fn outcome(content: &Content) -> Option<bool>
    ensures { result ≡ outcome_of content.now }
{
    let Content::Word(word) = content else {
        return None;
    };
    if !word.monomials().is_empty() {
        return None;
    }
    match word.constant() {
        0 => Some(false),
        1 => Some(true),
        _ => None,
    }
}

// The outcome that stands in a slot.
fn outcome_at(slots: &[Content], slot: u32) -> Option<bool>
    ensures { result ≡ outcome_of (content_at slots.now slot) }
{
    outcome(slots.get(slot as usize)?)
}

// Whether `Leave` has a loop to end.
fn may_leave(part: Option<Part>) -> bool
    ensures { result ≡ leaves_at (place_of part) }
{
    match part {
        Some(Part::Head) => true,
        None | Some(Part::Body) | Some(Part::Step) => false,
    }
}

// Whether `Break` has a loop to end.
fn may_break(part: Option<Part>) -> bool
    ensures { result ≡ breaks_at (place_of part) }
{
    match part {
        Some(Part::Body) | Some(Part::Step) => true,
        None | Some(Part::Head) => false,
    }
}

// Whether `Continue` has a body to end.
fn may_continue(part: Option<Part>) -> bool
    ensures { result ≡ continues_at (place_of part) }
{
    match part {
        Some(Part::Body) => true,
        None | Some(Part::Head) | Some(Part::Step) => false,
    }
}

// Whether a command lists its ways. Nothing is listed where Leave, Break or Continue stand in no such loop.
#[tactic(auto, using(px_core::proofs::CommandEquations::trees))]
pub(crate) fn is_in_place<'a>(command: &Command, control: &[Piece<'a>]) -> bool
    ensures { (j : JobTree) (s : StateOf) (k : List Item) → where_in k ≡ where_in (items_of control.now) → item_ways j s (Act (command_tree command.now) ∷ k) ≡ cond result (command_ways j s (command_tree command.now)) [] }
{
    match command {
        Command::Leave => may_leave(innermost(control)),
        Command::Break => may_break(innermost(control)),
        Command::Continue => may_continue(innermost(control)),
        _ => true,
    }
}

// Puts the commands of an outcome before all else. False where there is no outcome.
fn put_chosen<'a>(
    control: &mut Vec<Piece<'a>>,
    outcome: Option<bool>,
    then: &'a [Command],
    other: &'a [Command],
) -> Result<bool, NoMemory>
    ensures { IfOk result (λ yes. IsAfter yes (option_map (λ b. acts (chosen b (trees then.entry.now) (trees other.entry.now)) (items_of control.old.items)) outcome) (items_of control.new.items)) }
{
    match outcome {
        None => return Ok(false),
        Some(true) => put_commands(control, then)?,
        Some(false) => put_commands(control, other)?,
    }
    Ok(true)
}

// Ends the innermost loop, from its head. False where there is none.
fn leave<'a>(control: &mut Vec<Piece<'a>>) -> bool
    ensures { IsAfter result (option_map (λ place. place.1) (leave_to (items_of control.old.items))) (items_of control.new.items) }
{
    match take_part(control) {
        Some((Part::Head, _)) => true,
        None | Some((Part::Body, _)) | Some((Part::Step, _)) => false,
    }
}

// Ends the innermost loop, from its body or step. False where there is none.
fn break_off<'a>(control: &mut Vec<Piece<'a>>) -> bool
    ensures { IsAfter result (break_to (items_of control.old.items)) (items_of control.new.items) }
{
    match take_part(control) {
        Some((Part::Body, _)) | Some((Part::Step, _)) => true,
        None | Some((Part::Head, _)) => false,
    }
}

// Goes to the end of the innermost loop's body. False where there is none.
fn end_body<'a>(control: &mut Vec<Piece<'a>>) -> Result<bool, NoMemory>
    ensures { IfOk result (λ yes. IsAfter yes (continue_to (items_of control.old.items)) (items_of control.new.items)) }
{
    match take_part(control) {
        Some((Part::Body, turns)) => {
            control.push(Piece::End(Part::Body, turns))?;
            Ok(true)
        }
        None | Some((Part::Head, _)) | Some((Part::Step, _)) => Ok(false),
    }
}

// Goes to what is to be done after a command. False where nothing is.
#[tactic(auto, using(px_core::proofs::CommandEquations::trees))]
pub(crate) fn go_after<'a>(
    state: &State,
    command: &'a Command,
    control: &mut Vec<Piece<'a>>,
) -> Result<bool, NoMemory>
    ensures { IfOk result (λ yes. IsAfter yes (items_after state.now (command_tree command.entry.now) (items_of control.old.items)) (items_of control.new.items)) }
{
    match command {
        Command::If { slot, then, other } => {
            let outcome = outcome_at(state.slots.as_slice(), *slot);
            put_chosen(control, outcome, then, other)
        }
        Command::Loop {
            site,
            head,
            body,
            step,
        } => {
            let turns = OpenLoop {
                site: *site,
                head,
                body,
                step,
                made: 0,
            };
            put_part(control, Part::Head, turns)?;
            Ok(true)
        }
        Command::Leave => Ok(leave(control)),
        Command::Break => Ok(break_off(control)),
        Command::Continue => end_body(control),
        _ => Ok(true),
    }
}
