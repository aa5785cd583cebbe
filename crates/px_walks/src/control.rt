ghost use Rattle.std.specs.Prelude.{◌≡◌, ◌∷◌, List, IfOk, OnOk};
ghost use Rattle.px_core.specs.Control.{Item, acts};
ghost use Rattle.px_core.specs.WellFormedItems.{where_in};
ghost use Rattle.px_walks.specs.Items.{trees, turns_of, part_of, end_of, items_of};
ghost use Rattle.px_walks.specs.Nexts.{IsNext, place_of, with_part, JumpsAs};

use crate::{OpenLoop, Part, Piece};
use px_core::Command;
use px_terms::NoMemory;

/// What comes next of what is still to be done.
#[derive(Clone, Copy)]
pub enum Upcoming<'a> {
    /// The end of the body.
    Nothing,
    Command(&'a Command),
    /// The end of a part of a loop.
    End(Part, OpenLoop<'a>),
}

// Puts commands before all else.
pub(crate) fn put_commands<'a>(
    control: &mut Vec<Piece<'a>>,
    commands: &'a [Command],
) -> Result<(), NoMemory>
    ensures { OnOk result (items_of control.new.items ≡ acts (trees commands.now) (items_of control.old.items)) }
{
    if commands.is_empty() {
        return Ok(());
    }
    control.push(Piece::Commands(commands))?;
    Ok(())
}

// What comes next.
pub(crate) fn next<'a>(control: &[Piece<'a>]) -> Upcoming<'a>
    ensures { (rest : List Item) × IsNext result (items_of control.now) rest }
{
    let mut n = control.len();
    while n > 0 {
        n -= 1;
        match control[n] {
            Piece::End(part, turns) => return Upcoming::End(part, turns),
            Piece::Commands(commands) => {
                if let Some((first, _)) = commands.split_first() {
                    return Upcoming::Command(first);
                }
            }
        }
    }
    Upcoming::Nothing
}

// Takes off what comes next.
pub(crate) fn take_next<'a>(control: &mut Vec<Piece<'a>>) -> Result<Upcoming<'a>, NoMemory>
    ensures { IfOk result (λ next. IsNext next (items_of control.old.items) (items_of control.new.items)) }
{
    while let Some(piece) = control.pop() {
        match piece {
            Piece::End(part, turns) => return Ok(Upcoming::End(part, turns)),
            Piece::Commands(commands) => {
                if let Some((first, rest)) = commands.split_first() {
                    put_commands(control, rest)?;
                    return Ok(Upcoming::Command(first));
                }
            }
        }
    }
    Ok(Upcoming::Nothing)
}

// Puts a part of a loop before all else, and what follows its end.
pub(crate) fn put_part<'a>(
    control: &mut Vec<Piece<'a>>,
    part: Part,
    turns: OpenLoop<'a>,
) -> Result<(), NoMemory>
    ensures { OnOk result (items_of control.new.items ≡ acts (part_of part (turns_of turns.entry)) (end_of part (turns_of turns.entry) ∷ items_of control.old.items)) }
{
    control.push(Piece::End(part, turns))?;
    let commands = match part {
        Part::Head => turns.head,
        Part::Body => turns.body,
        Part::Step => turns.step,
    };
    put_commands(control, commands)
}

// The part of the innermost loop that is being done.
pub(crate) fn innermost<'a>(control: &[Piece<'a>]) -> Option<Part>
    ensures { place_of result ≡ where_in (items_of control.now) }
{
    let mut n = control.len();
    while n > 0 {
        n -= 1;
        if let Piece::End(part, _) = control[n] {
            return Some(part);
        }
    }
    None
}

// Takes off the part of the innermost loop that is being done.
pub(crate) fn take_part<'a>(control: &mut Vec<Piece<'a>>) -> Option<(Part, OpenLoop<'a>)>
    ensures { JumpsAs (items_of control.old.items) (with_part result (items_of control.new.items)) }
{
    while let Some(piece) = control.pop() {
        if let Piece::End(part, turns) = piece {
            return Some((part, turns));
        }
    }
    None
}
