ghost use Rattle.std.specs.Prelude.{◌≡◌, ◌++◌, ◌∷◌, [], suc, map, IfOk, OnOk};
ghost use Rattle.px_core.specs.CommandTree.{command_tree};
ghost use Rattle.px_core.specs.declared.command.Operand.TheVariants as operand;
ghost use Rattle.px_lower.specs.declared.put.Halt.TheVariants as halt;
ghost use Rattle.px_lower.specs.Chains.{Ends};

use px_core::{Command, Operand};
use px_terms::NoMemory;
use std::alloc::{AllocError, AllocFailed};

/// What an expression gave: the operand that is its value, and the next new slot.
#[derive(Clone, Copy)]
pub struct Given {
    pub operand: Operand,
    pub next: u32,
}

/// What a condition gave: the slot that is 1 or 0, and the next new slot.
#[derive(Clone, Copy)]
pub struct Decided {
    pub slot: u32,
    pub next: u32,
}

/// Why nothing is put behind what was put.
#[derive(Clone, Copy)]
pub enum Halt {
    /// The last command is a `Stop`; the next new slot.
    Stopped { next: u32 },
    NoMemory,
}

impl From<NoMemory> for Halt {
    ghost from_gives = { λ _ e. e ≡ halt.NoMemory };

    fn from(_: NoMemory) -> Halt {
        Halt::NoMemory
    }
}

impl From<AllocError> for Halt {
    ghost from_gives = { λ _ e. e ≡ halt.NoMemory };

    fn from(_: AllocError) -> Halt {
        Halt::NoMemory
    }
}

impl<T: Drop> From<AllocFailed<T>> for Halt {
    ghost from_gives = { λ _ e. e ≡ halt.NoMemory };

    fn from(_: AllocFailed<T>) -> Halt {
        Halt::NoMemory
    }
}

/// The next new slot behind commands that have a list of their own, whatever the last of them is.
pub fn behind_list(given: Result<u32, Halt>) -> Result<u32, NoMemory>
    ensures { IfOk result (λ next. Ends given next) }
{
    match given {
        Ok(next) | Err(Halt::Stopped { next }) => Ok(next),
        Err(Halt::NoMemory) => Err(NoMemory),
    }
}

impl Given {
    /// An operand, with this slot as the next new one.
    pub fn new(operand: Operand, next: u32) -> Given
        ensures operand { result.operand ≡ operand }
        ensures next { result.next ≡ next }
    {
        Given { operand, next }
    }
}

impl Decided {
    /// The outcome as a value.
    pub fn as_given(self) -> Given
        ensures operand { result.operand ≡ operand.Slot self.slot }
        ensures next { result.next ≡ self.next }
    {
        Given::new(Operand::Slot(self.slot), self.next)
    }
}

// The slot after this one. No list of commands that fits in memory has so many.
pub fn slot_after(slot: u32) -> Result<u32, NoMemory>
    ensures { IfOk result (λ next. next ≡ suc slot) }
{
    slot.checked_add(1).ok_or(NoMemory)
}

// One more command.
pub fn put(out: &mut Vec<Command>, command: Command) -> Result<(), NoMemory>
    ensures { OnOk result (map command_tree out.new.items ≡ map command_tree out.old.items ++ command_tree command ∷ []) }
{
    out.push(command)?;
    Ok(())
}

// One more command, which gives a value in this new slot.
pub fn give(out: &mut Vec<Command>, command: Command, to: u32) -> Result<Given, NoMemory>
    ensures commands { OnOk result (map command_tree out.new.items ≡ map command_tree out.old.items ++ command_tree command ∷ []) }
    ensures operand { IfOk result (λ x. x.operand ≡ operand.Slot to) }
    ensures next { IfOk result (λ x. x.next ≡ suc to) }
{
    put(out, command)?;
    Ok(Given {
        operand: Operand::Slot(to),
        next: slot_after(to)?,
    })
}

// One more command, which decides a condition in this new slot.
pub fn decide(out: &mut Vec<Command>, command: Command, to: u32) -> Result<Decided, NoMemory>
    ensures commands { OnOk result (map command_tree out.new.items ≡ map command_tree out.old.items ++ command_tree command ∷ []) }
    ensures slot { IfOk result (λ x. x.slot ≡ to) }
    ensures next { IfOk result (λ x. x.next ≡ suc to) }
{
    put(out, command)?;
    Ok(Decided {
        slot: to,
        next: slot_after(to)?,
    })
}
