ghost use Rattle.std.specs.Prelude.{◌≡◌, ◌++◌, ◌∷◌, [], suc, pos, map, IfOk, OnOk, Some, None};
ghost use Rattle.px_core.specs.CommandTree.{command_tree, assign, unset, call, divide, input, load, malloc, read};
ghost use Rattle.px_core.specs.declared.command.Operand.TheVariants as operand;
ghost use Rattle.px_core.specs.declared.command.Operator.TheVariants as core_operator;
ghost use Rattle.px_lower.specs.Lowering.{comparison, copy, operation, result_slot};

use crate::put::{Decided, Given, decide, give, put};
use px_base::{ProcId, Site};
use px_core::{Command, Comparison, Operand, Operator};
use px_syntax::{Arithmetic, CellLink, Relation};
use px_terms::{NoMemory, TypeId};

// The commands of a node of a tree, after those of its operands.

/// What arguments gave: their operands, and the next new slot.
#[derive(Drop)]
pub struct Operands {
    pub operands: Vec<Operand>,
    pub next: u32,
}

/// A copy of an operand.
#[tactic(auto, using(px_core::proofs::CommandEquations::trees))]
pub fn copy_of(to: u32, a: Operand) -> Command
    ensures { command_tree result ≡ copy to a }
{
    Command::Assign {
        to,
        op: Operator::Copy,
        a,
        b: Operand::Word(0),
    }
}

/// The value of a local, which is read.
#[tactic(auto, using(px_core::proofs::CommandEquations::trees))]
pub fn local_value(
    local: u32,
    site: Site,
    next: u32,
    out: &mut Vec<Command>,
) -> Result<Given, NoMemory>
    ensures commands { OnOk result (map command_tree out.new.items ≡ map command_tree out.old.items ++ read local site ∷ []) }
    ensures operand { IfOk result (λ x. x.operand ≡ operand.Slot local) }
    ensures next { IfOk result (λ x. x.next ≡ next) }
{
    put(out, Command::Read { slot: local, site })?;
    Ok(Given::new(Operand::Slot(local), next))
}

/// Minus an operand.
#[tactic(auto, using(px_core::proofs::CommandEquations::trees))]
pub fn negate(x: Given, out: &mut Vec<Command>) -> Result<Given, NoMemory>
    ensures commands { OnOk result (map command_tree out.new.items ≡ map command_tree out.old.items ++ assign x.next core_operator.Neg x.operand (operand.Word (pos 0)) ∷ []) }
    ensures operand { IfOk result (λ y. y.operand ≡ operand.Slot x.next) }
    ensures next { IfOk result (λ y. y.next ≡ suc x.next) }
{
    let command = Command::Assign {
        to: x.next,
        op: Operator::Neg,
        a: x.operand,
        b: Operand::Word(0),
    };
    give(out, command, x.next)
}

// The core's operator, after its two operands.
#[tactic(auto, using(px_core::proofs::CommandEquations::trees))]
fn assigned(
    op: Operator,
    left: Operand,
    right: Given,
    out: &mut Vec<Command>,
) -> Result<Given, NoMemory>
    ensures commands { OnOk result (map command_tree out.new.items ≡ map command_tree out.old.items ++ assign right.next op left right.operand ∷ []) }
    ensures operand { IfOk result (λ x. x.operand ≡ operand.Slot right.next) }
    ensures next { IfOk result (λ x. x.next ≡ suc right.next) }
{
    let command = Command::Assign {
        to: right.next,
        op,
        a: left,
        b: right.operand,
    };
    give(out, command, right.next)
}

// The quotient of two operands.
#[tactic(auto, using(px_core::proofs::CommandEquations::trees))]
fn divided(
    left: Operand,
    right: Given,
    site: Site,
    out: &mut Vec<Command>,
) -> Result<Given, NoMemory>
    ensures commands { OnOk result (map command_tree out.new.items ≡ map command_tree out.old.items ++ divide right.next left right.operand site ∷ []) }
    ensures operand { IfOk result (λ x. x.operand ≡ operand.Slot right.next) }
    ensures next { IfOk result (λ x. x.next ≡ suc right.next) }
{
    let command = Command::Divide {
        to: right.next,
        a: left,
        b: right.operand,
        site,
    };
    give(out, command, right.next)
}

// The remainder of two operands: the first less the quotient times the second.
fn remainder(
    left: Operand,
    right: Given,
    site: Site,
    out: &mut Vec<Command>,
) -> Result<Given, NoMemory>
    ensures commands { OnOk result (map command_tree out.new.items ≡ map command_tree out.old.items ++ divide right.next left right.operand site ∷ assign (suc right.next) core_operator.Mul (operand.Slot right.next) right.operand ∷ assign (suc (suc right.next)) core_operator.Sub left (operand.Slot (suc right.next)) ∷ []) }
    ensures operand { IfOk result (λ x. x.operand ≡ operand.Slot (suc (suc right.next))) }
    ensures next { IfOk result (λ x. x.next ≡ suc (suc (suc right.next))) }
{
    let quotient = divided(left, right, site, out)?;
    let divisor = Given::new(right.operand, quotient.next);
    let product = assigned(Operator::Mul, quotient.operand, divisor, out)?;
    assigned(Operator::Sub, left, product, out)
}

/// An operator, after its two operands.
pub fn calculate(
    op: Arithmetic,
    left: Operand,
    right: Given,
    out: &mut Vec<Command>,
) -> Result<Given, NoMemory>
    ensures commands { OnOk result (map command_tree out.new.items ≡ map command_tree out.old.items ++ operation op left right.operand right.next) }
    ensures operand { IfOk result (λ x. x.operand ≡ operand.Slot (result_slot op right.next)) }
    ensures next { IfOk result (λ x. x.next ≡ suc (result_slot op right.next)) }
{
    match op {
        Arithmetic::Add => assigned(Operator::Add, left, right, out),
        Arithmetic::Subtract => assigned(Operator::Sub, left, right, out),
        Arithmetic::Multiply => assigned(Operator::Mul, left, right, out),
        Arithmetic::Divide { site } => divided(left, right, site, out),
        Arithmetic::Remainder { site } => remainder(left, right, site, out),
    }
}

/// A cell that a pointer names, which is read.
#[tactic(auto, using(px_core::proofs::CommandEquations::trees))]
pub fn cell_value(at: Given, cell: CellLink, out: &mut Vec<Command>) -> Result<Given, NoMemory>
    ensures commands { OnOk result (map command_tree out.new.items ≡ map command_tree out.old.items ++ load at.next at.operand cell.field cell.block cell.site ∷ read at.next cell.site ∷ []) }
    ensures operand { IfOk result (λ x. x.operand ≡ operand.Slot at.next) }
    ensures next { IfOk result (λ x. x.next ≡ suc at.next) }
{
    let CellLink { field, block, site } = cell;
    let slot = at.next;
    let command = Command::Load {
        to: slot,
        at: at.operand,
        field,
        block,
        site,
    };
    let given = give(out, command, slot)?;
    put(out, Command::Read { slot, site })?;
    Ok(given)
}

/// A cell that a pointer names, which is loaded and not read.
#[tactic(auto, using(px_core::proofs::CommandEquations::trees))]
pub fn cell_reached(at: Given, cell: CellLink, out: &mut Vec<Command>) -> Result<u32, NoMemory>
    ensures commands { OnOk result (map command_tree out.new.items ≡ map command_tree out.old.items ++ load at.next at.operand cell.field cell.block cell.site ∷ unset at.next ∷ []) }
    ensures next { IfOk result (λ n. n ≡ suc at.next) }
{
    let CellLink { field, block, site } = cell;
    let slot = at.next;
    let command = Command::Load {
        to: slot,
        at: at.operand,
        field,
        block,
        site,
    };
    let given = give(out, command, slot)?;
    put(out, Command::Unset { to: slot })?;
    Ok(given.next)
}

/// A new block.
#[tactic(auto, using(px_core::proofs::CommandEquations::trees))]
pub fn allocate(
    block: TypeId,
    site: Site,
    to: u32,
    out: &mut Vec<Command>,
) -> Result<Given, NoMemory>
    ensures commands { OnOk result (map command_tree out.new.items ≡ map command_tree out.old.items ++ malloc to block site ∷ []) }
    ensures operand { IfOk result (λ x. x.operand ≡ operand.Slot to) }
    ensures next { IfOk result (λ x. x.next ≡ suc to) }
{
    give(out, Command::Malloc { to, block, site }, to)
}

/// The next character of the input.
#[tactic(auto, using(px_core::proofs::CommandEquations::trees))]
pub fn get_char(site: Site, to: u32, out: &mut Vec<Command>) -> Result<Given, NoMemory>
    ensures commands { OnOk result (map command_tree out.new.items ≡ map command_tree out.old.items ++ input to site ∷ []) }
    ensures operand { IfOk result (λ x. x.operand ≡ operand.Slot to) }
    ensures next { IfOk result (λ x. x.next ≡ suc to) }
{
    give(out, Command::Input { to, site }, to)
}

/// A call whose value is used, and read.
#[tactic(auto, using(px_core::proofs::CommandEquations::trees))]
pub fn used_call(
    proc: ProcId,
    arguments: Operands,
    site: Site,
    out: &mut Vec<Command>,
) -> Result<Given, NoMemory>
    ensures commands { OnOk result (map command_tree out.new.items ≡ map command_tree out.old.items ++ call (Some arguments.next) proc arguments.operands.items site ∷ read arguments.next site ∷ []) }
    ensures operand { IfOk result (λ x. x.operand ≡ operand.Slot arguments.next) }
    ensures next { IfOk result (λ x. x.next ≡ suc arguments.next) }
{
    let to = arguments.next;
    let command = Command::Call {
        to: Some(to),
        proc,
        arguments: arguments.operands,
        site,
    };
    let given = give(out, command, to)?;
    put(out, Command::Read { slot: to, site })?;
    Ok(given)
}

/// A call whose value isn't used.
#[tactic(auto, using(px_core::proofs::CommandEquations::trees))]
pub fn unused_call(
    proc: ProcId,
    arguments: Operands,
    site: Site,
    out: &mut Vec<Command>,
) -> Result<u32, NoMemory>
    ensures commands { OnOk result (map command_tree out.new.items ≡ map command_tree out.old.items ++ call None proc arguments.operands.items site ∷ []) }
    ensures next { IfOk result (λ n. n ≡ arguments.next) }
{
    let next = arguments.next;
    let command = Command::Call {
        to: None,
        proc,
        arguments: arguments.operands,
        site,
    };
    put(out, command)?;
    Ok(next)
}

#[tactic(auto, using(px_core::proofs::CommandEquations::trees))]
fn test_of(relation: Relation, to: u32, a: Operand, b: Operand, site: Site) -> Command
    ensures { command_tree result ≡ comparison relation to a b site }
{
    let (how, a, b) = match relation {
        Relation::Equal => (Comparison::Equal, a, b),
        Relation::Unequal => (Comparison::Unequal, a, b),
        Relation::Less => (Comparison::Less, a, b),
        Relation::Greater => (Comparison::Less, b, a),
        Relation::AtMost => (Comparison::AtMost, a, b),
        Relation::AtLeast => (Comparison::AtMost, b, a),
        Relation::SamePlace => (Comparison::SamePlace, a, b),
        Relation::OtherPlace => (Comparison::OtherPlace, a, b),
    };
    Command::Test {
        to,
        how,
        a,
        b,
        site,
    }
}

/// A comparison, after its two operands.
pub fn compare(
    relation: Relation,
    left: Operand,
    right: Given,
    site: Site,
    out: &mut Vec<Command>,
) -> Result<Decided, NoMemory>
    ensures commands { OnOk result (map command_tree out.new.items ≡ map command_tree out.old.items ++ comparison relation right.next left right.operand site ∷ []) }
    ensures slot { IfOk result (λ x. x.slot ≡ right.next) }
    ensures next { IfOk result (λ x. x.next ≡ suc right.next) }
{
    let command = test_of(relation, right.next, left, right.operand, site);
    decide(out, command, right.next)
}

/// 1 less an outcome.
#[tactic(auto, using(px_core::proofs::CommandEquations::trees))]
pub fn opposite(x: Decided, out: &mut Vec<Command>) -> Result<Decided, NoMemory>
    ensures commands { OnOk result (map command_tree out.new.items ≡ map command_tree out.old.items ++ assign x.next core_operator.Sub (operand.Word (pos 1)) (operand.Slot x.slot) ∷ []) }
    ensures slot { IfOk result (λ y. y.slot ≡ x.next) }
    ensures next { IfOk result (λ y. y.next ≡ suc x.next) }
{
    let command = Command::Assign {
        to: x.next,
        op: Operator::Sub,
        a: Operand::Word(1),
        b: Operand::Slot(x.slot),
    };
    decide(out, command, x.next)
}
