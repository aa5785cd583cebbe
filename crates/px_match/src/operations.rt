ghost use Rattle.std.specs.Prelude.{◌≡◌, Some, IfOk};
ghost use Rattle.px_terms.specs.Polynomials.{Polynomial};
ghost use Rattle.px_terms.specs.declared.conjuncts.Content.TheVariants as content;
ghost use Rattle.px_core.specs.declared.command.Operator.TheVariants as operator;
ghost use Rattle.px_callgraph.specs.Operations as spec;
ghost use Rattle.px_callgraph.specs.States.{content_at};
ghost use Rattle.px_match.specs.Operated.{IsKept, IsOperated, operand_in};

use crate::results::{difference, product, sum};
use px_core::{Operand, Operator};
use px_terms::{Content, NoMemory, Place, Poly};
use std::alloc::Global;

/// What an operator makes of two contents.
#[derive(Drop)]
pub enum Operated {
    /// The contents aren't of the operator's kind.
    Unfit,
    Made(Content),
    /// A polynomial that the operator makes is too long to be kept.
    TooLong,
}

// The content of a slot.
fn content_at(slots: &[Content], slot: u32) -> Result<Content, NoMemory>
    ensures { IfOk result (λ c. c ≡ content_at slots.now slot) }
{
    match slots.get(slot as usize) {
        Some(content) => content.copy(),
        None => Ok(Content::Unwritten),
    }
}

/// The content that an operand has where these are the slots: nothing was written beyond the last.
pub fn operand_content(
    alloc: Global,
    slots: &[Content],
    operand: &Operand,
) -> Result<Content, NoMemory>
    ensures { IfOk result (λ c. c ≡ operand_in slots.now operand.now) }
{
    match operand {
        Operand::Slot(slot) => content_at(slots, *slot),
        Operand::Word(z) => Ok(Content::Word(Poly::word(alloc, *z)?)),
        Operand::Null => Ok(Content::Place(Place::Null)),
    }
}

// A polynomial as a content, unless it is too long.
fn as_word(term: Option<Poly>) -> Operated
    ensures { (p : Polynomial) → IsKept term p → IsOperated result (Some (content.Word p)) spec.word_terms }
{
    match term {
        Some(p) => Operated::Made(Content::Word(p)),
        None => Operated::TooLong,
    }
}

fn negated(alloc: Global, a: &Content) -> Result<Operated, NoMemory>
    ensures { IfOk result (λ r. IsOperated r (spec.operation operator.Neg a.now a.now) spec.word_terms) }
{
    match a {
        Content::Word(p) => Ok(as_word(difference(&Poly::word(alloc, 0)?, p)?)),
        _ => Ok(Operated::Unfit),
    }
}

fn added(a: &Content, b: &Content) -> Result<Operated, NoMemory>
    ensures { IfOk result (λ r. IsOperated r (spec.operation operator.Add a.now b.now) spec.word_terms) }
{
    match (a, b) {
        (Content::Word(p), Content::Word(q)) => Ok(as_word(sum(p, q)?)),
        _ => Ok(Operated::Unfit),
    }
}

fn subtracted(a: &Content, b: &Content) -> Result<Operated, NoMemory>
    ensures { IfOk result (λ r. IsOperated r (spec.operation operator.Sub a.now b.now) spec.word_terms) }
{
    match (a, b) {
        (Content::Word(p), Content::Word(q)) => Ok(as_word(difference(p, q)?)),
        _ => Ok(Operated::Unfit),
    }
}

fn multiplied(a: &Content, b: &Content) -> Result<Operated, NoMemory>
    ensures { IfOk result (λ r. IsOperated r (spec.operation operator.Mul a.now b.now) spec.word_terms) }
{
    match (a, b) {
        (Content::Word(p), Content::Word(q)) => Ok(as_word(product(p, q)?)),
        _ => Ok(Operated::Unfit),
    }
}

/// What an operator makes of two contents. Copy and Neg don't look at the second.
pub fn operation(
    alloc: Global,
    op: Operator,
    a: &Content,
    b: &Content,
) -> Result<Operated, NoMemory>
    ensures { IfOk result (λ r. IsOperated r (spec.operation op a.now b.now) (spec.made_terms op)) }
{
    match op {
        Operator::Copy => Ok(Operated::Made(a.copy()?)),
        Operator::Neg => negated(alloc, a),
        Operator::Add => added(a, b),
        Operator::Sub => subtracted(a, b),
        Operator::Mul => multiplied(a, b),
    }
}
