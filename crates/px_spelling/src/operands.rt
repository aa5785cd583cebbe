ghost use Rattle.px_spelling.specs.Operands.{operand_bytes, IsOperand, operand_at, operator_bytes, IsOperator, operator_at, comparison_bytes, IsComparison, comparison_at};

use crate::{Output, Wire, WireFault};
use px_core::{Comparison, Operand, Operator};
use std::alloc::Global;

impl Wire for Operand {
    ghost bytes_of = { operand_bytes };

    ghost fits = { IsOperand };

    ghost at = { operand_at };

    fn write<O: Output>(&self, out: &mut O, target: &mut O::Target) {
        match self {
            Operand::Slot(slot) => {
                0u8.write(out, target);
                slot.write(out, target)
            }
            Operand::Word(word) => {
                1u8.write(out, target);
                word.write(out, target)
            }
            Operand::Null => 2u8.write(out, target),
        }
    }

    #[tactic(auto, unfolding(crate::specs::Operands::operand_at, crate::specs::Operands::operand_with))]
    fn read(alloc: Global, bytes: &[u8]) -> Result<(Operand, &[u8]), WireFault> {
        let (tag, rest) = u8::read(alloc, bytes)?;
        match tag {
            0 => {
                let (slot, rest) = u32::read(alloc, rest)?;
                Ok((Operand::Slot(slot), rest))
            }
            1 => {
                let (word, rest) = i32::read(alloc, rest)?;
                Ok((Operand::Word(word), rest))
            }
            2 => Ok((Operand::Null, rest)),
            _ => Err(WireFault::NotAMessage),
        }
    }

    fn is_in_range(&self) -> bool {
        match self {
            Operand::Slot(slot) => slot.is_in_range(),
            Operand::Word(word) => word.is_in_range(),
            Operand::Null => true,
        }
    }
}

impl Wire for Operator {
    ghost bytes_of = { operator_bytes };

    ghost fits = { IsOperator };

    ghost at = { operator_at };

    fn write<O: Output>(&self, out: &mut O, target: &mut O::Target) {
        let number: u8 = match self {
            Operator::Copy => 0,
            Operator::Neg => 1,
            Operator::Add => 2,
            Operator::Sub => 3,
            Operator::Mul => 4,
        };
        number.write(out, target)
    }

    #[tactic(auto, unfolding(crate::specs::Operands::operator_at, crate::specs::Operands::operator_with))]
    fn read(alloc: Global, bytes: &[u8]) -> Result<(Operator, &[u8]), WireFault> {
        let (tag, rest) = u8::read(alloc, bytes)?;
        let operator = match tag {
            0 => Operator::Copy,
            1 => Operator::Neg,
            2 => Operator::Add,
            3 => Operator::Sub,
            4 => Operator::Mul,
            _ => return Err(WireFault::NotAMessage),
        };
        Ok((operator, rest))
    }

    fn is_in_range(&self) -> bool {
        true
    }
}

impl Wire for Comparison {
    ghost bytes_of = { comparison_bytes };

    ghost fits = { IsComparison };

    ghost at = { comparison_at };

    fn write<O: Output>(&self, out: &mut O, target: &mut O::Target) {
        let number: u8 = match self {
            Comparison::Equal => 0,
            Comparison::Unequal => 1,
            Comparison::Less => 2,
            Comparison::AtMost => 3,
            Comparison::SamePlace => 4,
            Comparison::OtherPlace => 5,
        };
        number.write(out, target)
    }

    #[tactic(auto, unfolding(crate::specs::Operands::comparison_at, crate::specs::Operands::comparison_with))]
    fn read(alloc: Global, bytes: &[u8]) -> Result<(Comparison, &[u8]), WireFault> {
        let (tag, rest) = u8::read(alloc, bytes)?;
        let comparison = match tag {
            0 => Comparison::Equal,
            1 => Comparison::Unequal,
            2 => Comparison::Less,
            3 => Comparison::AtMost,
            4 => Comparison::SamePlace,
            5 => Comparison::OtherPlace,
            _ => return Err(WireFault::NotAMessage),
        };
        Ok((comparison, rest))
    }

    fn is_in_range(&self) -> bool {
        true
    }
}
