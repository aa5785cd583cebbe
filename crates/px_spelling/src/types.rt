ghost use Rattle.px_spelling.specs.Types.{type_id_bytes, IsTypeId, type_id_at, value_type_bytes, IsValueType, value_type_at, block_type_bytes, IsBlockType, block_type_at, var_bytes, IsVar, var_at, sort_bytes, IsSort, sort_at, var_info_bytes, IsVarInfo, var_info_at, value_bytes, IsValue, value_at};

use crate::{Output, Wire, WireFault, are_in_range, read_items, write_items};
use px_terms::{BlockType, Sort, TypeId, Value, ValueType, Var, VarInfo};
use std::alloc::Global;

impl Wire for TypeId {
    ghost bytes_of = { type_id_bytes };

    ghost fits = { IsTypeId };

    ghost at = { type_id_at };

    fn write<O: Output>(&self, out: &mut O, target: &mut O::Target) {
        self.0.write(out, target)
    }

    #[tactic(auto, unfolding(crate::specs::Types::type_id_at))]
    fn read(alloc: Global, bytes: &[u8]) -> Result<(TypeId, &[u8]), WireFault> {
        let (number, rest) = u32::read(alloc, bytes)?;
        Ok((TypeId(number), rest))
    }

    fn is_in_range(&self) -> bool {
        self.0.is_in_range()
    }
}

impl Wire for ValueType {
    ghost bytes_of = { value_type_bytes };

    ghost fits = { IsValueType };

    ghost at = { value_type_at };

    fn write<O: Output>(&self, out: &mut O, target: &mut O::Target) {
        match self {
            ValueType::Int => 0u8.write(out, target),
            ValueType::Pointer(block) => {
                1u8.write(out, target);
                block.write(out, target)
            }
        }
    }

    #[tactic(auto, unfolding(crate::specs::Types::value_type_at, crate::specs::Types::value_type_with))]
    fn read(alloc: Global, bytes: &[u8]) -> Result<(ValueType, &[u8]), WireFault> {
        let (tag, rest) = u8::read(alloc, bytes)?;
        match tag {
            0 => Ok((ValueType::Int, rest)),
            1 => {
                let (block, rest) = TypeId::read(alloc, rest)?;
                Ok((ValueType::Pointer(block), rest))
            }
            _ => Err(WireFault::NotAMessage),
        }
    }

    fn is_in_range(&self) -> bool {
        match self {
            ValueType::Int => true,
            ValueType::Pointer(block) => block.is_in_range(),
        }
    }
}

impl Wire for BlockType {
    ghost bytes_of = { block_type_bytes };

    ghost fits = { IsBlockType };

    ghost at = { block_type_at };

    fn write<O: Output>(&self, out: &mut O, target: &mut O::Target) {
        match self {
            BlockType::One(cell) => {
                0u8.write(out, target);
                cell.write(out, target)
            }
            BlockType::Fields(cells) => {
                1u8.write(out, target);
                write_items(cells.as_slice(), out, target)
            }
            BlockType::Opaque => 2u8.write(out, target),
        }
    }

    #[tactic(auto, unfolding(crate::specs::Types::block_type_at, crate::specs::Types::block_type_with))]
    fn read(alloc: Global, bytes: &[u8]) -> Result<(BlockType, &[u8]), WireFault> {
        let (tag, rest) = u8::read(alloc, bytes)?;
        match tag {
            0 => {
                let (cell, rest) = ValueType::read(alloc, rest)?;
                Ok((BlockType::One(cell), rest))
            }
            1 => {
                let (cells, rest) = read_items(alloc, u32::MAX, rest)?;
                Ok((BlockType::Fields(cells), rest))
            }
            2 => Ok((BlockType::Opaque, rest)),
            _ => Err(WireFault::NotAMessage),
        }
    }

    fn is_in_range(&self) -> bool {
        match self {
            BlockType::One(cell) => cell.is_in_range(),
            BlockType::Fields(cells) => are_in_range(u32::MAX, cells.as_slice()),
            BlockType::Opaque => true,
        }
    }
}

impl Wire for Var {
    ghost bytes_of = { var_bytes };

    ghost fits = { IsVar };

    ghost at = { var_at };

    fn write<O: Output>(&self, out: &mut O, target: &mut O::Target) {
        self.0.write(out, target)
    }

    #[tactic(auto, unfolding(crate::specs::Types::var_at))]
    fn read(alloc: Global, bytes: &[u8]) -> Result<(Var, &[u8]), WireFault> {
        let (number, rest) = u32::read(alloc, bytes)?;
        Ok((Var(number), rest))
    }

    fn is_in_range(&self) -> bool {
        self.0.is_in_range()
    }
}

impl Wire for Sort {
    ghost bytes_of = { sort_bytes };

    ghost fits = { IsSort };

    ghost at = { sort_at };

    fn write<O: Output>(&self, out: &mut O, target: &mut O::Target) {
        let number: u8 = match self {
            Sort::Given => 0,
            Sort::Cell => 1,
            Sort::Input => 2,
            Sort::Made => 3,
        };
        number.write(out, target)
    }

    #[tactic(auto, unfolding(crate::specs::Types::sort_at, crate::specs::Types::sort_with))]
    fn read(alloc: Global, bytes: &[u8]) -> Result<(Sort, &[u8]), WireFault> {
        let (tag, rest) = u8::read(alloc, bytes)?;
        let sort = match tag {
            0 => Sort::Given,
            1 => Sort::Cell,
            2 => Sort::Input,
            3 => Sort::Made,
            _ => return Err(WireFault::NotAMessage),
        };
        Ok((sort, rest))
    }

    fn is_in_range(&self) -> bool {
        true
    }
}

impl Wire for VarInfo {
    ghost bytes_of = { var_info_bytes };

    ghost fits = { IsVarInfo };

    ghost at = { var_info_at };

    fn write<O: Output>(&self, out: &mut O, target: &mut O::Target) {
        self.sort.write(out, target);
        self.value.write(out, target)
    }

    #[tactic(auto, unfolding(crate::specs::Types::var_info_at))]
    fn read(alloc: Global, bytes: &[u8]) -> Result<(VarInfo, &[u8]), WireFault> {
        let (sort, rest) = Sort::read(alloc, bytes)?;
        let (value, rest) = ValueType::read(alloc, rest)?;
        Ok((VarInfo { sort, value }, rest))
    }

    fn is_in_range(&self) -> bool {
        self.value.is_in_range()
    }
}

impl Wire for Value {
    ghost bytes_of = { value_bytes };

    ghost fits = { IsValue };

    ghost at = { value_at };

    fn write<O: Output>(&self, out: &mut O, target: &mut O::Target) {
        match self {
            Value::Word(word) => {
                0u8.write(out, target);
                word.write(out, target)
            }
            Value::Null => 1u8.write(out, target),
            Value::Block(number) => {
                2u8.write(out, target);
                number.write(out, target)
            }
            Value::Unwritten => 3u8.write(out, target),
        }
    }

    #[tactic(auto, unfolding(crate::specs::Types::value_at, crate::specs::Types::value_with))]
    fn read(alloc: Global, bytes: &[u8]) -> Result<(Value, &[u8]), WireFault> {
        let (tag, rest) = u8::read(alloc, bytes)?;
        match tag {
            0 => {
                let (word, rest) = i32::read(alloc, rest)?;
                Ok((Value::Word(word), rest))
            }
            1 => Ok((Value::Null, rest)),
            2 => {
                let (number, rest) = u32::read(alloc, rest)?;
                Ok((Value::Block(number), rest))
            }
            3 => Ok((Value::Unwritten, rest)),
            _ => Err(WireFault::NotAMessage),
        }
    }

    fn is_in_range(&self) -> bool {
        match self {
            Value::Word(word) => word.is_in_range(),
            Value::Block(number) => number.is_in_range(),
            Value::Null | Value::Unwritten => true,
        }
    }
}
