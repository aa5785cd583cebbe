ghost use Rattle.std.specs.Prelude.{◌≡◌, ◌++◌, IfOk};
ghost use Rattle.px_spelling.specs.Numbers.{u8_bytes, u8_at, IsU8, u32_bytes, u32_at, IsU32, u64_bytes, u64_at, IsU64, i32_bytes, i32_at, IsI32};

use crate::{Output, Wire, WireFault};
use std::alloc::Global;

impl Wire for u8 {
    ghost bytes_of = { u8_bytes };

    ghost fits = { IsU8 };

    ghost at = { u8_at };

    fn write<O: Output>(&self, out: &mut O, target: &mut O::Target) {
        out.put(target, &[*self])
    }

    #[tactic(auto, unfolding(crate::specs::Numbers::u8_at))]
    fn read(_: Global, bytes: &[u8]) -> Result<(u8, &[u8]), WireFault> {
        match bytes {
            [] => Err(WireFault::NotAMessage),
            [first, rest @ ..] => Ok((*first, rest)),
        }
    }

    fn is_in_range(&self) -> bool {
        let _number = *self;
        true
    }
}

impl Wire for u32 {
    ghost bytes_of = { u32_bytes };

    ghost fits = { IsU32 };

    ghost at = { u32_at };

    fn write<O: Output>(&self, out: &mut O, target: &mut O::Target) {
        out.put(target, &self.to_be_bytes())
    }

    #[tactic(auto, unfolding(crate::specs::Numbers::u32_at))]
    fn read(_: Global, bytes: &[u8]) -> Result<(u32, &[u8]), WireFault> {
        if bytes.len() < 4 {
            return Err(WireFault::NotAMessage);
        }
        let (front, rest) = bytes.split_at(4);
        let number = u32::from_be_bytes([front[0], front[1], front[2], front[3]]);
        Ok((number, rest))
    }

    fn is_in_range(&self) -> bool {
        let _number = *self;
        true
    }
}

impl Wire for u64 {
    ghost bytes_of = { u64_bytes };

    ghost fits = { IsU64 };

    ghost at = { u64_at };

    fn write<O: Output>(&self, out: &mut O, target: &mut O::Target) {
        out.put(target, &self.to_be_bytes())
    }

    #[tactic(auto, unfolding(crate::specs::Numbers::u64_at))]
    fn read(_: Global, bytes: &[u8]) -> Result<(u64, &[u8]), WireFault> {
        if bytes.len() < 8 {
            return Err(WireFault::NotAMessage);
        }
        let (front, rest) = bytes.split_at(8);
        let number = u64::from_be_bytes([
            front[0], front[1], front[2], front[3], front[4], front[5], front[6], front[7],
        ]);
        Ok((number, rest))
    }

    fn is_in_range(&self) -> bool {
        let _number = *self;
        true
    }
}

impl Wire for i32 {
    ghost bytes_of = { i32_bytes };

    ghost fits = { IsI32 };

    ghost at = { i32_at };

    fn write<O: Output>(&self, out: &mut O, target: &mut O::Target) {
        self.cast_unsigned().write(out, target)
    }

    #[tactic(auto, unfolding(crate::specs::Numbers::i32_at))]
    fn read(alloc: Global, bytes: &[u8]) -> Result<(i32, &[u8]), WireFault> {
        let (word, rest) = u32::read(alloc, bytes)?;
        Ok((word.cast_signed(), rest))
    }

    fn is_in_range(&self) -> bool {
        let _number = *self;
        true
    }
}
