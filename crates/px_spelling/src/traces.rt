ghost use Rattle.px_spelling.specs.Traces.{proc_id_bytes, IsProcId, proc_id_at, field_id_bytes, IsFieldId, field_id_at, site_bytes, IsSite, site_at, mark_kind_bytes, IsMarkKind, mark_kind_at, mark_bytes, IsMark, mark_at, kind_bytes, IsKind, kind_at};

use crate::{Output, Wire, WireFault};
use px_base::{FieldId, Kind, Mark, MarkKind, ProcId, Site};
use std::alloc::Global;

impl Wire for ProcId {
    ghost bytes_of = { proc_id_bytes };

    ghost fits = { IsProcId };

    ghost at = { proc_id_at };

    fn write<O: Output>(&self, out: &mut O, target: &mut O::Target) {
        self.0.write(out, target)
    }

    #[tactic(auto, unfolding(crate::specs::Traces::proc_id_at))]
    fn read(alloc: Global, bytes: &[u8]) -> Result<(ProcId, &[u8]), WireFault> {
        let (number, rest) = u32::read(alloc, bytes)?;
        Ok((ProcId(number), rest))
    }

    fn is_in_range(&self) -> bool {
        self.0.is_in_range()
    }
}

impl Wire for FieldId {
    ghost bytes_of = { field_id_bytes };

    ghost fits = { IsFieldId };

    ghost at = { field_id_at };

    fn write<O: Output>(&self, out: &mut O, target: &mut O::Target) {
        self.0.write(out, target)
    }

    #[tactic(auto, unfolding(crate::specs::Traces::field_id_at))]
    fn read(alloc: Global, bytes: &[u8]) -> Result<(FieldId, &[u8]), WireFault> {
        let (number, rest) = u32::read(alloc, bytes)?;
        Ok((FieldId(number), rest))
    }

    fn is_in_range(&self) -> bool {
        self.0.is_in_range()
    }
}

impl Wire for Site {
    ghost bytes_of = { site_bytes };

    ghost fits = { IsSite };

    ghost at = { site_at };

    fn write<O: Output>(&self, out: &mut O, target: &mut O::Target) {
        self.file.write(out, target);
        self.line.write(out, target);
        self.column.write(out, target)
    }

    #[tactic(auto, unfolding(crate::specs::Traces::site_at))]
    fn read(alloc: Global, bytes: &[u8]) -> Result<(Site, &[u8]), WireFault> {
        let (file, rest) = u32::read(alloc, bytes)?;
        let (line, rest) = u32::read(alloc, rest)?;
        let (column, rest) = u32::read(alloc, rest)?;
        Ok((Site { file, line, column }, rest))
    }

    fn is_in_range(&self) -> bool {
        self.file.is_in_range() && self.line.is_in_range() && self.column.is_in_range()
    }
}

impl Wire for MarkKind {
    ghost bytes_of = { mark_kind_bytes };

    ghost fits = { IsMarkKind };

    ghost at = { mark_kind_at };

    fn write<O: Output>(&self, out: &mut O, target: &mut O::Target) {
        match self {
            MarkKind::Then => 0u8.write(out, target),
            MarkKind::Else => 1u8.write(out, target),
            MarkKind::Iter => 2u8.write(out, target),
            MarkKind::Done => 3u8.write(out, target),
            MarkKind::Got => 4u8.write(out, target),
            MarkKind::NoBlock => 5u8.write(out, target),
            MarkKind::Input => 6u8.write(out, target),
            MarkKind::Access => 7u8.write(out, target),
            MarkKind::Freed => 8u8.write(out, target),
            MarkKind::FreeNull => 9u8.write(out, target),
            MarkKind::Enter(proc) => {
                10u8.write(out, target);
                proc.write(out, target)
            }
            MarkKind::Leave => 11u8.write(out, target),
        }
    }

    #[tactic(auto, unfolding(crate::specs::Traces::mark_kind_at, crate::specs::Traces::mark_kind_with))]
    fn read(alloc: Global, bytes: &[u8]) -> Result<(MarkKind, &[u8]), WireFault> {
        let (tag, rest) = u8::read(alloc, bytes)?;
        match tag {
            0 => Ok((MarkKind::Then, rest)),
            1 => Ok((MarkKind::Else, rest)),
            2 => Ok((MarkKind::Iter, rest)),
            3 => Ok((MarkKind::Done, rest)),
            4 => Ok((MarkKind::Got, rest)),
            5 => Ok((MarkKind::NoBlock, rest)),
            6 => Ok((MarkKind::Input, rest)),
            7 => Ok((MarkKind::Access, rest)),
            8 => Ok((MarkKind::Freed, rest)),
            9 => Ok((MarkKind::FreeNull, rest)),
            10 => {
                let (proc, rest) = ProcId::read(alloc, rest)?;
                Ok((MarkKind::Enter(proc), rest))
            }
            11 => Ok((MarkKind::Leave, rest)),
            _ => Err(WireFault::NotAMessage),
        }
    }

    fn is_in_range(&self) -> bool {
        match self {
            MarkKind::Enter(proc) => proc.is_in_range(),
            _ => true,
        }
    }
}

impl Wire for Mark {
    ghost bytes_of = { mark_bytes };

    ghost fits = { IsMark };

    ghost at = { mark_at };

    fn write<O: Output>(&self, out: &mut O, target: &mut O::Target) {
        self.kind.write(out, target);
        self.site.write(out, target)
    }

    #[tactic(auto, unfolding(crate::specs::Traces::mark_at))]
    fn read(alloc: Global, bytes: &[u8]) -> Result<(Mark, &[u8]), WireFault> {
        let (kind, rest) = MarkKind::read(alloc, bytes)?;
        let (site, rest) = Site::read(alloc, rest)?;
        Ok((Mark { kind, site }, rest))
    }

    fn is_in_range(&self) -> bool {
        self.kind.is_in_range() && self.site.is_in_range()
    }
}

impl Wire for Kind {
    ghost bytes_of = { kind_bytes };

    ghost fits = { IsKind };

    ghost at = { kind_at };

    fn write<O: Output>(&self, out: &mut O, target: &mut O::Target) {
        let number: u8 = match self {
            Kind::NullDereference => 0,
            Kind::UseAfterFree => 1,
            Kind::DoubleFree => 2,
            Kind::UninitialisedRead => 3,
            Kind::DivisionByZero => 4,
        };
        number.write(out, target)
    }

    #[tactic(auto, unfolding(crate::specs::Traces::kind_at, crate::specs::Traces::kind_with))]
    fn read(alloc: Global, bytes: &[u8]) -> Result<(Kind, &[u8]), WireFault> {
        let (tag, rest) = u8::read(alloc, bytes)?;
        let kind = match tag {
            0 => Kind::NullDereference,
            1 => Kind::UseAfterFree,
            2 => Kind::DoubleFree,
            3 => Kind::UninitialisedRead,
            4 => Kind::DivisionByZero,
            _ => return Err(WireFault::NotAMessage),
        };
        Ok((kind, rest))
    }

    fn is_in_range(&self) -> bool {
        true
    }
}
