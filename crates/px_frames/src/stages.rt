ghost use Rattle.std.specs.Prelude.{◌≡◌, ◌<◌, ◌≤◌, ◌+◌, ◌++◌, [], length, take, vec_capacity, Ok};
ghost use Rattle.std.specs.Int.{w32, to_be_bytes};
ghost use Rattle.px_frames.specs.Frames.{most_bytes};
ghost use Rattle.px_frames.specs.Feeding.{holds, IsFed, IsFedOn};
ghost use Rattle.px_frames.specs.Stages.{feeding_of, fed_after, IsKept, IsWithin};

use crate::FeedFault;
use crate::feeder::Fed;
use crate::frames::MOST_BYTES;
use std::alloc::Global;

/// How far a frame has come.
#[derive(Drop)]
pub enum Stage {
    /// So many bytes of its length.
    Length { bytes: [u8; 4], have: usize },
    /// A part of its message, with room for all of it.
    Message { part: Vec<u8>, wanted: u32 },
    /// Its length is too long.
    Refused { length: u32 },
}

pub fn start() -> Stage
    ensures kept { IsKept result }
    ensures empty { feeding_of result ≡ holds [] }
{
    Stage::Length {
        bytes: [0; 4],
        have: 0,
    }
}

/// One piece: what it gives, and how far the frame is then.
pub fn step(alloc: Global, stage: Stage, piece: &[u8]) -> (Stage, Result<Fed, FeedFault>)
    requires { IsKept stage }
    ensures kept { IsKept result.0 }
    ensures fed { IsFed (feeding_of stage) piece.now result.1 (feeding_of result.0) }
{
    match stage {
        Stage::Length { bytes, have } => read_length(alloc, bytes, have, piece),
        Stage::Message { part, wanted } => {
            let (stage, fed) = read_message(part, wanted, piece);
            (stage, Ok(fed))
        }
        Stage::Refused { length } => (Stage::Refused { length }, Err(FeedFault::TooLong(length))),
    }
}

// The length, where the piece has what it lacks, and what stands after it.
fn read_length(
    alloc: Global,
    bytes: [u8; 4],
    have: usize,
    piece: &[u8],
) -> (Stage, Result<Fed, FeedFault>)
    requires { have < 4 }
    ensures kept { IsKept result.0 }
    ensures fed { IsFedOn (take have bytes) piece.now result.1 (feeding_of result.0) }
{
    let lacking = 4 - have;
    if piece.len() < lacking {
        let bytes = joined(bytes, have, piece);
        let have = have + piece.len();
        return (Stage::Length { bytes, have }, Ok(Fed::Held));
    }
    let whole = joined(bytes, have, &piece[..lacking]);
    let length = u32::from_be_bytes(whole);
    if length > MOST_BYTES {
        return (Stage::Refused { length }, Err(FeedFault::TooLong(length)));
    }
    match Vec::with_capacity(alloc, length as usize) {
        Ok(part) => {
            let (stage, fed) = read_message(part, length, &piece[lacking..]);
            (stage, Ok(behind(fed, lacking)))
        }
        Err(_) => (Stage::Length { bytes, have }, Err(FeedFault::NoMemory)),
    }
}

// What a piece gave, where these bytes of it had been taken before.
fn behind(fed: Fed, before: usize) -> Fed
    requires { IsWithin fed before }
    ensures { result ≡ fed_after fed before }
{
    match fed {
        Fed::Whole { message, taken } => Fed::Whole {
            message,
            taken: taken + before as u64,
        },
        Fed::Held => Fed::Held,
    }
}

// The first bytes of a length with those of a piece after them.
fn joined(bytes: [u8; 4], have: usize, piece: &[u8]) -> [u8; 4]
    requires { have + length piece.now ≤ 4 }
    ensures { take (have + length piece.now) result ≡ take have bytes ++ piece.now }
{
    let mut bytes = bytes;
    bytes[have..have + piece.len()].copy_from_slice(piece);
    bytes
}

// The message, where the piece has what it lacks.
fn read_message(part: Vec<u8>, wanted: u32, piece: &[u8]) -> (Stage, Fed)
    requires part { length part.items ≤ wanted }
    requires room { wanted ≤ vec_capacity part }
    requires few { wanted ≤ most_bytes }
    ensures kept { IsKept result.0 }
    ensures fed { IsFedOn (to_be_bytes w32 wanted ++ part.items) piece.now (Ok result.1) (feeding_of result.0) }
{
    let mut part = part;
    let lacking = wanted as usize - part.len();
    if piece.len() < lacking {
        put(&mut part, piece);
        return (Stage::Message { part, wanted }, Fed::Held);
    }
    put(&mut part, &piece[..lacking]);
    let taken = lacking as u64;
    let message = part;
    (start(), Fed::Whole { message, taken })
}

// Puts bytes after others, where there is room for them.
fn put(part: &mut Vec<u8>, bytes: &[u8])
    requires { length part.old.items + length bytes.now ≤ vec_capacity part.old }
    ensures items { part.new.items ≡ part.old.items ++ bytes.now }
    ensures room { vec_capacity part.old ≤ vec_capacity part.new }
{
    let _ = part.extend_from_slice(bytes);
}
