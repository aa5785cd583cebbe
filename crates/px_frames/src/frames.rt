ghost use Rattle.std.specs.Prelude.{◌≡◌, ◌<◌, ◌≤◌, length, ℕ, IfOk, IsErrOf};
ghost use Rattle.px_frames.specs.Frames.{frame_of, most_bytes};
ghost use Rattle.px_frames.specs.declared.faults.FrameFault.TheVariants.{TooLong};

use crate::FrameFault;
use std::alloc::Global;

/// The most bytes of a message in a frame.
pub const MOST_BYTES: u32 = 16_777_216;

/// The frame of a message: its length in four bytes, high byte first, and the message. `TooLong` comes exactly where
/// the message has more than 16,777,216 bytes.
pub fn frame(alloc: Global, message: &[u8]) -> Result<Vec<u8>, FrameFault>
    ensures bytes { IfOk result (λ f. f.items ≡ frame_of message.now) }
    ensures short { IfOk result (λ f. length message.now ≤ most_bytes) }
    ensures long { (n : ℕ) → IsErrOf result (TooLong n) → (n ≡ length message.now) × (most_bytes < n) }
{
    if message.len() > MOST_BYTES as usize {
        return Err(FrameFault::TooLong(message.len() as u64));
    }
    let length = message.len() as u32;
    let mut bytes = Vec::from_slice(alloc, &length.to_be_bytes())?;
    bytes.extend_from_slice(message)?;
    Ok(bytes)
}
