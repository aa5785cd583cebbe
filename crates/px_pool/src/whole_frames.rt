ghost use Rattle.std.specs.Prelude.{◌+◌, ◌≤◌, length, IfNone, IfSome};
ghost use Rattle.px_pool.specs.Counting.{IsFirstFrame, IsAfterFrame, HasNoFrame};
ghost use Rattle.px_pool.specs.Starts.{HasFrames};

use px_frames::MOST_BYTES;

/// How many whole frames the bytes begin with, one after another. Takes no memory.
pub fn whole_frames(bytes: &[u8]) -> u64
    ensures frames { HasFrames bytes.now result }
    ensures few { result ≤ length bytes.now }
{
    let mut rest = bytes;
    let mut count = 0;
    while let Some(behind) = after_frame(rest) {
        rest = behind;
        count += 1;
    }
    count
}

// What stands after the whole frame that the bytes begin with, if they do.
fn after_frame(bytes: &[u8]) -> Option<&[u8]>
    ensures found { IfSome result (λ rest. IsAfterFrame bytes.now rest.now) }
    ensures shorter { IfSome result (λ rest. length rest.now + 4 ≤ length bytes.now) }
    ensures none { IfNone result (HasNoFrame bytes.now) }
{
    match first_frame(bytes) {
        Some((_message, rest)) => Some(rest),
        None => None,
    }
}

/// The message of the whole frame that the bytes begin with, if they do, and what stands after it. Takes no memory.
pub fn first_frame(bytes: &[u8]) -> Option<(&[u8], &[u8])>
    ensures found { IfSome result (λ x. IsFirstFrame bytes.now x.0.now x.1.now) }
    ensures none { IfNone result (HasNoFrame bytes.now) }
{
    let Some((named, behind)) = bytes.split_first_chunk::<4>() else {
        return None;
    };
    let length = u32::from_be_bytes(*named);
    if length > MOST_BYTES {
        return None;
    }
    match behind.split_at_checked(length as usize) {
        Some((message, rest)) => Some((message, rest)),
        None => None,
    }
}
