ghost use Rattle.std.specs.Prelude.{◌≡◌, ◌+◌, ◌<◌, ◌≤◌, length, take, slice_range, nat_eq, nat_lt, IfOk, OnErr, OnOk};
ghost use Rattle.px_io.specs.Faults.{HasCause};
ghost use Rattle.px_pool.specs.Talks.{Passes, nothing};
ghost use Rattle.px_pool.specs.Words.{IsWordKept};
ghost use Rattle.px_pool.specs.Reading.{Gives, GivesFewer, KeepsWord};

use crate::link::Link;
use px_io::Failed;
use std::sync::Wait;

/// Reads until a slice is full or the link ends, and says how many bytes came. Nothing after them is read.
pub(crate) fn fill<R: Wait, K: Link>(rt: &R, link: &mut K, into: &mut [u8]) -> Result<usize, Failed>
    ensures bound { IfOk result (λ n. n ≤ length into.new) }
    ensures given { IfOk result (λ n. Gives (K.told link.old) (K.told link.new) (take n into.new) (nat_lt n (length into.new))) }
    ensures fewer { OnErr result (GivesFewer (K.told link.old) (K.told link.new) (length into.new)) }
    ensures word { OnOk result (KeepsWord K.Word.says (K.told link.old) (K.told link.new) (length into.new)) }
    ensures cause { HasCause (K.count link.old) (K.count link.new) result }
{
    let mut have = 0;
    while have < into.len() {
        let count = receive_after(rt, link, into, have)?;
        if count == 0 {
            return Ok(have);
        }
        have += count;
    }
    Ok(have)
}

// Receives once, into what is after the first bytes of a slice.
fn receive_after<R: Wait, K: Link>(
    rt: &R,
    link: &mut K,
    into: &mut [u8],
    have: usize,
) -> Result<usize, Failed>
    requires { have < length into.old }
    ensures bound { IfOk result (λ n. have + n ≤ length into.new) }
    ensures before { take have into.new ≡ take have into.old }
    ensures given { IfOk result (λ n. Gives (K.told link.old) (K.told link.new) (slice_range into.new have (have + n)) (nat_eq n 0)) }
    ensures none { OnErr result (Passes (K.told link.old) (K.told link.new) nothing) }
    ensures word { IsWordKept K.Word.says (K.told link.new) }
    ensures cause { HasCause (K.count link.old) (K.count link.new) result }
{
    link.receive(rt, &mut into[have..])
}

/// Receives once, at most so many bytes and as many as have room, into the front of a slice.
pub(crate) fn receive_front<R: Wait, K: Link>(
    rt: &R,
    link: &mut K,
    into: &mut [u8],
    most: usize,
) -> Result<usize, Failed>
    requires room { 0 < length into.old }
    requires some { 0 < most }
    ensures bound { IfOk result (λ n. (n ≤ most) × (n ≤ length into.new)) }
    ensures given { IfOk result (λ n. Gives (K.told link.old) (K.told link.new) (take n into.new) (nat_eq n 0)) }
    ensures none { OnErr result (Passes (K.told link.old) (K.told link.new) nothing) }
    ensures word { IsWordKept K.Word.says (K.told link.new) }
    ensures cause { HasCause (K.count link.old) (K.count link.new) result }
{
    let room = into.len().min(most);
    link.receive(rt, &mut into[..room])
}
