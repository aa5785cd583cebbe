ghost use Rattle.std.specs.Prelude.{◌≡◌, ◌+◌, ◌≤◌, ◌++◌, ℕ, List, [], length, take};
ghost use Rattle.px_wire.specs.Sinks.{Took, IsWritten};

use px_history::History;
use px_io::{Failed, Sink, write_all};
use px_spelling::Output;
use std::marker::PhantomData;

/// Puts bytes to a sink, in pieces of at most 4,096. After a write has failed, none goes to the sink.
#[derive(Drop)]
pub(crate) struct SinkBuffer<K> {
    /// Those that the sink doesn't have yet.
    bytes: [u8; 4_096],
    used: usize,
    failed: bool,
    given: History<u8>,
    of: PhantomData<K>,
    ghost few: { used ≤ 4096 },
}

impl<K: Sink> Output for SinkBuffer<K> {
    ghost use Rattle.std.specs.Prelude.{take};
    ghost use Rattle.px_wire.specs.Sinks.{Took};

    type Target = K;

    ghost written = { λ s. s.given.items };

    ghost reaches = { λ from s to. Took K.told K.takes K.count from s.failed (take s.used s.bytes) s.given.items to };

    fn put(&mut self, target: &mut K, bytes: &[u8]) {
        if bytes.len() <= 4_096 - self.used {
            hold(self, bytes);
        } else {
            put_anew(self, target, bytes);
        }
    }
}

/// Nothing was put. Takes no memory.
#[tactic(auto, using(crate::proofs::SinkLemmas::took_nothing))]
pub(crate) fn new_buffer<K: Sink>() -> SinkBuffer<K>
    ensures given { result.given.items ≡ [] }
    ensures begun { (sink : K) → Took K.told K.takes K.count sink result.failed (take result.used result.bytes) result.given.items sink }
{
    SinkBuffer {
        bytes: [0; 4_096],
        used: 0,
        failed: false,
        given: History::new(),
        of: PhantomData,
    }
}

/// Lets go what is held, and says whether a write has failed.
pub(crate) fn finish<K: Sink>(buffer: SinkBuffer<K>, sink: &mut K) -> Result<(), Failed>
    ensures { (from : K) → Took K.told K.takes K.count from buffer.failed (take buffer.used buffer.bytes) buffer.given.items sink.old → IsWritten K.told K.takes K.count from buffer.given.items result sink.new }
{
    let mut buffer = buffer;
    flush(&mut buffer, sink);
    if buffer.failed { Err(Failed) } else { Ok(()) }
}

// Lets go what is held.
fn flush<K: Sink>(buffer: &mut SinkBuffer<K>, sink: &mut K)
    ensures given { buffer.new.given.items ≡ buffer.old.given.items }
    ensures unused { buffer.new.used ≡ 0 }
    ensures took { (from : K) → Took K.told K.takes K.count from buffer.old.failed (take buffer.old.used buffer.old.bytes) buffer.old.given.items sink.old → Took K.told K.takes K.count from buffer.new.failed (take buffer.new.used buffer.new.bytes) buffer.new.given.items sink.new }
{
    buffer.failed = send(buffer.failed, sink, &buffer.bytes[..buffer.used]);
    buffer.used = 0;
}

// Holds bytes for which there is room.
#[tactic(auto, using(crate::proofs::SinkLemmas::took_held))]
fn hold<K: Sink>(buffer: &mut SinkBuffer<K>, bytes: &[u8])
    requires { buffer.old.used + length bytes.now ≤ 4096 }
    ensures given { buffer.new.given.items ≡ buffer.old.given.items ++ bytes.now }
    ensures took { (from to : K) → Took K.told K.takes K.count from buffer.old.failed (take buffer.old.used buffer.old.bytes) buffer.old.given.items to → Took K.told K.takes K.count from buffer.new.failed (take buffer.new.used buffer.new.bytes) buffer.new.given.items to }
{
    let from = buffer.used;
    // the number first: nothing is left to do once the bytes are copied
    buffer.used = from + bytes.len();
    buffer.given.add(bytes);
    buffer.bytes[from..buffer.used].copy_from_slice(bytes);
}

// Lets go what is held, and then holds these, or writes them where they are more than there ever is room for.
fn put_anew<K: Sink>(buffer: &mut SinkBuffer<K>, sink: &mut K, bytes: &[u8])
    ensures given { buffer.new.given.items ≡ buffer.old.given.items ++ bytes.now }
    ensures took { (from : K) → Took K.told K.takes K.count from buffer.old.failed (take buffer.old.used buffer.old.bytes) buffer.old.given.items sink.old → Took K.told K.takes K.count from buffer.new.failed (take buffer.new.used buffer.new.bytes) buffer.new.given.items sink.new }
{
    flush(buffer, sink);
    if bytes.len() <= 4_096 {
        hold(buffer, bytes);
    } else {
        write_through(buffer, sink, bytes);
    }
}

// Writes bytes where none are held.
#[tactic(auto, using(crate::proofs::SinkLemmas::took_given))]
fn write_through<K: Sink>(buffer: &mut SinkBuffer<K>, sink: &mut K, bytes: &[u8])
    requires { buffer.old.used ≡ 0 }
    ensures given { buffer.new.given.items ≡ buffer.old.given.items ++ bytes.now }
    ensures took { (from : K) → Took K.told K.takes K.count from buffer.old.failed (take buffer.old.used buffer.old.bytes) buffer.old.given.items sink.old → Took K.told K.takes K.count from buffer.new.failed (take buffer.new.used buffer.new.bytes) buffer.new.given.items sink.new }
{
    buffer.failed = send(buffer.failed, sink, bytes);
    buffer.given.add(bytes);
}

// Writes bytes, unless a write has failed, and says whether one has.
#[tactic(auto, using(crate::proofs::SinkLemmas::took_failed))]
fn send<K: Sink>(failed: bool, sink: &mut K, bytes: &[u8]) -> bool
    ensures { (from : K) (given : List ℕ) → Took K.told K.takes K.count from failed bytes.now given sink.old → Took K.told K.takes K.count from result [] given sink.new }
{
    if failed {
        return true;
    }
    write_all(sink, bytes).is_err()
}
