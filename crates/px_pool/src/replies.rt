ghost use Rattle.std.specs.Prelude.{◌≡◌, ◌≤◌, [], false, length, take, IfOk, IsErrOf, OnOk};
ghost use Rattle.px_callgraph.specs.JobTree.{job_tree};
ghost use Rattle.std.specs.Int.{w32, to_be_bytes, from_be_bytes};
ghost use Rattle.px_frames.specs.Frames.{most_bytes};
ghost use Rattle.px_pool.specs.Words.{IsWordKept};
ghost use Rattle.px_pieces.specs.declared.desk.Lost.{Lost as ALost};
ghost use Rattle.px_pool.specs.Outcomes.{CountsFaults};
ghost use Rattle.px_pool.specs.Reading.{Gives, Unanswered, IsRead, IsReplied};

use crate::answers::Answer;
use crate::feeding::{feed, feed_more, outcome};
use crate::gathering::Standing;
use crate::link::Link;
use crate::reading::{fill, receive_front};
use px_callgraph::Job;
use px_frames::MOST_BYTES;
use px_io::Failed;
use px_parts::Reader;
use px_pieces::Lost;
use std::alloc::Global;
use std::sync::Wait;

/// How many bytes are received at a time, at most.
const PIECE: usize = 4_096;

/// Sends a frame, and says what the message of the one frame that is given after it gives of a job that was asked for in a version. No
/// copy of the message is made.
pub(crate) fn ask<R: Wait, K: Link>(
    rt: &R,
    alloc: Global,
    link: &mut K,
    framed: &[u8],
    job: &Job,
    version: u8,
) -> Result<Answer, Lost>
    ensures replied { IsReplied version (job_tree job.now) (K.told link.old) (K.told link.new) framed.now result }
    ensures word { OnOk result (IsWordKept K.Word.says (K.told link.new)) }
    ensures faults { CountsFaults (K.count link.old) (K.count link.new) result }
{
    match link.send(rt, framed) {
        Ok(()) => read_reply(rt, alloc, link, job, version),
        Err(Failed) => Err(Lost::Send),
    }
}

// Reads one frame, and says what its message gives.
fn read_reply<R: Wait, K: Link>(
    rt: &R,
    alloc: Global,
    link: &mut K,
    job: &Job,
    version: u8,
) -> Result<Answer, Lost>
    ensures replied { IsReplied version (job_tree job.now) (K.told link.old) (K.told link.new) [] result }
    ensures word { OnOk result (IsWordKept K.Word.says (K.told link.new)) }
    ensures faults { CountsFaults (K.count link.old) (K.count link.new) result }
{
    let length = read_length(rt, link)?;
    read_parts(rt, alloc, link, job, version, length)
}

// Reads a message of so many bytes, and says what it gives. Whatever that is, it is read to its end.
fn read_parts<R: Wait, K: Link>(
    rt: &R,
    alloc: Global,
    link: &mut K,
    job: &Job,
    version: u8,
    length: u32,
) -> Result<Answer, Lost>
    requires { length ≤ most_bytes }
    ensures read { IsRead version (job_tree job.now) (K.told link.old) (K.told link.new) length result }
    ensures word { IsWordKept K.Word.says (K.told link.old) → IsWordKept K.Word.says (K.told link.new) }
    ensures faults { CountsFaults (K.count link.old) (K.count link.new) result }
{
    let mut reader = Reader::new(alloc, length);
    let mut fed = feed(alloc, job, version, &mut reader, Standing::Unbegun, &[]);
    let mut piece = [0u8; PIECE];
    let mut came = 0;
    while came < length as usize {
        let Ok(count) = receive_front(rt, link, &mut piece, length as usize - came) else {
            return Err(Lost::Read);
        };
        if count == 0 {
            return Err(Lost::Closed(4 + came as u64));
        }
        let more = first(&piece, count);
        fed = feed_more(alloc, job, version, &mut reader, fed, more);
        came += count;
    }
    outcome(fed)
}

// So many of the first bytes of a piece.
fn first(piece: &[u8], count: usize) -> &[u8]
    requires { count ≤ length piece.now }
    ensures { result.now ≡ take count piece.now }
{
    &piece[..count]
}

// Reads the length of a message, if it has room in a frame.
fn read_length<R: Wait, K: Link>(rt: &R, link: &mut K) -> Result<u32, Lost>
    ensures few { IfOk result (λ n. n ≤ most_bytes) }
    ensures given { IfOk result (λ n. Gives (K.told link.old) (K.told link.new) (to_be_bytes w32 n) false) }
    ensures unanswered { (why : ALost) → IsErrOf result why → Unanswered (K.told link.old) (K.told link.new) [] why }
    ensures word { OnOk result (IsWordKept K.Word.says (K.told link.new)) }
    ensures faults { CountsFaults (K.count link.old) (K.count link.new) result }
{
    let mut bytes = [0u8; 4];
    match fill(rt, link, &mut bytes) {
        Ok(count) => {
            if count < 4 {
                return Err(Lost::Closed(count as u64));
            }
            let length = length_in(bytes);
            if length > MOST_BYTES {
                return Err(Lost::Frame);
            }
            Ok(length)
        }
        Err(Failed) => Err(Lost::Read),
    }
}

// The length that four bytes name.
fn length_in(bytes: [u8; 4]) -> u32
    ensures named { result ≡ from_be_bytes w32 bytes }
    ensures spelled { to_be_bytes w32 result ≡ bytes }
{
    u32::from_be_bytes(bytes)
}
