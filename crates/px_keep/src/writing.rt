ghost use Rattle.std.specs.Prelude.{◌≡◌, ◌<◌, ◌≤◌, ◌++◌, List, length, IfOk, IfSome, IfNone, OnOk};
ghost use Rattle.px_entry.specs.declared.derivations.Derivation.{Derivation};
ghost use Rattle.px_entry.specs.declared.tables.Table.{Table};
ghost use Rattle.px_callgraph.specs.JobTree.{job_tree};
ghost use Rattle.px_frames.specs.Frames.{frame_of, most_bytes};
ghost use Rattle.px_wire.specs.Messages.{said_tree, reply as reply_tree};
ghost use Rattle.px_keep.specs.Items.{items_bytes, head};
ghost use Rattle.px_keep.specs.Writing.{with_room, IsPut};

use px_callgraph::Job;
use px_frames::{FrameFault, frame};
use px_terms::NoMemory;
use px_wire::{Said, VERSION, encode_full, encode_request, is_request_in_range, is_said_in_range};
use std::alloc::Global;

/// Writes the eight bytes before all items.
pub(crate) fn put_head(out: &mut Vec<u8>) -> Result<(), NoMemory>
    ensures { OnOk result (out.new.items ≡ out.old.items ++ head) }
{
    out.extend_from_slice(b"PULSEXK1")?;
    Ok(())
}

/// Writes the item of a job under ticket 0, where this is the reply to it. Nothing is written where the request or the reply is
/// too long for a frame. A reply that is out of range, as that to no job is known to be, counts as no memory.
pub(crate) fn put_item(
    alloc: Global,
    job: &Job,
    reply: &Said,
    out: &mut Vec<u8>,
) -> Result<(), NoMemory>
    requires { job.now.ticket ≡ 0 }
    ensures { (t : Table) (ds : List Derivation) → said_tree reply.now ≡ reply_tree 0 job.now.kinds t ds → OnOk result (IsPut (job_tree job.now) t ds out.old.items out.new.items) }
{
    if !is_request_in_range(job) {
        return Err(NoMemory);
    }
    if !is_said_in_range(reply) {
        return Err(NoMemory);
    }
    let asked = encode_request(alloc, job, VERSION)?;
    let given = encode_full(alloc, reply)?;
    put_frames(alloc, &asked, &given, out)
}

// Writes two messages, each in a frame, if both have room in one.
fn put_frames(alloc: Global, asked: &[u8], given: &[u8], out: &mut Vec<u8>) -> Result<(), NoMemory>
    ensures { OnOk result (out.new.items ≡ out.old.items ++ items_bytes (with_room asked.now given.now)) }
{
    let Some(first) = framed(alloc, asked)? else {
        return Ok(());
    };
    let Some(second) = framed(alloc, given)? else {
        return Ok(());
    };
    out.extend_from_slice(&first)?;
    out.extend_from_slice(&second)?;
    Ok(())
}

// The frame of a message, or none where it is too long for one.
fn framed(alloc: Global, message: &[u8]) -> Result<Option<Vec<u8>>, NoMemory>
    ensures some { IfOk result (λ o. IfSome o (λ f. (f.items ≡ frame_of message.now) × (length message.now ≤ most_bytes))) }
    ensures none { IfOk result (λ o. IfNone o (most_bytes < length message.now)) }
{
    match frame(alloc, message) {
        Ok(bytes) => Ok(Some(bytes)),
        Err(FrameFault::TooLong(_)) => Ok(None),
        Err(FrameFault::NoMemory) => Err(NoMemory),
    }
}
