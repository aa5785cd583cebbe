ghost use Rattle.std.specs.Prelude.{◌≡◌, ◌⊎◌, ◌-◌, ◌^◌, ◌≤◌, ◌++◌, ◌∷◌, [], min, length, IfOk};
ghost use Rattle.px_callgraph.specs.JobTree.{job_tree};
ghost use Rattle.px_frames.specs.Frames.{frame_of, most_bytes};
ghost use Rattle.px_wire.specs.Sinks.{IsWritten};
ghost use Rattle.px_wire.specs.Jobs.{limits_bytes, job_bytes};
ghost use Rattle.px_wire.specs.Messages.{request, reply, said_tree, tag_of, fields_bytes, message_bytes};
ghost use Rattle.px_wire.specs.Mentions.{terms_of};
ghost use Rattle.px_wire.specs.Versions.{message_tree, terms_bytes, shared_bytes, bytes_in};

use crate::message::{Message, SHARED, Said, VERSION};
use crate::sharing::request_terms;
use crate::sink_buffer::{finish, new_buffer};
use px_base::Limits;
use px_body_spelling::write_body;
use px_callgraph::Job;
use px_entry::{Derivation, Table};
use px_io::{Failed, Sink};
use px_spelling::{
    ByteCount, ByteList, InFull, Output, TermList, Terms, Wire, WireWith, write_items,
    write_items_with,
};
use px_terms::NoMemory;
use std::alloc::Global;

/// The bytes of a message. They spell it where it is in range.
pub fn encode(alloc: Global, message: &Message) -> Result<Vec<u8>, NoMemory>
    ensures { IfOk result (λ bytes. bytes.items ≡ bytes_in message.now.version (message_tree message.now)) }
{
    let mut bytes = Vec::new(alloc);
    let mut out = ByteList::new();
    write_message(message, &mut out, &mut bytes);
    if out.lost { Err(NoMemory) } else { Ok(bytes) }
}

/// The bytes of what is said, in version 1.
pub fn encode_full(alloc: Global, said: &Said) -> Result<Vec<u8>, NoMemory>
    ensures { IfOk result (λ bytes. bytes.items ≡ message_bytes (said_tree said.now)) }
{
    let mut bytes = Vec::new(alloc);
    let mut out = ByteList::new();
    write_full(said, &mut out, &mut bytes);
    if out.lost { Err(NoMemory) } else { Ok(bytes) }
}

/// The bytes of the request to analyse a job, in a version.
pub fn encode_request(alloc: Global, job: &Job, version: u8) -> Result<Vec<u8>, NoMemory>
    requires { (version ≡ 1) ⊎ (version ≡ 2) }
    ensures { IfOk result (λ bytes. bytes.items ≡ bytes_in version (request (job_tree job.now))) }
{
    if version == SHARED {
        encode_shared_request(alloc, job)
    } else {
        encode_full_request(alloc, job)
    }
}

// In version 1.
fn encode_full_request(alloc: Global, job: &Job) -> Result<Vec<u8>, NoMemory>
    ensures { IfOk result (λ bytes. bytes.items ≡ message_bytes (request (job_tree job.now))) }
{
    let mut bytes = Vec::new(alloc);
    let mut out = ByteList::new();
    write_request(job, &mut out, &mut bytes);
    if out.lost { Err(NoMemory) } else { Ok(bytes) }
}

// In version 2.
fn encode_shared_request(alloc: Global, job: &Job) -> Result<Vec<u8>, NoMemory>
    ensures { IfOk result (λ bytes. bytes.items ≡ shared_bytes (request (job_tree job.now))) }
{
    let terms = request_terms(alloc, job)?;
    let mut bytes = Vec::new(alloc);
    let mut out = ByteList::new();
    write_shared_request(&terms, job, &mut out, &mut bytes);
    if out.lost { Err(NoMemory) } else { Ok(bytes) }
}

/// How many bytes a message has, or 2^64 - 1 where it has more. Takes no memory.
pub fn length(message: &Message) -> u64
    ensures { result ≡ min (length (bytes_in message.now.version (message_tree message.now))) (2 ^ 64 - 1) }
{
    let mut count = 0;
    let mut out = ByteCount::new();
    write_message(message, &mut out, &mut count);
    count
}

/// Writes the frame of a message, in pieces of at most 4,096 bytes. After `Failed` a front of it was written. Takes no
/// memory.
pub fn write<K: Sink>(sink: &mut K, message: &Message) -> Result<(), Failed>
    requires { length (bytes_in message.now.version (message_tree message.now)) ≤ most_bytes }
    ensures { IsWritten K.told K.takes K.count sink.old (frame_of (bytes_in message.now.version (message_tree message.now))) result sink.new }
{
    write_counted(sink, message, frame_length(message))
}

/// The same, of a message whose bytes were counted.
pub fn write_counted<K: Sink>(sink: &mut K, message: &Message, count: u32) -> Result<(), Failed>
    requires counted { count ≡ length (bytes_in message.now.version (message_tree message.now)) }
    requires short { count ≤ most_bytes }
    ensures { IsWritten K.told K.takes K.count sink.old (frame_of (bytes_in message.now.version (message_tree message.now))) result sink.new }
{
    let mut out = new_buffer();
    count.write(&mut out, sink);
    write_message(message, &mut out, sink);
    finish(out, sink)
}

// How many bytes a message has that has room in a frame.
fn frame_length(message: &Message) -> u32
    requires { length (bytes_in message.now.version (message_tree message.now)) ≤ most_bytes }
    ensures { result ≡ length (bytes_in message.now.version (message_tree message.now)) }
{
    length(message) as u32
}

/// Puts the bytes of a message.
pub(crate) fn write_message<O: Output>(message: &Message, out: &mut O, target: &mut O::Target)
    ensures written { O.written out.new ≡ O.written out.old ++ bytes_in message.now.version (message_tree message.now) }
    ensures reached { (from : O.Target) → O.reaches from out.old target.old → O.reaches from out.new target.new }
{
    match message.terms() {
        None => write_full(message.said(), out, target),
        Some(terms) => write_shared(terms, message.said(), out, target),
    }
}

// Puts the bytes of a request in version 1.
fn write_request<O: Output>(job: &Job, out: &mut O, target: &mut O::Target)
    ensures written { O.written out.new ≡ O.written out.old ++ message_bytes (request (job_tree job.now)) }
    ensures reached { (from : O.Target) → O.reaches from out.old target.old → O.reaches from out.new target.new }
{
    write_head(0, VERSION, out, target);
    write_job(&InFull, job, out, target)
}

// Puts the bytes of a request in version 2, with these terms.
fn write_shared_request<O: Output>(terms: &TermList, job: &Job, out: &mut O, target: &mut O::Target)
    requires { terms.now ≡ terms_of (request (job_tree job.now)) }
    ensures written { O.written out.new ≡ O.written out.old ++ shared_bytes (request (job_tree job.now)) }
    ensures reached { (from : O.Target) → O.reaches from out.old target.old → O.reaches from out.new target.new }
{
    write_head(0, SHARED, out, target);
    write_items(terms.as_slice(), out, target);
    write_job(terms, job, out, target)
}

// Puts the bytes of version 1.
fn write_full<O: Output>(said: &Said, out: &mut O, target: &mut O::Target)
    ensures written { O.written out.new ≡ O.written out.old ++ message_bytes (said_tree said.now) }
    ensures reached { (from : O.Target) → O.reaches from out.old target.old → O.reaches from out.new target.new }
{
    write_head(tag(said), VERSION, out, target);
    write_fields(&InFull, said, out, target)
}

// Puts the bytes of version 2, with these terms.
fn write_shared<O: Output>(terms: &TermList, said: &Said, out: &mut O, target: &mut O::Target)
    requires { terms.now ≡ terms_of (said_tree said.now) }
    ensures written { O.written out.new ≡ O.written out.old ++ shared_bytes (said_tree said.now) }
    ensures reached { (from : O.Target) → O.reaches from out.old target.old → O.reaches from out.new target.new }
{
    write_head(tag(said), SHARED, out, target);
    write_list(terms, said, out, target);
    write_fields(terms, said, out, target)
}

// Puts the list of terms. That a reply is too long has none.
fn write_list<O: Output>(terms: &TermList, said: &Said, out: &mut O, target: &mut O::Target)
    requires { terms.now ≡ terms_of (said_tree said.now) }
    ensures written { O.written out.new ≡ O.written out.old ++ terms_bytes (said_tree said.now) }
    ensures reached { (from : O.Target) → O.reaches from out.old target.old → O.reaches from out.new target.new }
{
    match said {
        Said::Large { .. } => {}
        Said::Request { .. } | Said::Reply { .. } => write_items(terms.as_slice(), out, target),
    }
}

// Which message it is.
fn tag(said: &Said) -> u8
    ensures { result ≡ tag_of (said_tree said.now) }
{
    match said {
        Said::Request { .. } => 0,
        Said::Reply { .. } => 1,
        Said::Large { .. } => 2,
    }
}

// Puts the fields of a message.
fn write_fields<S: Terms, O: Output>(terms: &S, said: &Said, out: &mut O, target: &mut O::Target)
    ensures written { O.written out.new ≡ O.written out.old ++ fields_bytes (S.spelling terms.now) (said_tree said.now) }
    ensures reached { (from : O.Target) → O.reaches from out.old target.old → O.reaches from out.new target.new }
{
    match said {
        Said::Request { job } => write_job(terms, job, out, target),
        Said::Reply {
            ticket,
            kinds,
            table,
            derivations,
        } => write_reply(
            terms,
            *ticket,
            kinds.as_slice(),
            table,
            derivations.as_slice(),
            out,
            target,
        ),
        Said::Large { ticket } => ticket.write(out, target),
    }
}

fn write_reply<S: Terms, O: Output>(
    terms: &S,
    ticket: u64,
    kinds: &[u8],
    table: &Table,
    derivations: &[Derivation],
    out: &mut O,
    target: &mut O::Target,
)
    ensures written { O.written out.new ≡ O.written out.old ++ fields_bytes (S.spelling terms.now) (reply ticket kinds.now table.now derivations.now) }
    ensures reached { (from : O.Target) → O.reaches from out.old target.old → O.reaches from out.new target.new }
{
    ticket.write(out, target);
    write_items(kinds, out, target);
    table.write_with(terms, out, target);
    write_items(derivations, out, target)
}

// Which message it is, and the version.
fn write_head<O: Output>(tag: u8, version: u8, out: &mut O, target: &mut O::Target)
    ensures written { O.written out.new ≡ O.written out.old ++ tag ∷ version ∷ [] }
    ensures reached { (from : O.Target) → O.reaches from out.old target.old → O.reaches from out.new target.new }
{
    tag.write(out, target);
    version.write(out, target)
}

fn write_job<S: Terms, O: Output>(terms: &S, job: &Job, out: &mut O, target: &mut O::Target)
    ensures written { O.written out.new ≡ O.written out.old ++ job_bytes (S.spelling terms.now) (job_tree job.now) }
    ensures reached { (from : O.Target) → O.reaches from out.old target.old → O.reaches from out.new target.new }
{
    job.proc.write(out, target);
    write_body(&job.body, out, target);
    write_items(job.types.as_slice(), out, target);
    write_items_with(terms, job.callees.as_slice(), out, target);
    write_limits(job.limits, out, target);
    write_items(job.kinds.as_slice(), out, target);
    job.ticket.write(out, target)
}

fn write_limits<O: Output>(limits: Limits, out: &mut O, target: &mut O::Target)
    ensures written { O.written out.new ≡ O.written out.old ++ limits_bytes limits }
    ensures reached { (from : O.Target) → O.reaches from out.old target.old → O.reaches from out.new target.new }
{
    limits.unroll().write(out, target);
    limits.paths().write(out, target);
    limits.nodes().write(out, target)
}
