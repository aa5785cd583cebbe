ghost use Rattle.std.specs.Prelude.{◌≡◌, ◌↔◌, true};
ghost use Rattle.px_base.specs.LimitNumbers.{IsInRange};
ghost use Rattle.px_callgraph.specs.JobTree.{job_tree};
ghost use Rattle.px_wire.specs.Jobs.{IsJob};
ghost use Rattle.px_wire.specs.Messages.{request, reply, said_tree, IsMessage};
ghost use Rattle.px_wire.specs.Versions.{message_tree, HasVersion};

use crate::decoding::ANY_TYPES;
use crate::job_ranges::is_job_within;
use crate::message::{Message, Said};
use crate::rising_kinds::do_kinds_rise;
use crate::table_ranges::is_table_within;
use px_base::Limits;
use px_body_spelling::is_body_in_range;
use px_callgraph::Job;
use px_entry::{Derivation, Table};
use px_spelling::{InFull, Terms, Wire, WireWith, are_in_range, are_in_range_with};

/// Whether a message is in range, so that its bytes spell it. Takes no memory.
pub fn is_in_range(message: &Message) -> bool
    ensures { result ≡ true ↔ IsMessage (message_tree message.now) × HasVersion message.now.version (message_tree message.now) }
{
    is_said_in_range(message.said()) && are_terms_few(message)
}

// Whether the terms of a message can be counted.
fn are_terms_few(message: &Message) -> bool
    ensures { result ≡ true ↔ HasVersion message.now.version (message_tree message.now) }
{
    match message.terms() {
        None => true,
        Some(terms) => terms.len() <= u32::MAX as usize,
    }
}

/// Whether what is said is in range, so that its bytes in version 1 spell it. Takes no memory.
pub fn is_said_in_range(said: &Said) -> bool
    ensures { result ≡ true ↔ IsMessage (said_tree said.now) }
{
    match said {
        Said::Request { job } => is_request_in_range(job),
        Said::Reply {
            ticket,
            kinds,
            table,
            derivations,
        } => is_reply_in_range(*ticket, kinds.as_slice(), table, derivations.as_slice()),
        Said::Large { ticket } => ticket.is_in_range(),
    }
}

/// Whether the request to analyse a job is in range. Takes no memory.
pub fn is_request_in_range(job: &Job) -> bool
    ensures { result ≡ true ↔ IsMessage (request (job_tree job.now)) }
{
    is_job_in_range(&InFull, job) && is_job_within(job)
}

fn is_reply_in_range(ticket: u64, kinds: &[u8], table: &Table, derivations: &[Derivation]) -> bool
    ensures { result ≡ true ↔ IsMessage (reply ticket kinds.now table.now derivations.now) }
{
    ticket.is_in_range()
        && are_in_range(u32::MAX, kinds)
        && table.is_in_range_with(&InFull)
        && are_in_range(u32::MAX, derivations)
        && do_kinds_rise(kinds)
        && is_table_within(ANY_TYPES, table)
}

fn is_job_in_range<S: Terms>(terms: &S, job: &Job) -> bool
    ensures { result ≡ true ↔ IsJob (S.spelling terms.now) (job_tree job.now) }
{
    job.proc.is_in_range()
        && is_body_in_range(&job.body)
        && are_in_range(u32::MAX, job.types.as_slice())
        && are_in_range_with(terms, u32::MAX, job.callees.as_slice())
        && are_limits_in_range(job.limits)
        && are_in_range(u32::MAX, job.kinds.as_slice())
        && job.ticket.is_in_range()
}

// The type keeps them so, but tells nobody.
fn are_limits_in_range(limits: Limits) -> bool
    ensures { result ≡ true ↔ IsInRange limits }
{
    Limits::new(limits.unroll(), limits.paths(), limits.nodes()).is_ok()
}
