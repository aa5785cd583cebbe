ghost use Rattle.std.specs.Prelude.{◌≡◌, ◌↔◌, true, IfOk, IsErrOf};
ghost use Rattle.px_callgraph.specs.JobTree.{job_tree};
ghost use Rattle.px_wire.specs.Messages.{Spells, reply};
ghost use Rattle.px_pieces.specs.declared.desk.Lost.{Lost as ALost};
ghost use Rattle.px_pieces.specs.Pieces.{AreOf, table_from};
ghost use Rattle.px_pool.specs.Outcomes.{GivesTable, IsFaultIn};

use crate::checks::check_all;
use px_callgraph::Job;
use px_check::Checked;
use px_entry::{Derivation, Gap, Table};
use px_pieces::Lost;
use px_spelling::WireFault;
use px_terms::Items;
use px_wire::{Said, decode_full};
use std::alloc::Global;

/// What a reply gives: its entries, each checked, and its drops.
#[derive(Drop)]
pub struct Answer {
    pub entries: Items<Checked>,
    pub drops: Items<Gap>,
}

/// What a message gives in reply to a job that was asked for in version 1.
pub fn answer_in(alloc: Global, job: &Job, message: &[u8]) -> Result<Answer, Lost>
    ensures jobs { IfOk result (λ a. AreOf (job_tree job.now) a.entries) }
    ensures table { IfOk result (λ a. GivesTable 1 (job_tree job.now) message.now (table_from a.entries a.drops)) }
    ensures fault { (why : ALost) → IsErrOf result why → IsFaultIn 1 (job_tree job.now) message.now why }
{
    let Reply { table, derivations } = reply_in(alloc, job, message)?;
    let Table { entries, drops } = table;
    let entries = check_all(alloc, job, entries, derivations.as_slice())?;
    Ok(Answer { entries, drops })
}

// A reply to a job by a worker of its kinds.
#[derive(Drop)]
struct Reply {
    table: Table,
    derivations: Items<Derivation>,
}

// The reply that a message is in version 1.
fn reply_in(alloc: Global, job: &Job, message: &[u8]) -> Result<Reply, Lost>
    ensures reply { IfOk result (λ r. Spells message.now (reply job.now.ticket job.now.kinds r.table r.derivations)) }
    ensures fault { (why : ALost) → IsErrOf result why → IsFaultIn 1 (job_tree job.now) message.now why }
{
    match decode_full(alloc, message) {
        Ok(
            Said::Reply {
                ticket,
                kinds,
                table,
                derivations,
            },
        ) => {
            if ticket != job.ticket {
                return Err(Lost::Ticket {
                    asked: job.ticket,
                    given: ticket,
                });
            }
            if !are_kinds(kinds.as_slice(), job.kinds.as_slice()) {
                return Err(Lost::Kinds);
            }
            Ok(Reply { table, derivations })
        }
        Ok(Said::Large { ticket }) => {
            if ticket != job.ticket {
                return Err(Lost::Ticket {
                    asked: job.ticket,
                    given: ticket,
                });
            }
            Err(Lost::Large)
        }
        Ok(Said::Request { .. }) => Err(Lost::Frame),
        Err(WireFault::NotAMessage) => Err(Lost::Frame),
        Err(WireFault::NoMemory) => Err(Lost::NoMemory),
    }
}

/// Whether these are the same kinds.
pub(crate) fn are_kinds(a: &[u8], b: &[u8]) -> bool
    ensures { result ≡ true ↔ a.now ≡ b.now }
{
    a == b
}
