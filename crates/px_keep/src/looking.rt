ghost use Rattle.std.specs.Prelude.{◌≡◌, ◌<◌, ℕ, List, false, map, IfOk, IfSome, IfNone};
ghost use Rattle.px_callgraph.specs.JobTree.{JobTree, job_tree};
ghost use Rattle.px_pieces.specs.Pieces.{AreOf, table_from};
ghost use Rattle.px_pool.specs.Outcomes.{IsFaultIn};
ghost use Rattle.px_pool.specs.Laws.{IsShown};
ghost use Rattle.px_wire.specs.Messages.{message_bytes, request, IsMessage};
ghost use Rattle.px_keep.specs.Lent.{item_of, AreLent};
ghost use Rattle.px_keep.specs.Looking.{AreKeys};
ghost use Rattle.px_keep.specs.Good.{IsGood, IsNoGood, IsFirstGood, AreNoGood};

use crate::kept::LentItem;
use crate::lent::are_same;
use px_callgraph::Job;
use px_chains::Chains;
use px_pieces::Lost;
use px_pool::{Answer, answer_in};
use px_terms::NoMemory;
use px_wire::{VERSION, encode_request, is_request_in_range};
use std::alloc::Global;

/// The items by the numbers of their procedures, so that those of one are found without a look at the others: first items are
/// last in the chains. So many procedures are kept.
pub(crate) fn keys_of(alloc: Global, items: &[LentItem<'_>], kept: u32) -> Result<Chains, NoMemory>
    ensures { IfOk result (λ c. AreKeys items.now kept c) }
{
    let mut chains = Chains::new(alloc);
    for place in 0..items.len() {
        chains.push(items[items.len() - 1 - place].proc.min(kept))?;
    }
    Ok(chains)
}

/// What the first item gives that is good for a job under ticket 0 of a kept procedure, if there is one.
pub(crate) fn first_good(
    alloc: Global,
    items: &[LentItem<'_>],
    chains: &Chains,
    kept: u32,
    job: &Job,
) -> Result<Option<Answer>, NoMemory>
    requires lent { AreLent items.now }
    requires keys { AreKeys items.now kept chains.now }
    requires proc { job.now.proc.0 < kept }
    requires ticket { job.now.ticket ≡ 0 }
    ensures of { IfOk result (λ o. IfSome o (λ a. AreOf (job_tree job.now) a.entries)) }
    ensures first { IfOk result (λ o. IfSome o (λ a. IsFirstGood (job_tree job.now) (map item_of items.now) (table_from a.entries a.drops))) }
    ensures none { IfOk result (λ o. IfNone o (AreNoGood (job_tree job.now) (map item_of items.now))) }
{
    if !is_request_in_range(job) {
        return Ok(None);
    }
    let asked = encode_request(alloc, job, VERSION)?;
    let mut end = chains.end_of(job.proc.0);
    while end > 0 {
        if let Some(answer) = good_in(alloc, &items[items.len() - end], job, &asked)? {
            return Ok(Some(answer));
        }
        end = chains.end_before(end - 1);
    }
    Ok(None)
}

// What an item gives for a job under ticket 0 with this request, if it is good for it.
fn good_in(
    alloc: Global,
    item: &LentItem<'_>,
    job: &Job,
    asked: &[u8],
) -> Result<Option<Answer>, NoMemory>
    requires ticket { job.now.ticket ≡ 0 }
    requires asked { asked.now ≡ message_bytes (request (job_tree job.now)) }
    requires range { IsMessage (request (job_tree job.now)) }
    ensures of { IfOk result (λ o. IfSome o (λ a. AreOf (job_tree job.now) a.entries)) }
    ensures good { IfOk result (λ o. IfSome o (λ a. IsGood (job_tree job.now) (item_of item.now) (table_from a.entries a.drops))) }
    ensures none { IfOk result (λ o. IfNone o (IsNoGood (job_tree job.now) (item_of item.now))) }
{
    if !are_same(item.asked, asked) {
        return Ok(None);
    }
    match answer_in(alloc, job, item.given) {
        Ok(answer) => Ok(Some(answer)),
        Err(why) => {
            if is_memory(why) {
                Err(NoMemory)
            } else {
                Ok(None)
            }
        }
    }
}

// Whether memory ran out, and not a message is at fault.
fn is_memory(why: Lost) -> bool
    ensures { result ≡ false → (j : JobTree) (m : List ℕ) → IsFaultIn 1 j m why → IsShown why }
{
    match why {
        Lost::NoMemory => true,
        Lost::Send => false,
        Lost::Read => false,
        Lost::Closed(_) => false,
        Lost::Frame => false,
        Lost::Ticket { .. } => false,
        Lost::Kinds => false,
        Lost::Refused { .. } => false,
        Lost::Large => false,
    }
}
