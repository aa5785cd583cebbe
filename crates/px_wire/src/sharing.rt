ghost use Rattle.std.specs.Prelude.{◌≡◌, ◌↔◌, ◌++◌, true, map, IfOk, OnOk};
ghost use Rattle.std.specs.List.{flat_map};
ghost use Rattle.px_callgraph.specs.JobTree.{job_tree};
ghost use Rattle.px_spelling.specs.Mentions.{callee_mentions};
ghost use Rattle.px_wire.specs.Messages.{said_tree, request};
ghost use Rattle.px_wire.specs.Mentions.{mentions, terms_of};

use crate::message::{Message, Said};
use px_base::ProcId;
use px_callgraph::{Callee, Job};
use px_spelling::{Mentions, TermList, distinct};
use px_terms::{NoMemory, Poly};
use std::alloc::Global;

/// The same message in version 2. Where there is no memory for the list of its terms, it is gone.
pub fn share(message: Message) -> Result<Message, NoMemory>
    ensures { IfOk result (λ m. m ≡ record { version = 2; said = message.said }) }
{
    let alloc = message.alloc();
    let said = message.into_said();
    let terms = terms_in(alloc, &said)?;
    Ok(Message::with_terms(alloc, said, terms))
}

// The terms of what is said.
fn terms_in(alloc: Global, said: &Said) -> Result<TermList, NoMemory>
    ensures { IfOk result (λ ts. ts ≡ terms_of (said_tree said.now)) }
{
    let mut all = Vec::new(alloc);
    add_mentions(said, &mut all)?;
    distinct(alloc, &all)
}

/// The terms of the request to analyse a job.
pub(crate) fn request_terms(alloc: Global, job: &Job) -> Result<TermList, NoMemory>
    ensures { IfOk result (λ ts. ts ≡ terms_of (request (job_tree job.now))) }
{
    let mut all = Vec::new(alloc);
    add_callee_mentions(job.callees.as_slice(), &mut all)?;
    let terms = distinct(alloc, &all)?;
    Ok(terms)
}

/// Whether these are the terms of what is said.
pub(crate) fn are_terms(alloc: Global, terms: &TermList, said: &Said) -> Result<bool, NoMemory>
    ensures { IfOk result (λ is. is ≡ true ↔ terms_of (said_tree said.now) ≡ terms.now) }
{
    let mut all = Vec::new(alloc);
    add_mentions(said, &mut all)?;
    Ok(terms.lists(&all))
}

// Adds what is mentioned in what is said.
fn add_mentions<'a>(said: &'a Said, all: &mut Vec<&'a Poly>) -> Result<(), NoMemory>
    ensures { OnOk result (map (λ p. p.now) all.new.items ≡ map (λ p. p.now) all.old.items ++ mentions (said_tree said.now)) }
{
    match said {
        Said::Request { job } => add_callee_mentions(job.callees.as_slice(), all),
        Said::Reply { table, .. } => table.add_mentions(all),
        Said::Large { .. } => Ok(()),
    }
}

// Adds what callees mention.
fn add_callee_mentions<'a>(
    callees: &'a [(ProcId, Callee)],
    all: &mut Vec<&'a Poly>,
) -> Result<(), NoMemory>
    ensures { OnOk result (map (λ p. p.now) all.new.items ≡ map (λ p. p.now) all.old.items ++ flat_map (λ c. callee_mentions c.1) callees.now) }
{
    for callee in callees {
        callee.1.add_mentions(all)?;
    }
    Ok(())
}
