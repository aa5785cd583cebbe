use anyhow::{Context, Result};
use px_book::Receipt;
use px_drivers::Leaving;
use px_pieces::{Event, Who};
use std::alloc::Global;
use std::fmt::Write;
use std::sync::ledger::Ledger;

/// What happened to the procedures of a book, and what rounds left.
#[derive(Drop)]
pub struct Account {
    pub events: Vec<Event>,
    pub by_workers: u64,
    pub by_parent: u64,
    pub lost: u64,
    /// How many publications all receipts count.
    pub receipts: u64,
    /// Who was left, by rising numbers.
    pub left: Vec<(u32, Leaving)>,
    /// How many links run.
    pub running: u64,
}

/// The account of a history, of receipts and of those that were left.
pub fn account_of<L: Ledger>(
    alloc: Global,
    history: &[Event],
    receipts: &[Receipt<L>],
    left: &[(u32, Leaving)],
    running: u64,
) -> Result<Account> {
    let mut account = Account {
        events: Vec::from_slice(alloc, history)?,
        by_workers: 0,
        by_parent: 0,
        lost: 0,
        receipts: 0,
        left: Vec::from_slice(alloc, left)?,
        running,
    };
    account.left.sort_by_key(|it| it.0)?;
    for event in history {
        count(&mut account, history, event)?;
    }
    for receipt in receipts {
        account.receipts = account.receipts.saturating_add(receipt.count());
    }
    Ok(account)
}

// Counts an event.
fn count(account: &mut Account, history: &[Event], event: &Event) -> Result<()> {
    match event {
        Event::Claim(_, _) => {}
        Event::Lose(_, _) => account.lost = account.lost.saturating_add(1),
        Event::Publish(ticket) => {
            let claim = history.get(usize::try_from(*ticket)?);
            match claim.context("no claim")? {
                Event::Claim(Who::Parent, _) => {
                    account.by_parent = account.by_parent.saturating_add(1);
                }
                _ => account.by_workers = account.by_workers.saturating_add(1),
            }
        }
    }
    Ok(())
}

/// What is counted, and who was left.
pub fn counts(alloc: Global, account: &Account) -> Result<String> {
    let mut out = format!(in alloc;
        "workers published {}, parent published {}, lost {}, receipts for {}",
        account.by_workers, account.by_parent, account.lost, account.receipts,
    )?;
    for (number, why) in &account.left {
        write!(out, ", {number} left for {why:?}")?;
    }
    write!(out, ", {} running", account.running)?;
    Ok(out)
}

/// What is counted, and, where there was one worker, all that happened, one after another: with more of them that is a matter
/// of time.
pub fn said(alloc: Global, account: &Account, workers: u32) -> Result<String> {
    let counts = counts(alloc, account)?;
    if workers != 1 {
        return Ok(counts);
    }
    let mut out = String::new(alloc);
    for event in &account.events {
        put_event(&mut out, event)?;
    }
    out.push_str(counts.as_str())?;
    Ok(out)
}

fn put_event(out: &mut String, event: &Event) -> Result<()> {
    match event {
        Event::Claim(Who::Parent, proc) => write!(out, "the parent claims {}; ", proc.0)?,
        Event::Claim(Who::Worker(number), proc) => write!(out, "{number} claims {}; ", proc.0)?,
        Event::Publish(ticket) => write!(out, "published {ticket}; ")?,
        Event::Lose(ticket, why) => write!(out, "lost {ticket}, {why:?}; ")?,
    }
    Ok(())
}
