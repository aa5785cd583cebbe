ghost use Rattle.std.specs.Prelude.{◌≡◌, ◌⊎◌, IfOk, OnOk};
ghost use Rattle.px_pool.specs.Words.{IsInStep};

use anyhow::bail;
use px_callgraph::Job;
use px_entry::Table;
use px_pieces::Lost;
use px_pool::{Link, exchange};
use px_terms::Items;
use std::alloc::Global;
use std::sync::Wait;

/// What an exchange gave.
pub type Outcome = Result<Table, Lost>;

/// Asks for a job in a version over a link.
pub fn exchanged<R: Wait, K: Link>(
    rt: &R,
    alloc: Global,
    link: &mut K,
    job: &Job,
    version: u8,
) -> anyhow::Result<Outcome>
    requires step { IsInStep (K.told link.old) }
    requires version { (version ≡ 1) ⊎ (version ≡ 2) }
    ensures { IfOk result (λ outcome. OnOk outcome (IsInStep (K.told link.new))) }
{
    match exchange(rt, alloc, link, job, version) {
        Ok(piece) => {
            let (_, checked, drops) = piece.into_parts();
            let mut entries = Items::new(alloc);
            for checked in checked.into_vec() {
                entries.push(checked.into_entry())?;
            }
            Ok(Ok(Table { entries, drops }))
        }
        Err(Lost::NoMemory) => bail!("no memory"),
        Err(why) => Ok(Err(why)),
    }
}

/// What is printed of an outcome.
pub fn said(alloc: Global, outcome: &Outcome) -> anyhow::Result<String> {
    match outcome {
        Ok(table) => {
            let entries = table.entries.len();
            let drops = table.drops.len();
            Ok(format!(in alloc; "a table of {entries} entries and {drops} drops")?)
        }
        Err(why) => Ok(format!(in alloc; "{why:?}")?),
    }
}

/// Whether the link was found closed after so many bytes.
pub fn is_closed_after(outcome: &Outcome, bytes: u64) -> bool {
    match outcome {
        Ok(_) => false,
        Err(why) => *why == Lost::Closed(bytes),
    }
}
