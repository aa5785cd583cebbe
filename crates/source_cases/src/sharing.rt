ghost use Rattle.px_parity.specs.Held.{Holds};

use crate::derivations::job;
use crate::programs::typed;
use anyhow::{Result, bail};
use px_base::{MOST_PARAMETERS, ProcId};
use px_explore::analyse;
use px_parity::Parity;
use px_terms::{Conj, Domain, Items, NoMemory, VarInfo};
use px_worker::{are_clear, are_kinds};
use std::alloc::Global;

// Parity, which has no memory where it is asked of a whole list.
#[derive(Drop)]
struct HeldAlone {
    parity: Parity,
}

impl Domain for HeldAlone {
    ghost number = { λ _. 2 };

    ghost holds = { λ s cs. Holds s.parity cs };

    fn kind(&self) -> u8 {
        self.parity.kind()
    }

    fn refutes(&mut self, _: &[VarInfo], _: &[Conj]) -> Result<bool, NoMemory> {
        Err(NoMemory)
    }

    fn is_clear(&self) -> bool {
        self.parity.is_clear()
    }

    fn push(&mut self, conjunct: &Conj) -> Result<(), NoMemory> {
        self.parity.push(conjunct)
    }

    fn pop(&mut self) {
        self.parity.pop();
    }

    fn refuted(&self) -> bool {
        self.parity.refuted()
    }
}

/// How many entries and drops the first function of a text has by an analysis whose domain has no memory where it is asked of a
/// whole list: it answers of what is pushed alone.
pub fn sharing_case(alloc: Global, text: &str) -> Result<String> {
    let program = typed(alloc, &[text])??;
    let mut job = job(alloc, &program, ProcId(0), Items::new(alloc))?;
    job.kinds.push(2)?;
    let mut domains: Vec<Box<dyn Domain>> = Vec::new(alloc);
    let domain = HeldAlone {
        parity: Parity::new(alloc),
    };
    domains.push(Box::new(alloc, domain)?)?;
    if !are_kinds(&domains, job.kinds.as_slice()) || !are_clear(&domains) {
        bail!("other domains");
    }
    if job.body.parameters.len() > MOST_PARAMETERS {
        bail!("too many parameters");
    }
    let table = analyse(alloc, &job, &mut domains)?.table;
    if !are_clear(&domains) {
        bail!("something is held");
    }
    let (entries, drops) = (table.entries.len(), table.drops.len());
    Ok(format!(in alloc; "entries {entries}, drops {drops}")?)
}
