ghost use Rattle.std.specs.Prelude.{◌≡◌, ◌≤◌, length, map, IfOk, IfSome, [], All};
ghost use Rattle.std.specs.List.{AllByRecursion};
ghost use Rattle.px_base.specs.Bounds.{most_parameters};
ghost use Rattle.px_syntax.specs.ProgramTree.{program_tree};
ghost use Rattle.px_findings.specs.Bodies.{CallsNamed};
ghost use Rattle.px_findings.specs.Found.{AreFoundBy};
ghost use Rattle.px_pooled.specs.Words.{word_of, Gave, IsBorneOut};
ghost use Rattle.px_pooled.specs.Making.{ArePartsOf};

use crate::parts::{Parts, parts_of};
use crate::shared::{alone, with_workers};
use px_base::Limits;
use px_pieces::Findings;
use px_pool::{Link, Spawner};
use px_syntax::Program;
use px_terms::{Domain, NoMemory};
use std::alloc::Global;
use std::marker::Brand;
use std::sync::Wait;
use std::sync::ledger::Blank;
use std::thread::Threads;

/// Who helps with a program: so many workers, each of which runs the program of this name where it is a child.
#[derive(Drop)]
pub struct Pool {
    pub workers: u32,
    pub program: Option<String>,
}

/// What is found out of a program within these limits, with the help of these domains, by the workers of a pool and the
/// parent, and the events that led there. It may wait for workers for ever.
pub fn pooled_findings<R: Threads + Wait + Sync, S: Spawner>(
    rt: &R,
    alloc: Global,
    program: &Program,
    limits: Limits,
    pool: &Pool,
    spawner: &mut S,
    domains: &mut Vec<Box<dyn Domain>>,
) -> Result<Findings, NoMemory>
    requires few { AllByRecursion (λ p. length p.parameters ≤ most_parameters) (program_tree program.now).procedures }
    requires named { CallsNamed (program_tree program.now) }
    requires clear { All (λ b. holds b []) domains.old.items }
    ensures found { IfOk result (λ f. AreFoundBy (word_of pool.now.workers S.Link.Word.says) (program_tree program.now) limits (map (λ b. number b) domains.old.items) f) }
    ensures borne_out { IfOk result (λ f. IsBorneOut pool.now.workers (S.told spawner.old) (S.told spawner.new) f) }
    ensures running { S.links spawner.new ≡ S.links spawner.old }
    ensures unasked { pool.now.workers ≡ 0 → spawner.new ≡ spawner.old }
    ensures clear { All (λ b. holds b []) domains.new.items }
    ensures kinds { map (λ b. number b) domains.new.items ≡ map (λ b. number b) domains.old.items }
{
    let own = parts_of(alloc, program, limits, domains)?;
    if let Some(findings) = helped(rt, alloc, program, limits, &own, pool, spawner, domains)? {
        return Ok(findings);
    }
    let blank = Blank::new(u64::from(own.desk.kept) + 1);
    alone::<Brand>(alloc, blank, own, domains)
}

// What the workers of a pool and the parent find over one book; none, where there are no workers, or the book counts as
// no work.
fn helped<R: Threads + Wait + Sync, S: Spawner>(
    rt: &R,
    alloc: Global,
    program: &Program,
    limits: Limits,
    own: &Parts,
    pool: &Pool,
    spawner: &mut S,
    domains: &mut Vec<Box<dyn Domain>>,
) -> Result<Option<Findings>, NoMemory>
    requires few { AllByRecursion (λ p. length p.parameters ≤ most_parameters) (program_tree program.now).procedures }
    requires named { CallsNamed (program_tree program.now) }
    requires own { ArePartsOf (program_tree program.now) limits (map (λ b. number b) domains.old.items) own.now }
    requires clear { All (λ b. holds b []) domains.old.items }
    ensures found { IfOk result (λ o. IfSome o (λ f. AreFoundBy (word_of pool.now.workers S.Link.Word.says) (program_tree program.now) limits (map (λ b. number b) domains.old.items) f)) }
    ensures borne_out { IfOk result (λ o. IfSome o (λ f. IsBorneOut pool.now.workers (S.told spawner.old) (S.told spawner.new) f)) }
    ensures running { S.links spawner.new ≡ S.links spawner.old }
    ensures told { Gave (S.told spawner.old) (S.told spawner.new) 0 }
    ensures unasked { pool.now.workers ≡ 0 → spawner.new ≡ spawner.old }
    ensures clear { All (λ b. holds b []) domains.new.items }
    ensures kinds { map (λ b. number b) domains.new.items ≡ map (λ b. number b) domains.old.items }
{
    if pool.workers == 0 {
        return Ok(None);
    }
    let parts = parts_of(alloc, program, limits, domains)?;
    let blank = Blank::new(u64::from(parts.desk.kept) + 1);
    with_workers::<Brand, R, S>(rt, alloc, blank, own, parts, pool, spawner, domains)
}
