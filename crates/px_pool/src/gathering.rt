ghost use Rattle.std.specs.Prelude.{◌≡◌, ◌↔◌, ◌++◌, ◌∷◌, [], true, List, ℕ, OnOk, IfSome, IfNone};
ghost use Rattle.px_callgraph.specs.JobTree.{JobTree, job_tree};
ghost use Rattle.px_parts.specs.declared.part.Part.{Part as APart};
ghost use Rattle.px_parts.specs.declared.part.Part.TheVariants as part_of;
ghost use Rattle.px_pool.specs.Gathering.{IsGathered, IsOpen, IsStanding, IsGatheredOn, Tells};

use crate::answers::{Answer, are_kinds};
use crate::judging::{Refusal, judge};
use px_callgraph::Job;
use px_check::Checked;
use px_entry::{Derivation, Entry, Gap};
use px_parts::Part;
use px_pieces::Lost;
use px_terms::{Items, NoMemory};
use std::alloc::Global;
use std::collections::VecDeque;

/// What a reply to a job gave so far. Each entry is checked when its derivation comes, and those after one that fails aren't.
#[derive(Drop)]
pub(crate) struct Gathering {
    /// Entries whose derivations didn't come.
    pub(crate) pending: VecDeque<Entry>,
    pub(crate) checked: Items<Checked>,
    pub(crate) drops: Items<Gap>,
    pub(crate) refused: Option<Refusal>,
}

/// What is known of a reply by its parts.
#[derive(Drop)]
pub(crate) enum Standing {
    /// None came.
    Unbegun,
    /// It is a reply to the job, as far as it came.
    Open(Gathering),
    /// If it is a message, it gives no table, for this cause.
    Lost(Lost),
}

/// What is known where one part more came of a message that was asked for in a version.
pub(crate) fn put(alloc: Global, job: &Job, version: u8, standing: Standing, part: Part) -> Standing
    ensures { (parts : List APart) → IsStanding version (job_tree job.now) parts standing → IsStanding version (job_tree job.now) (parts ++ part ∷ []) result }
{
    match standing {
        Standing::Unbegun => begin(alloc, job, version, part),
        Standing::Open(gathering) => go_on(alloc, job, gathering, part),
        Standing::Lost(why) => Standing::Lost(why),
    }
}

// ---- the first part

// What is known by the first part. In the other version it is none that was asked for.
fn begin(alloc: Global, job: &Job, version: u8, part: Part) -> Standing
    ensures { IsStanding version (job_tree job.now) (part ∷ []) result }
{
    match part {
        Part::Head {
            version: own,
            ticket,
            kinds,
        } => {
            if own != version {
                return Standing::Lost(Lost::Frame);
            }
            begin_reply(alloc, job, ticket, &kinds)
        }
        Part::Large {
            version: own,
            ticket,
        } => {
            if own != version {
                return Standing::Lost(Lost::Frame);
            }
            begin_large(job, ticket)
        }
        _ => Standing::Lost(Lost::Frame),
    }
}

// The same, where it stands before the table of a reply, in the version that was asked for.
fn begin_reply(alloc: Global, job: &Job, ticket: u64, kinds: &Items<u8>) -> Standing
    ensures { (v : ℕ) → IsStanding v (job_tree job.now) (part_of.Head v ticket kinds.now ∷ []) result }
{
    if !is_asked(job, ticket) {
        return Standing::Lost(Lost::Ticket {
            asked: job.ticket,
            given: ticket,
        });
    }
    if !are_kinds(kinds.as_slice(), job.kinds.as_slice()) {
        return Standing::Lost(Lost::Kinds);
    }
    Standing::Open(nothing_yet(alloc))
}

// The same, where it says that the reply is too long.
fn begin_large(job: &Job, ticket: u64) -> Standing
    ensures { (v : ℕ) → IsStanding v (job_tree job.now) (part_of.Large v ticket ∷ []) result }
{
    if !is_asked(job, ticket) {
        return Standing::Lost(Lost::Ticket {
            asked: job.ticket,
            given: ticket,
        });
    }
    Standing::Lost(Lost::Large)
}

fn is_asked(job: &Job, ticket: u64) -> bool
    ensures { result ≡ true ↔ ticket ≡ job.now.ticket }
{
    ticket == job.ticket
}

#[tactic(auto, using(crate::proofs::GatheringLemmas::nothing_gathered))]
fn nothing_yet(alloc: Global) -> Gathering
    ensures { (j : JobTree) → IsGathered j [] [] [] result }
{
    Gathering {
        pending: VecDeque::new(alloc),
        checked: Items::new(alloc),
        drops: Items::new(alloc),
        refused: None,
    }
}

// ---- one part more of a reply

fn go_on(alloc: Global, job: &Job, gathering: Gathering, part: Part) -> Standing
    ensures { (v : ℕ) (parts : List APart) → IsOpen v (job_tree job.now) parts gathering → IsStanding v (job_tree job.now) (parts ++ part ∷ []) result }
{
    match gather(alloc, job, gathering, part) {
        Ok(more) => Standing::Open(more),
        Err(why) => Standing::Lost(why),
    }
}

// What a reply gave where one part more came.
fn gather(alloc: Global, job: &Job, gathering: Gathering, part: Part) -> Result<Gathering, Lost>
    ensures { IsGatheredOn (job_tree job.now) gathering part result }
{
    match part {
        Part::Entry(entry) => add_entry(job, gathering, entry),
        Part::Drop(gap) => add_drop(job, gathering, gap),
        Part::Derivation(derivation) => derive(alloc, job, gathering, &derivation),
        _ => Ok(gathering),
    }
}

// The same, where an entry came: it waits for its derivation.
fn add_entry(job: &Job, gathering: Gathering, entry: Entry) -> Result<Gathering, Lost>
    ensures { IsGatheredOn (job_tree job.now) gathering (part_of.Entry entry) result }
{
    let Gathering {
        mut pending,
        checked,
        drops,
        refused,
    } = gathering;
    let Ok(()) = wait(&mut pending, entry) else {
        return Err(Lost::NoMemory);
    };
    Ok(Gathering {
        pending,
        checked,
        drops,
        refused,
    })
}

// The same, where a drop came.
fn add_drop(job: &Job, gathering: Gathering, gap: Gap) -> Result<Gathering, Lost>
    ensures { IsGatheredOn (job_tree job.now) gathering (part_of.Drop gap) result }
{
    let Gathering {
        pending,
        checked,
        mut drops,
        refused,
    } = gathering;
    let Ok(()) = drops.push(gap) else {
        return Err(Lost::NoMemory);
    };
    Ok(Gathering {
        pending,
        checked,
        drops,
        refused,
    })
}

// The same, where a derivation came: the next entry is checked by it.
fn derive(
    alloc: Global,
    job: &Job,
    gathering: Gathering,
    derivation: &Derivation,
) -> Result<Gathering, Lost>
    ensures { IsGatheredOn (job_tree job.now) gathering (part_of.Derivation derivation.now) result }
{
    let Gathering {
        mut pending,
        mut checked,
        drops,
        refused,
    } = gathering;
    let Some(entry) = next(&mut pending) else {
        return Err(Lost::Refused { entry: 0, step: 0 });
    };
    let Ok(refused) = judge(alloc, job, &mut checked, refused, entry, derivation) else {
        return Err(Lost::NoMemory);
    };
    Ok(Gathering {
        pending,
        checked,
        drops,
        refused,
    })
}

// ---- entries whose derivations didn't come

fn wait(pending: &mut VecDeque<Entry>, entry: Entry) -> Result<(), NoMemory>
    ensures { OnOk result (pending.new.items ≡ pending.old.items ++ entry ∷ []) }
{
    pending.push_back(entry)?;
    Ok(())
}

fn next(pending: &mut VecDeque<Entry>) -> Option<Entry>
    ensures some { IfSome result (λ entry. pending.old.items ≡ entry ∷ pending.new.items) }
    ensures none { IfNone result (pending.old.items ≡ []) }
{
    match pending.pop_front() {
        Some(entry) => Some(entry),
        None => None,
    }
}

fn none_wait(pending: &VecDeque<Entry>) -> bool
    ensures { result ≡ true ↔ pending.now.items ≡ [] }
{
    pending.is_empty()
}

// ---- all parts

/// What a message gives that these parts are of.
pub(crate) fn finish(standing: Standing) -> Result<Answer, Lost>
    ensures { (v : ℕ) (j : JobTree) (parts : List APart) → IsStanding v j parts standing → Tells v j parts result }
{
    match standing {
        Standing::Unbegun => Err(Lost::Frame),
        Standing::Open(gathering) => close(gathering),
        Standing::Lost(why) => Err(why),
    }
}

fn close(gathering: Gathering) -> Result<Answer, Lost>
    ensures { (v : ℕ) (j : JobTree) (parts : List APart) → IsOpen v j parts gathering → Tells v j parts result }
{
    let Gathering {
        pending,
        checked,
        drops,
        refused,
    } = gathering;
    if !none_wait(&pending) {
        return Err(Lost::Refused { entry: 0, step: 0 });
    }
    match refused {
        Some(refusal) => Err(Lost::Refused {
            entry: refusal.entry,
            step: refusal.step,
        }),
        None => Ok(Answer {
            entries: checked,
            drops,
        }),
    }
}
