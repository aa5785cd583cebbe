ghost use Rattle.std.specs.Prelude.{◌≡◌, ◌≤◌, length, IfOk};
ghost use Rattle.px_calls.specs.Calls.{calling_of, stage_of, call_of, IsSameMatching};

use px_base::{ProcId, Site};
use px_callgraph::State;
use px_entry::Entry;
use px_terms::{Content, Items, NoMemory, Var};
use std::alloc::Global;

/// A call that is going on: where its result goes, who is called with what, and where.
#[derive(Drop)]
pub struct Calling {
    pub to: Option<u32>,
    pub proc: ProcId,
    pub arguments: Items<Content>,
    pub site: Site,
}

/// How an entry of the callee is met by what the caller knows.
#[derive(Drop)]
pub struct Matching<'a> {
    pub entry: &'a Entry,
    /// What variables of the entry stand for.
    pub substitution: Vec<(Var, Content)>,
    /// How many of the blocks that the entry requires are met.
    pub met: usize,
    /// The numbers of the caller's atoms that they are, in order.
    pub used: Vec<u32>,
}

/// How far a call is.
#[derive(Drop)]
pub enum Stage<'a> {
    /// An entry is to be chosen.
    Choosing,
    /// One was chosen.
    Matching(Matching<'a>),
    /// One that isn't regular or doesn't fit the arguments was chosen.
    Unfit,
}

/// A call, and how far it is.
#[derive(Drop)]
pub struct Call<'a> {
    pub calling: Calling,
    pub stage: Stage<'a>,
}

/// Where a call is after an act. Where there is none any more it is over, and the caller's body goes on.
#[derive(Drop)]
pub struct CallProgress<'a> {
    pub state: State,
    pub call: Option<Call<'a>>,
}

/// A call that is as far as this one.
pub fn copy_call<'a>(alloc: Global, call: &Call<'a>) -> Result<Call<'a>, NoMemory>
    ensures { IfOk result (λ copy. call_of copy ≡ call_of call.now) }
{
    Ok(Call {
        calling: copy_calling(alloc, &call.calling)?,
        stage: copy_stage(alloc, &call.stage)?,
    })
}

fn copy_calling(alloc: Global, calling: &Calling) -> Result<Calling, NoMemory>
    ensures { IfOk result (λ copy. calling_of copy ≡ calling_of calling.now) }
{
    Ok(Calling {
        to: calling.to,
        proc: calling.proc,
        arguments: calling.arguments.copy(alloc)?,
        site: calling.site,
    })
}

fn copy_stage<'a>(alloc: Global, stage: &Stage<'a>) -> Result<Stage<'a>, NoMemory>
    ensures { IfOk result (λ copy. stage_of copy ≡ stage_of stage.now) }
{
    Ok(match stage {
        Stage::Choosing => Stage::Choosing,
        Stage::Matching(matching) => Stage::Matching(copy_matching(alloc, matching)?),
        Stage::Unfit => Stage::Unfit,
    })
}

fn copy_matching<'a>(alloc: Global, matching: &Matching<'a>) -> Result<Matching<'a>, NoMemory>
    ensures { IfOk result (λ copy. IsSameMatching copy matching.now) }
{
    Ok(Matching {
        entry: matching.entry,
        substitution: copy_substitution(alloc, &matching.substitution)?,
        met: matching.met,
        used: Vec::from_slice(alloc, &matching.used)?,
    })
}

/// Contents that stand for variables, once more.
pub(crate) fn copy_substitution(
    alloc: Global,
    substitution: &[(Var, Content)],
) -> Result<Vec<(Var, Content)>, NoMemory>
    ensures { IfOk result (λ copy. copy.items ≡ substitution.now) }
{
    let mut copy = Vec::new(alloc);
    for (x, content) in substitution {
        copy.push((*x, content.copy()?))?;
    }
    Ok(copy)
}
