ghost use Rattle.std.specs.Prelude.{◌≡◌, ◌-◌, ◌≤◌, ◌++◌, ◌∷◌, [], List, ℕ, length, true, ◌↔◌};
ghost use Rattle.px_callgraph.specs.JobTree.{JobTree, job_tree};
ghost use Rattle.px_parts.specs.declared.part.Part.{Part as APart};
ghost use Rattle.px_parts.specs.declared.part.Part.TheVariants as part_of;
ghost use Rattle.px_parts.specs.Taking.{Waiting};
ghost use Rattle.px_parts.specs.Following.{HasGiven};
ghost use Rattle.px_pool.specs.Gathering.{IsStanding, IsTurn, StandsAfter, IsFed, IsOutcome};

use crate::answers::Answer;
use crate::gathering::{Standing, finish, put};
use px_callgraph::Job;
use px_parts::{Part, Reader, Taken};
use px_pieces::Lost;
use px_spelling::WireFault;
use std::alloc::Global;

/// What a part that was taken is, and what is known then.
#[derive(Drop)]
pub(crate) enum Turn {
    /// No part: more bytes are wanted.
    Held(Standing),
    /// None: all came.
    Ended(Standing),
    More(Standing),
}

/// What is known of a reply by bytes that came.
#[derive(Drop)]
pub(crate) enum Fed {
    /// More are wanted.
    Open(Standing),
    /// However the others are, this is what it gives.
    Done(Result<Answer, Lost>),
}

/// Takes one piece more of a reply that was asked for in a version, and all parts that are whole then.
pub(crate) fn feed(
    alloc: Global,
    job: &Job,
    version: u8,
    reader: &mut Reader,
    standing: Standing,
    piece: &[u8],
) -> Fed
    ensures { (bytes : List ℕ) (left : ℕ) (parts : List APart) → HasGiven bytes left parts reader.old → IsStanding version (job_tree job.now) parts standing → length piece.now ≤ left → IsFed version (job_tree job.now) (bytes ++ piece.now) (left - length piece.now) reader.new result }
{
    let mut standing = standing;
    let mut rest = piece;
    loop {
        match reader.take(rest) {
            Ok(answer) => {
                let Taken { part, .. } = answer;
                match turn_by(alloc, job, version, standing, part) {
                    Turn::Held(last) => return Fed::Open(last),
                    Turn::Ended(last) => return Fed::Done(finish(last)),
                    Turn::More(next) => {
                        standing = next;
                        rest = &[];
                    }
                }
            }
            Err(WireFault::NotAMessage) => return Fed::Done(Err(Lost::Frame)),
            Err(WireFault::NoMemory) => return Fed::Done(Err(Lost::NoMemory)),
        }
    }
}

/// The same, where this is known.
pub(crate) fn feed_more(
    alloc: Global,
    job: &Job,
    version: u8,
    reader: &mut Reader,
    fed: Fed,
    piece: &[u8],
) -> Fed
    ensures { (bytes : List ℕ) (left : ℕ) → IsFed version (job_tree job.now) bytes left reader.old fed → length piece.now ≤ left → IsFed version (job_tree job.now) (bytes ++ piece.now) (left - length piece.now) reader.new result }
{
    match fed {
        Fed::Open(standing) => feed(alloc, job, version, reader, standing, piece),
        Fed::Done(answer) => Fed::Done(answer),
    }
}

/// What a message gives, where all its bytes came.
pub(crate) fn outcome(fed: Fed) -> Result<Answer, Lost>
    ensures { (v : ℕ) (j : JobTree) (bytes : List ℕ) (w : Waiting) → IsFed v j bytes 0 w fed → IsOutcome v j bytes result }
{
    match fed {
        Fed::Open(_) => Err(Lost::Frame),
        Fed::Done(answer) => answer,
    }
}

// What a part is, and what is known then.
fn turn_by(alloc: Global, job: &Job, version: u8, standing: Standing, part: Part) -> Turn
    ensures turn { IsTurn part result }
    ensures standing { (parts : List APart) → IsStanding version (job_tree job.now) parts standing → StandsAfter version (job_tree job.now) parts part result }
{
    if is_held(&part) {
        return Turn::Held(standing);
    }
    if is_end(&part) {
        return Turn::Ended(standing);
    }
    Turn::More(put(alloc, job, version, standing, part))
}

fn is_held(part: &Part) -> bool
    ensures { result ≡ true ↔ part.now ≡ part_of.Held }
{
    match part {
        Part::Held => true,
        _ => false,
    }
}

fn is_end(part: &Part) -> bool
    ensures { result ≡ true ↔ part.now ≡ part_of.End }
{
    match part {
        Part::End => true,
        _ => false,
    }
}
