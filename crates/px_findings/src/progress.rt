ghost use Rattle.std.specs.Prelude.{◌≡◌, ◌≢◌, ◌<◌, ◌+◌, ℕ, length, map, set, Some, slice_get, OnOk, [], All};
ghost use Rattle.px_symexec.specs.One.{Work};
ghost use Rattle.px_findings.specs.Making.{AreUnderWay};

use crate::bodies::empty_body;
use crate::exploration::{Analysed, Exploration};
use crate::jobs::{Shared, part_of};
use crate::order::Turn;
use crate::plan::Plan;
use px_base::ProcId;
use px_core::Body;
use px_pieces::Part;
use px_terms::{Domain, NoMemory};
use std::alloc::Global;
use std::mem::replace;

/// The bodies of the procedures that are still to be analysed, and the parts of the others, each at its procedure's number.
/// How a table was found is kept of those procedures for which there is a place.
#[derive(Drop)]
pub(crate) struct Progress {
    pub(crate) bodies: Vec<Body>,
    pub(crate) parts: Vec<Part>,
    pub(crate) explorations: Vec<Option<Exploration>>,
    pub(crate) shared: Shared,
}

/// Makes the part of the procedure whose turn is at this place, where those before it have theirs.
pub(crate) fn make_part(
    alloc: Global,
    plan: &Plan,
    order: &[Turn],
    place: usize,
    progress: &mut Progress,
    domains: &mut Vec<Box<dyn Domain>>,
) -> Result<(), NoMemory>
    requires place { place < length order.now }
    requires under_way { (w : Work) × AreUnderWay w plan.now order.now progress.old place }
    requires kinds { map (λ b. number b) domains.old.items ≡ progress.old.shared.kinds }
    requires clear { All (λ b. holds b []) domains.old.items }
    ensures made { OnOk result ((w : Work) → AreUnderWay w plan.now order.now progress.old place → AreUnderWay w plan.now order.now progress.new (place + 1)) }
    ensures shared { OnOk result (progress.new.shared ≡ progress.old.shared) }
    ensures places { OnOk result (length progress.new.explorations.items ≡ length progress.old.explorations.items) }
    ensures clear { All (λ b. holds b []) domains.new.items }
    ensures kinds { map (λ b. number b) domains.new.items ≡ map (λ b. number b) domains.old.items }
{
    let proc = ProcId(order[place].number);
    let body = take_body(alloc, &mut progress.bodies, proc);
    let Analysed { part, exploration } = part_of(
        alloc,
        plan,
        &progress.parts,
        proc,
        body,
        &mut progress.shared,
        domains,
    )?;
    put_part(&mut progress.parts, proc, part);
    put_exploration(&mut progress.explorations, proc, exploration);
    Ok(())
}

// The body of the procedure with this number. An empty one stands in its place then.
fn take_body(alloc: Global, bodies: &mut Vec<Body>, proc: ProcId) -> Body
    requires { proc.0 < length bodies.old.items }
    ensures body { slice_get bodies.old.items proc.0 ≡ Some result }
    ensures others { (n : ℕ) → n ≢ proc.0 → slice_get bodies.new.items n ≡ slice_get bodies.old.items n }
    ensures many { length bodies.new.items ≡ length bodies.old.items }
{
    replace(&mut bodies[proc.0 as usize], empty_body(alloc))
}

// Puts the part of the procedure with this number in its place.
fn put_part(parts: &mut Vec<Part>, proc: ProcId, part: Part)
    requires { proc.0 < length parts.old.items }
    ensures { parts.new.items ≡ set parts.old.items proc.0 part }
{
    parts[proc.0 as usize] = part;
}

// Keeps how the table of the procedure with this number was found, if there is a place for it.
#[tactic(auto, using(std::proofs::lemmas::List::set_past))]
fn put_exploration(
    explorations: &mut Vec<Option<Exploration>>,
    proc: ProcId,
    exploration: Exploration,
)
    ensures { explorations.new.items ≡ set explorations.old.items proc.0 (Some exploration) }
{
    let place = proc.0 as usize;
    if place < explorations.len() {
        explorations[place] = Some(exploration);
    }
}
