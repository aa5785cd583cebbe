ghost use Rattle.std.specs.Prelude.{◌≡◌, ◌≤◌, ◌<◌, ℕ, true, false, List, ◌∷◌, ◌++◌, [], All, length, map, IfOk, IfSome, IsSomeAnd, OnOk};
ghost use Rattle.px_base.specs.Bounds.{most_variables};
ghost use Rattle.px_terms.specs.Conjuncts.{IsWellSorted};
ghost use Rattle.px_plain.specs.Held.{HeldItem, OfConj, held_vars, held_conjuncts, held_count};
ghost use Rattle.px_entry.specs.Sorts.{is_well_sorted};
ghost use Rattle.px_callgraph.specs.JobTree.{JobTree, job_tree};
ghost use Rattle.px_callgraph.specs.Laws.{HasPlaces, IsAskable};
ghost use Rattle.px_walks.specs.Walks.{walk_of};
ghost use Rattle.px_solver.specs.Decisions.{IsRefuted};
ghost use Rattle.px_symexec.specs.Prefixes.{constraint};
ghost use Rattle.px_explore.specs.Stops.{IsFork};
ghost use Rattle.px_explore.specs.Said.{MayAdd};
ghost use Rattle.px_explore.specs.Missed.{MayBeMet, with_block};
ghost use Rattle.px_explore.specs.Known.{IsKnown, LeadsElsewhere};
ghost use Rattle.px_explore.specs.Trails.{IsStacked, IsOn, AreOf};
ghost use Rattle.px_explore.specs.Weights.{IsOpenAt, ArePlaced};
ghost use Rattle.px_explore.specs.Thinned.{Thins, IsShut, IsThinned, IsThinnedTo, IsLiveFork, IsOpenFork, IsRefutedWith, MayBeThinned};
ghost use Rattle.px_explore.specs.Thinned as spec;

use crate::known::{Known, known_block, leads_elsewhere};
use crate::missed::{Missed, block_missed};
use crate::said::{may_add, said};
use crate::stops::Fork;
use crate::trail::Trail;
use crate::weigh::{Weighed, are_placed};
use px_callgraph::{Job, State, Way};
use px_match::is_well_sorted;
use px_terms::{Conj, Domain, NoMemory};
use px_walks::Walk;
use std::alloc::Global;

// The most conjuncts, and the most blocks, of a state of which more is asked. A path has fewer.
const MOST_ASKED: usize = 10_000;

fn is_small(state: &State) -> bool
    ensures pure { result ≡ true → length state.now.pure ≤ 10000 }
    ensures atoms { result ≡ true → length state.now.atoms ≤ 10000 }
{
    state.pure.len() <= MOST_ASKED && state.atoms.len() <= MOST_ASKED
}

// Whether a conjunct may be asked of, and assumed.
fn may_be_asked(state: &State, conjunct: &Conj) -> bool
    ensures pure { result ≡ true → length state.now.pure ≤ 10000 }
    ensures atoms { result ≡ true → length state.now.atoms ≤ 10000 }
    ensures sorted { result ≡ true → is_well_sorted state.now.vars conjunct.now ≡ true }
    ensures added { result ≡ true → MayAdd state.now conjunct.now }
{
    if !is_small(state) {
        return false;
    }
    if !is_well_sorted(state.vars.as_slice(), conjunct) {
        return false;
    }
    may_add(state, conjunct)
}

// Whether a conjunct is of places, or says whether a cell is written. The stack alone knows what refutes such a one.
fn is_of_cells(conjunct: &Conj) -> bool
    ensures { result ≡ spec.is_of_cells conjunct.now }
{
    match conjunct {
        Conj::Equal(_)
        | Conj::Unequal(_)
        | Conj::Less(_, _)
        | Conj::AtMost(_, _)
        | Conj::Quotient(_, _, _) => false,
        Conj::SamePlace(_, _) | Conj::OtherPlace(_, _) | Conj::Written(_) | Conj::Unwritten(_) => {
            true
        }
    }
}

// Whether what is held is refuted with a conjunct, as far as it is looked.
fn is_refuted_with(
    conjunct: &Conj,
    trail: &mut Trail,
    domains: &mut Vec<Box<dyn Domain>>,
) -> Result<bool, NoMemory>
    requires { (items : List HeldItem) × IsOn trail.old (λ cs. All (λ b. holds b cs) domains.old.items) items × (length (held_vars items) ≤ 65536) × IsWellSorted (held_vars items) conjunct.now × (held_count items < 65536) }
    ensures answer { IfOk result (λ yes. (items : List HeldItem) → IsOn trail.old (λ cs. All (λ b. holds b cs) domains.old.items) items → yes ≡ true → IsRefuted (held_vars items) (held_conjuncts (OfConj conjunct.now ∷ items)) (map (λ b. number b) domains.old.items)) }
    ensures on { (items : List HeldItem) → IsOn trail.old (λ cs. All (λ b. holds b cs) domains.old.items) items → IsOn trail.new (λ cs. All (λ b. holds b cs) domains.new.items) items }
    ensures kinds { map (λ b. number b) domains.new.items ≡ map (λ b. number b) domains.old.items }
{
    if is_of_cells(conjunct) {
        return trail.refutes_plainly(conjunct);
    }
    trail.refutes(conjunct, domains)
}

// Whether a state, all of which is held and whose blocks are placed, is refuted with this conjunct, as far as it is looked.
fn is_against(
    state: &State,
    conjunct: &Conj,
    trail: &mut Trail,
    domains: &mut Vec<Box<dyn Domain>>,
) -> Result<bool, NoMemory>
    requires held { (items : List HeldItem) × IsOn trail.old (λ cs. All (λ b. holds b cs) domains.old.items) items × AreOf state.now items }
    requires askable { IsAskable state.now }
    requires placed { ArePlaced state.now }
    ensures against { IfOk result (λ yes. yes ≡ true → MayAdd state.now conjunct.now × IsRefutedWith state.now conjunct.now (map (λ b. number b) domains.old.items)) }
    ensures on { (items : List HeldItem) → IsOn trail.old (λ cs. All (λ b. holds b cs) domains.old.items) items → IsOn trail.new (λ cs. All (λ b. holds b cs) domains.new.items) items }
    ensures kinds { map (λ b. number b) domains.new.items ≡ map (λ b. number b) domains.old.items }
{
    if !may_be_asked(state, conjunct) {
        return Ok(false);
    }
    is_refuted_with(conjunct, trail, domains)
}

// The same of a state that has met a block, which is apart from the others.
fn is_against_block(state: &State, met: Missed, trail: &mut Trail) -> Result<bool, NoMemory>
    requires held { (items : List HeldItem) × IsStacked trail.old items × AreOf state.now items }
    requires met { MayBeMet state.now met }
    requires placed { ArePlaced state.now }
    ensures against { IfOk result (λ yes. yes ≡ true → (kinds : List ℕ) → IsRefuted state.now.vars (constraint (with_block state.now met)) kinds) }
    ensures stacked { (items : List HeldItem) → IsStacked trail.old items → IsStacked trail.new items }
{
    if !is_small(state) {
        return Ok(false);
    }
    trail.refutes_apart(met.place)
}

// Whether a way leads to another block than the one that is known to be there.
fn is_elsewhere(state: &State, known: Option<Known>, way: Way) -> bool
    ensures { result ≡ true → IsSomeAnd known (λ k. LeadsElsewhere state.now k way) }
{
    match known {
        Some(known) => leads_elsewhere(state, known, way),
        None => false,
    }
}

// Whether a way is seen to lead to what is refuted, before it is taken. One to another block than the one that is known
// to be there needn't be asked of.
fn is_shut(
    alloc: Global,
    job: &Job,
    walk: &Walk,
    known: Option<Known>,
    way: Way,
    trail: &mut Trail,
    domains: &mut Vec<Box<dyn Domain>>,
) -> Result<bool, NoMemory>
    requires held { (items : List HeldItem) × IsOn trail.old (λ cs. All (λ b. holds b cs) domains.old.items) items × AreOf walk.now.state items }
    requires askable { IsAskable walk.now.state }
    requires placed { ArePlaced walk.now.state }
    requires known { IfSome known (λ k. IsKnown (walk_of walk.now) k) }
    ensures shut { IfOk result (λ yes. yes ≡ true → (job_tree job.now).kinds ≡ map (λ b. number b) domains.old.items → MayBeThinned (job_tree job.now) walk.now.state → IsShut (job_tree job.now) (walk_of walk.now) way) }
    ensures on { (items : List HeldItem) → IsOn trail.old (λ cs. All (λ b. holds b cs) domains.old.items) items → IsOn trail.new (λ cs. All (λ b. holds b cs) domains.new.items) items }
    ensures kinds { map (λ b. number b) domains.new.items ≡ map (λ b. number b) domains.old.items }
{
    if is_elsewhere(&walk.state, known, way) {
        return Ok(true);
    }
    let more = said(alloc, walk, way)?;
    match more {
        Some(conjunct) => is_against(&walk.state, &conjunct, trail, domains),
        None => is_shut_by_block(job, walk, way, trail),
    }
}

// The same of a way to a block that the path hasn't met.
fn is_shut_by_block(job: &Job, walk: &Walk, way: Way, trail: &mut Trail) -> Result<bool, NoMemory>
    requires held { (items : List HeldItem) × IsStacked trail.old items × AreOf walk.now.state items }
    requires placed { ArePlaced walk.now.state }
    ensures shut { IfOk result (λ yes. yes ≡ true → HasPlaces walk.now.state → IsShut (job_tree job.now) (walk_of walk.now) way) }
    ensures stacked { (items : List HeldItem) → IsStacked trail.old items → IsStacked trail.new items }
{
    match block_missed(job, walk, way) {
        Some(met) => is_against_block(&walk.state, met, trail),
        None => Ok(false),
    }
}

// Puts a way that isn't shut after the others.
fn put_open(way: Way, shut: bool, left: &mut Vec<Way>) -> Result<(), NoMemory>
    ensures left { shut ≡ false → OnOk result (left.new.items ≡ left.old.items ++ way ∷ []) }
    ensures shut { shut ≡ true → OnOk result (left.new.items ≡ left.old.items) }
{
    if shut {
        return Ok(());
    }
    left.push(way)?;
    Ok(())
}

// The ways that aren't seen to lead to what is refuted, in order.
fn open_ways(
    alloc: Global,
    job: &Job,
    walk: &Walk,
    ways: &[Way],
    trail: &mut Trail,
    domains: &mut Vec<Box<dyn Domain>>,
) -> Result<Vec<Way>, NoMemory>
    requires held { (items : List HeldItem) × IsOn trail.old (λ cs. All (λ b. holds b cs) domains.old.items) items × AreOf walk.now.state items }
    requires askable { IsAskable walk.now.state }
    requires placed { ArePlaced walk.now.state }
    ensures left { IfOk result (λ left. (job_tree job.now).kinds ≡ map (λ b. number b) domains.old.items → MayBeThinned (job_tree job.now) walk.now.state → Thins (IsShut (job_tree job.now) (walk_of walk.now)) ways.now left.items) }
    ensures on { (items : List HeldItem) → IsOn trail.old (λ cs. All (λ b. holds b cs) domains.old.items) items → IsOn trail.new (λ cs. All (λ b. holds b cs) domains.new.items) items }
    ensures kinds { map (λ b. number b) domains.new.items ≡ map (λ b. number b) domains.old.items }
{
    let known = known_block(walk);
    let mut left = Vec::new(alloc);
    for n in 0..ways.len() {
        let shut = is_shut(alloc, job, walk, known, ways[n], trail, domains)?;
        put_open(ways[n], shut, &mut left)?;
    }
    Ok(left)
}

fn are_all_placed(state: &State) -> bool
    ensures { result ≡ true → ArePlaced state.now }
{
    are_placed(state.vars.as_slice(), state.atoms.as_slice())
}

// A point of choice without the ways that are seen to lead to what is refuted.
fn thin_fork<'a>(
    alloc: Global,
    job: &Job,
    fork: Fork<'a>,
    trail: &mut Trail,
    domains: &mut Vec<Box<dyn Domain>>,
) -> Result<Fork<'a>, NoMemory>
    requires held { (items : List HeldItem) × IsOn trail.old (λ cs. All (λ b. holds b cs) domains.old.items) items × AreOf fork.walk.state items }
    requires fork { (j : JobTree) × (length j.body.parameters ≤ most_variables) × IsFork j fork }
    ensures thinned { IfOk result (λ g. (job_tree job.now).kinds ≡ map (λ b. number b) domains.old.items → IsLiveFork (job_tree job.now) fork.entry → IsThinned (job_tree job.now) fork.entry g) }
    ensures on { (items : List HeldItem) → IsOn trail.old (λ cs. All (λ b. holds b cs) domains.old.items) items → IsOn trail.new (λ cs. All (λ b. holds b cs) domains.new.items) items }
    ensures kinds { map (λ b. number b) domains.new.items ≡ map (λ b. number b) domains.old.items }
{
    if !are_all_placed(&fork.walk.state) {
        return Ok(fork);
    }
    let Fork { walk, steps, ways } = fork;
    let left = open_ways(alloc, job, &walk, &ways, trail, domains)?;
    Ok(Fork {
        walk,
        steps,
        ways: left,
    })
}

// What a prefix gives, where its point of choice, if it is one, is without the ways that are seen to lead to what is
// refuted. They are asked of what is held, before anything is copied for them.
pub(crate) fn thin<'a>(
    alloc: Global,
    job: &Job,
    weighed: Weighed<'a>,
    trail: &mut Trail,
    domains: &mut Vec<Box<dyn Domain>>,
) -> Result<Weighed<'a>, NoMemory>
    requires held { (items : List HeldItem) × IsOn trail.old (λ cs. All (λ b. holds b cs) domains.old.items) items × IsOpenAt weighed items }
    requires fork { (j : JobTree) × (length j.body.parameters ≤ most_variables) × IsOpenFork j weighed }
    ensures thinned { IfOk result (λ w. (job_tree job.now).kinds ≡ map (λ b. number b) domains.old.items → IsOpenFork (job_tree job.now) weighed.entry → IsThinnedTo (job_tree job.now) weighed.entry w) }
    ensures on { (items : List HeldItem) → IsOn trail.old (λ cs. All (λ b. holds b cs) domains.old.items) items → IsOn trail.new (λ cs. All (λ b. holds b cs) domains.new.items) items }
    ensures kinds { map (λ b. number b) domains.new.items ≡ map (λ b. number b) domains.old.items }
{
    match weighed {
        Weighed::Open(fork) => Ok(Weighed::Open(thin_fork(alloc, job, fork, trail, domains)?)),
        Weighed::Out => Ok(Weighed::Out),
        Weighed::Past => Ok(Weighed::Past),
        Weighed::Gives(entry) => Ok(Weighed::Gives(entry)),
        Weighed::Misses(gap) => Ok(Weighed::Misses(gap)),
    }
}
