ghost use Rattle.std.specs.Prelude.{◌≡◌, ◌<◌, ◌++◌, ◌∷◌, ◌||◌, [], ℕ, filter, length, slice_index_or, false, IfOk, OnOk};
ghost use Rattle.px_check.specs.Answers.{entry_of};
ghost use Rattle.px_entry.specs.declared.entries.Entry.{Entry as AnEntry};
ghost use Rattle.px_leak.specs.Losses as spec;
ghost use Rattle.px_leak.specs.Lives.{AreLives, AreWithin, Tells};

use crate::got::{GotBlock, got_blocks};
use crate::reach::Reach;
use px_check::Checked;
use px_entry::{Atom, AtomState, Entry, Exit};
use px_manifest::asks_nothing;
use px_terms::NoMemory;
use std::alloc::Global;

/// The blocks that an entry loses, in the order in which it got them.
pub(crate) fn lost_blocks(alloc: Global, checked: &Checked) -> Result<Vec<GotBlock>, NoMemory>
    ensures { IfOk result (λ v. v.items ≡ spec.lost_blocks (entry_of checked.now)) }
{
    let entry = checked.entry();
    if !is_return(entry.exit) || !asks_nothing(checked) {
        return Ok(Vec::new(alloc));
    }
    left_blocks(alloc, entry)
}

fn is_return(exit: Exit) -> bool
    ensures { result ≡ spec.is_return exit }
{
    matches!(exit, Exit::Ok)
}

// The blocks that are live at its end, and that its result doesn't reach.
fn left_blocks(alloc: Global, entry: &Entry) -> Result<Vec<GotBlock>, NoMemory>
    ensures { IfOk result (λ v. v.items ≡ filter (λ g. spec.is_left entry.now g.place) (spec.got_blocks entry.now)) }
{
    let got = got_blocks(alloc, entry)?;
    if got.is_empty() {
        return Ok(got);
    }
    let fates = Fates::of(alloc, entry)?;
    left_of(alloc, &fates, got.as_slice())
}

// Those of these blocks of an entry.
fn left_of(alloc: Global, fates: &Fates, got: &[GotBlock]) -> Result<Vec<GotBlock>, NoMemory>
    ensures { IfOk result (λ v. (x : AnEntry) → Tells x fates.now → AreWithin x got.now → v.items ≡ filter (λ g. spec.is_left x g.place) got.now) }
{
    let mut left = Vec::new(alloc);
    for block in got {
        put_left(&mut left, fates, block)?;
    }
    Ok(left)
}

// Adds a block that is lost.
fn put_left(left: &mut Vec<GotBlock>, fates: &Fates, block: &GotBlock) -> Result<(), NoMemory>
    ensures { OnOk result ((x : AnEntry) → Tells x fates.now → block.now.place < length x.vars → left.new.items ≡ left.old.items ++ filter (λ g. spec.is_left x g.place) (block.now ∷ [])) }
{
    if fates.loses(block.place) {
        left.push(*block)?;
    }
    Ok(())
}

// What an entry leaves: which variables are the places of live blocks, and what is reached.
#[derive(Drop)]
pub(crate) struct Fates {
    pub(crate) lives: Vec<bool>,
    pub(crate) reach: Reach,
}

impl Fates {
    fn of(alloc: Global, entry: &Entry) -> Result<Fates, NoMemory>
        ensures { IfOk result (λ f. Tells entry.now f) }
    {
        let reach = Reach::of(alloc, entry)?;
        let lives = lives(alloc, entry.vars.len(), entry.post.as_slice())?;
        Ok(Fates { lives, reach })
    }

    // Whether the block of a variable is live, and isn't reached.
    fn loses(&self, place: usize) -> bool
        ensures { (x : AnEntry) → Tells x self.now → place < length x.vars → result ≡ spec.is_left x place }
    {
        let live = flag_at(self.lives.as_slice(), place);
        live && !self.reach.has(place)
    }
}

// The flag at a place; false beyond the last.
fn flag_at(flags: &[bool], at: usize) -> bool
    ensures { result ≡ slice_index_or flags.now at false }
{
    match flags.get(at) {
        Some(flag) => *flag,
        None => false,
    }
}

// Which of so many variables are the places of live blocks.
fn lives(alloc: Global, count: usize, atoms: &[Atom]) -> Result<Vec<bool>, NoMemory>
    ensures { IfOk result (λ v. AreLives count atoms.now v.items) }
{
    let mut lives = vec![in alloc; false; count]?;
    for atom in atoms {
        mark_live(&mut lives, atom);
    }
    Ok(lives)
}

// Marks the place of an atom that is live.
fn mark_live(lives: &mut Vec<bool>, atom: &Atom)
    ensures size { length lives.new.items ≡ length lives.old.items }
    ensures marks { (v : ℕ) → v < length lives.old.items → slice_index_or lives.new.items v false ≡ (slice_index_or lives.old.items v false || spec.is_live_at v atom.now) }
{
    let place = atom.place.0 as usize;
    if is_live(&atom.state) && place < lives.len() {
        lives[place] = true;
    }
}

fn is_live(state: &AtomState) -> bool
    ensures { result ≡ spec.is_live state.now }
{
    matches!(state, AtomState::Live(_))
}
