ghost use Rattle.std.specs.Prelude.{◌≡◌, ◌≢◌, ℕ, ◌+◌, ◌<◌, ◌≤◌, length, All, IfOk, slice_index};
ghost use Rattle.px_solver.specs.Tables as spec;
ghost use Rattle.px_solver.specs.Tables.{AreNext, AreFirst};

use std::alloc::{AllocError, Global};

// The places of each home in a list of homes, as chains.
#[derive(Drop)]
pub(crate) struct Chains {
    // The first place of each home; as many as there are places where there is none.
    pub(crate) first: Vec<u32>,
    // The next place of the same home.
    pub(crate) next: Vec<u32>,
}

// Puts a place before those of its home.
fn put_before(chains: &mut Chains, homes: &[u32], i: usize)
    requires few { length homes.now ≤ 65537 }
    requires inside { i < length homes.now }
    requires homes { All (λ h. h < length chains.old.first.items) homes.now }
    requires next { AreNext homes.now (i + 1) chains.old.next.items }
    requires first { AreFirst homes.now (i + 1) (length chains.old.first.items) chains.old.first.items }
    ensures size { length chains.new.first.items ≡ length chains.old.first.items }
    ensures next { AreNext homes.now i chains.new.next.items }
    ensures first { AreFirst homes.now i (length chains.old.first.items) chains.new.first.items }
{
    let home = homes[i] as usize;
    chains.next[i] = chains.first[home];
    chains.first[home] = i as u32;
}

// The chains of a list of homes below `count`.
pub(crate) fn chains_of(alloc: Global, homes: &[u32], count: usize) -> Result<Chains, AllocError>
    requires few { length homes.now ≤ 65537 }
    requires homes { All (λ h. h < count) homes.now }
    ensures next { IfOk result (λ c. AreNext homes.now 0 c.next.items) }
    ensures first { IfOk result (λ c. AreFirst homes.now 0 count c.first.items) }
{
    let end = homes.len() as u32;
    let mut chains = Chains {
        first: vec![in alloc; end; count]?,
        next: vec![in alloc; end; homes.len()]?,
    };
    let mut i = homes.len();
    while i > 0 {
        i -= 1;
        put_before(&mut chains, homes, i);
    }
    Ok(chains)
}

// The places of a home, in order.
pub(crate) fn places_of(
    alloc: Global,
    homes: &[u32],
    chains: &Chains,
    home: u32,
) -> Result<Vec<u32>, AllocError>
    requires few { length homes.now ≤ 65537 }
    requires next { AreNext homes.now 0 chains.now.next.items }
    requires first { AreFirst homes.now 0 (length chains.now.first.items) chains.now.first.items }
    requires home { home < length chains.now.first.items }
    ensures { IfOk result (λ places. places.items ≡ spec.places_of home homes.now) }
{
    let mut places = Vec::new(alloc);
    let mut at = chains.first[home as usize];
    while (at as usize) < homes.len() {
        places.push(at)?;
        at = chains.next[at as usize];
    }
    Ok(places)
}
