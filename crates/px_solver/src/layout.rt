ghost use Rattle.std.specs.Prelude.{◌≡◌, ◌+◌, ◌<◌, ◌≤◌, length, All, IfOk};
ghost use Rattle.std.specs.List.{AllZip};
ghost use Rattle.px_terms.specs.Variables.{mentioned};
ghost use Rattle.px_plain.specs.Forest.{IsForest, IsFlat};
ghost use Rattle.px_plain.specs.Readings.{HasSmallVariables};
ghost use Rattle.px_solver.specs.Tables.{Joins, HasHome, AreNodeHomes, MarksHard};
ghost use Rattle.px_solver.specs.Layouts.{IsLayout};

use crate::chains::chains_of;
use crate::components::{components_of, hard_homes};
use crate::solving::Layout;
use px_plain::Node;
use px_terms::Conj;
use std::alloc::{AllocError, Global};

// Lays out the components of a list of conjuncts.
pub(crate) fn layout_of(
    alloc: Global,
    table: &[Node],
    conjuncts: &[Conj],
) -> Result<Layout, AllocError>
    requires some { 0 < length table.now }
    requires small { length table.now ≤ 65537 }
    requires few { length conjuncts.now ≤ 65536 }
    requires forest { IsForest table.now }
    requires inside { All (λ c. All (λ x. x + 1 < length table.now) (mentioned c)) conjuncts.now }
    requires variables { All HasSmallVariables conjuncts.now }
    ensures layout { IfOk result (λ l. IsLayout table.now conjuncts.now l) }
    ensures joins { IfOk result (λ l. Joins table.now conjuncts.now l.joined.items) }
    ensures flat { IfOk result (λ l. IsFlat l.joined.items) }
    ensures homes { IfOk result (λ l. AllZip (HasHome table.now l.joined.items) conjuncts.now l.homes.items) }
    ensures members { IfOk result (λ l. AreNodeHomes table.now l.joined.items l.node_homes.items) }
    ensures hard { IfOk result (λ l. MarksHard conjuncts.now l.homes.items (length conjuncts.now) l.hard.items) }
{
    let components = components_of(alloc, table, conjuncts)?;
    let homes = components.homes;
    let places = chains_of(alloc, &homes.conjuncts, table.len())?;
    let nodes = chains_of(alloc, &homes.nodes, table.len())?;
    let hard = hard_homes(alloc, conjuncts, &homes.conjuncts, table.len())?;
    Ok(Layout {
        joined: components.joined,
        homes: homes.conjuncts,
        places,
        node_homes: homes.nodes,
        nodes,
        hard,
    })
}
