//! Two more links for tests, and spawners of them: pairs of workers in place of which neither answers before both were
//! asked, and scripts and workers in place side by side. What they give is what these give.
#![tactic(auto)]

mod gate_link;
mod gate_spawner;
mod mixed_link;
mod mixed_spawner;
mod pair;

pub use gate_link::GateLink;
pub use gate_spawner::GateSpawner;
pub use mixed_link::MixedLink;
pub use mixed_spawner::{MixedPlan, MixedSpawner};
