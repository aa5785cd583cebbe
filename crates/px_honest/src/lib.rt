//! A link that runs a worker in place, for tests, and a spawner of such links: what it replies is its word, and it may
//! die after any byte. What it gives is a beginning of what px_worker owes for what it was sent.
#![tactic(auto)]

mod domains;
mod honest_link;
mod honest_spawner;
mod worker;
mod written;

pub use honest_link::HonestLink;
pub use honest_spawner::{HonestSpawner, Plan};
