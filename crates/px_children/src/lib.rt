//! Workers as children of this process, over two pipes: the trusted edge of links. Faults and running links are
//! counted, and the command is the program with the word `worker`; an end closes the pipes, kills the child and waits
//! for it. Of what a child says nothing is known.
//!
//! A child may say anything, so a link to it tells no bytes. What is proved of code over `Link` and `Spawner` holds over
//! children as far as these keep the traits' clauses.
#![tactic(auto)]

mod child_link;
mod child_spawner;
mod worker_command;

pub use child_link::ChildLink;
pub use child_spawner::ChildSpawner;
