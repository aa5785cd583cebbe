//! Links to workers, spawners of links, and exchanges over them: a job's request is sent, one reply is read by its parts as
//! its bytes come, and each of its entries is checked when its derivation is there. `exchange` gives a piece exactly where the
//! reply answers the job, or the one cause why not, and reads nothing after the reply.
//!
//! Links and spawners are traits that say what passed and whose word replies are; both are here in memory, by scripts.
//! What is told of a link grows by what is sent and given, and by nothing else; a call fails only with a risen count.
//! Code over them is generic, so what is proved of it over the objects in memory holds over real children too, as far as
//! these keep the traits' clauses.
#![tactic(auto)]

mod answers;
mod checks;
mod exchanging;
mod feeding;
mod gathering;
mod judging;
mod laws;
mod link;
mod reading;
mod replies;
mod requests;
mod script;
mod script_link;
mod script_spawner;
mod spawner;
mod tally;
mod whole_frames;

pub use answers::{Answer, answer_in};
pub use exchanging::exchange;
pub use laws::{
    answers_are_one_frame, exchanges_give_one_frame, exchanges_keep_step, frames_are_counted,
    frames_are_given, new_links_are_in_step, one_outcome, talks_follow, words_are_of_pairs,
};
pub use link::Link;
pub use script::Script;
pub use script_link::ScriptLink;
pub use script_spawner::ScriptSpawner;
pub use spawner::Spawner;
pub use tally::Tally;
pub use whole_frames::first_frame;
