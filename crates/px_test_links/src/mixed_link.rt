ghost use Rattle.std.specs.Prelude.{◌≡◌, Some};

use px_honest::HonestLink;
use px_io::Failed;
use px_pieces::Unknown;
use px_pool::{Link, ScriptLink};
use std::sync::Wait;

/// A link that follows a script, or one to a worker in place. Of its word nothing is known, since a script may lie.
#[derive(Drop)]
pub enum MixedLink {
    Script(ScriptLink),
    InPlace(HonestLink),
}

impl MixedLink {
    ghost use Rattle.px_test_links.specs.MixedLinks.{talk_of};

    /// The bytes that it gave. Takes no memory.
    pub fn given(&self) -> &[u8]
        ensures { result.now ≡ (talk_of self.now).given }
    {
        match self {
            MixedLink::Script(link) => link.given(),
            MixedLink::InPlace(link) => link.given(),
        }
    }
}

impl Link for MixedLink {
    ghost use Rattle.px_test_links.specs.MixedLinks.{talk_of, faults_of, Takes, Gives};

    type Word = Unknown;

    ghost told = { λ l. Some (talk_of l) };

    ghost takes = { Takes };

    ghost answers = { Gives };

    ghost count = { λ l. faults_of l };

    fn faults(&self) -> u64 {
        match self {
            MixedLink::Script(link) => link.faults(),
            MixedLink::InPlace(link) => link.faults(),
        }
    }

    fn send<R: Wait>(&mut self, rt: &R, bytes: &[u8]) -> Result<(), Failed> {
        match self {
            MixedLink::Script(link) => link.send(rt, bytes),
            MixedLink::InPlace(link) => link.put(bytes),
        }
    }

    fn receive<R: Wait>(&mut self, rt: &R, into: &mut [u8]) -> Result<usize, Failed> {
        match self {
            MixedLink::Script(link) => link.receive(rt, into),
            MixedLink::InPlace(link) => Ok(link.give(into)),
        }
    }
}
