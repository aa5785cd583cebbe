ghost use Rattle.std.specs.Prelude.{◌≡◌, ◌<◌, ◌≤◌, ℕ, List, [], All, length, take, map, IfOk, OnOk, IsErrOf};
ghost use Rattle.px_io.specs.Faults.{HasCauseOf};
ghost use Rattle.px_frames.specs.Frames.{most_bytes};
ghost use Rattle.px_worker.specs.declared.faults.ServeFault.{ServeFault as AFault};
ghost use Rattle.px_worker.specs.declared.faults.ServeFault.TheVariants.{Read, Write};
ghost use Rattle.px_worker.specs.Courses.{IsOpen, IsOn, OnAfter, StopsAfter, Speaks};

use crate::ServeFault;
use crate::owed::{NotOwed, owed};
use px_frames::{Fed, FeedFault, Feeder};
use px_io::{Failed, Sink};
use px_terms::Domain;
use px_wire::{one_spelling, write_counted};
use std::alloc::Global;

/// How far a worker has come in its input. It takes the input piece by piece, and reads nothing itself.
///
/// After a fault it has stopped, and nothing is said of what it does with a further piece.
#[derive(Drop)]
pub struct Course {
    /// Has the bytes of the next frame that were read.
    pub(crate) feeder: Feeder,
    /// Where the next frame begins, or 2^64 - 1 where that is further on.
    pub(crate) place: u64,
    /// Some of its bytes were read.
    pub(crate) begun: bool,
}

impl Course {
    /// Nothing was read. Takes no memory.
    pub fn new(alloc: Global) -> Course
        ensures on { (known : ℕ) (kinds : List ℕ) → IsOn known kinds [] [] result }
        ensures part { IsOpen result.feeder }
    {
        Course {
            feeder: Feeder::new(alloc),
            place: 0,
            begun: false,
        }
    }

    /// Answers the messages of a piece, each with the bytes of it that came before, as who knows the versions from 1 to this
    /// one, by these domains, which stand by rising kinds and hold nothing, before and after. What is after the last whole
    /// message is kept.
    pub fn take<K: Sink>(
        &mut self,
        alloc: Global,
        known: u8,
        piece: &[u8],
        sink: &mut K,
        domains: &mut Vec<Box<dyn Domain>>,
    ) -> Result<(), ServeFault>
        requires part { IsOpen self.old.feeder }
        requires clear { All (λ b. holds b []) domains.old.items }
        ensures part { OnOk result (IsOpen self.new.feeder) }
        ensures on { OnOk result (OnAfter known (map (λ b. number b) domains.old.items) self.old self.new piece.now (K.told sink.old) (K.told sink.new)) }
        ensures stops { (fault : AFault) → IsErrOf result fault → StopsAfter known (map (λ b. number b) domains.old.items) self.old piece.now (K.told sink.old) (K.told sink.new) fault }
        ensures cause { HasCauseOf Write (K.count sink.old) (K.count sink.new) result }
        ensures unread { ¬ IsErrOf result Read }
        ensures clear { All (λ b. holds b []) domains.new.items }
        ensures kinds { map (λ b. number b) domains.new.items ≡ map (λ b. number b) domains.old.items }
    {
        let mut from = 0;
        while from < piece.len() {
            let count = answer_first(alloc, known, self, &piece[from..], sink, domains)?;
            from += count;
        }
        Ok(())
    }
}

// Answers the first message that is whole with the bytes of a piece, and says how many bytes were taken.
fn answer_first<K: Sink>(
    alloc: Global,
    known: u8,
    course: &mut Course,
    piece: &[u8],
    sink: &mut K,
    domains: &mut Vec<Box<dyn Domain>>,
) -> Result<usize, ServeFault>
    requires part { IsOpen course.old.feeder }
    requires some { 0 < length piece.now }
    requires clear { All (λ b. holds b []) domains.old.items }
    ensures taken { IfOk result (λ n. (0 < n) × (n ≤ length piece.now)) }
    ensures part { OnOk result (IsOpen course.new.feeder) }
    ensures on { IfOk result (λ n. OnAfter known (map (λ b. number b) domains.old.items) course.old course.new (take n piece.now) (K.told sink.old) (K.told sink.new)) }
    ensures stops { (fault : AFault) → IsErrOf result fault → StopsAfter known (map (λ b. number b) domains.old.items) course.old piece.now (K.told sink.old) (K.told sink.new) fault }
    ensures cause { HasCauseOf Write (K.count sink.old) (K.count sink.new) result }
    ensures unread { ¬ IsErrOf result Read }
    ensures clear { All (λ b. holds b []) domains.new.items }
    ensures kinds { map (λ b. number b) domains.new.items ≡ map (λ b. number b) domains.old.items }
{
    one_spelling();
    match course.feeder.feed(piece) {
        Ok(Fed::Held) => {
            course.begun = true;
            Ok(piece.len())
        }
        Ok(Fed::Whole { message, taken }) => {
            answer_message(alloc, known, course.place, &message, sink, domains)?;
            course.place = course.place.saturating_add(4 + message.len() as u64);
            course.begun = false;
            Ok(taken as usize)
        }
        Err(FeedFault::TooLong(_)) => Err(ServeFault::Bad(course.place)),
        Err(FeedFault::NoMemory) => Err(ServeFault::NoMemory),
    }
}

// Writes the frame of what is owed for a message whose frame begins at this place.
fn answer_message<K: Sink>(
    alloc: Global,
    known: u8,
    place: u64,
    message: &[u8],
    sink: &mut K,
    domains: &mut Vec<Box<dyn Domain>>,
) -> Result<(), ServeFault>
    requires message { length message.now ≤ most_bytes }
    requires clear { All (λ b. holds b []) domains.old.items }
    ensures speaks { Speaks known (map (λ b. number b) domains.old.items) message.now place (K.told sink.old) (K.told sink.new) result }
    ensures cause { HasCauseOf Write (K.count sink.old) (K.count sink.new) result }
    ensures unread { ¬ IsErrOf result Read }
    ensures clear { All (λ b. holds b []) domains.new.items }
    ensures kinds { map (λ b. number b) domains.new.items ≡ map (λ b. number b) domains.old.items }
{
    match owed(alloc, known, message, domains) {
        Ok(answer) => match write_counted(sink, &answer.message, answer.count) {
            Ok(()) => Ok(()),
            Err(Failed) => Err(ServeFault::Write),
        },
        Err(NotOwed::NoRequest) => Err(ServeFault::Bad(place)),
        Err(NotOwed::OtherKinds) => Err(ServeFault::Kinds(place)),
        Err(NotOwed::OutOfRange | NotOwed::NoMemory) => Err(ServeFault::NoMemory),
    }
}
