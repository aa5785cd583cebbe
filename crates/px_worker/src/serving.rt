ghost use Rattle.std.specs.Prelude.{◌≡◌, [], All, map};
ghost use Rattle.px_io.specs.Faults.{HasCauseOf};
ghost use Rattle.px_worker.specs.declared.faults.ServeFault.TheVariants.{Read, Write};
ghost use Rattle.px_worker.specs.Served.{Serves};
ghost use Rattle.px_worker.specs.Courses.{IsOpen, IsTurn};

use crate::{Course, ServeFault, answers_begin};
use px_io::{Sink, Source};
use px_terms::Domain;
use px_wire::SHARED;
use std::alloc::Global;
use std::sync::Wait;

/// The loop of a worker that knows both versions: reads requests to the end of its input, and writes for each what is owed for
/// it, in the version of the request.
///
/// It may wait for its input for ever, and an input that doesn't end keeps it going. The domains stand by rising kinds, as
/// those of a request do; in another order they would have other kinds than each request. What is owed for a request is
/// written before the next is looked at, and nothing is read ahead of a piece of 4,096 bytes. The domains hold nothing,
/// before and after.
pub fn serve<R: Wait, I: Source, K: Sink>(
    rt: &R,
    alloc: Global,
    source: &mut I,
    sink: &mut K,
    domains: &mut Vec<Box<dyn Domain>>,
) -> Result<(), ServeFault>
    requires { All (λ b. holds b []) domains.old.items }
    ensures serves { Serves 2 (map (λ b. number b) domains.old.items) (I.told source.old) (I.told source.new) (K.told sink.old) (K.told sink.new) result }
    ensures read_cause { HasCauseOf Read (I.count source.old) (I.count source.new) result }
    ensures write_cause { HasCauseOf Write (K.count sink.old) (K.count sink.new) result }
    ensures clear { All (λ b. holds b []) domains.new.items }
    ensures kinds { map (λ b. number b) domains.new.items ≡ map (λ b. number b) domains.old.items }
{
    let mut course = Course::new(alloc);
    for _ in rt.forever() {
        if serve_piece(alloc, &mut course, source, sink, domains)? {
            return Ok(());
        }
    }
    unreachable!()
}

// Reads a piece and answers its messages. True at the end of the input.
fn serve_piece<I: Source, K: Sink>(
    alloc: Global,
    course: &mut Course,
    source: &mut I,
    sink: &mut K,
    domains: &mut Vec<Box<dyn Domain>>,
) -> Result<bool, ServeFault>
    requires part { IsOpen course.old.feeder }
    requires clear { All (λ b. holds b []) domains.old.items }
    ensures turn { IsTurn 2 (map (λ b. number b) domains.old.items) course.old course.new (I.told source.old) (I.told source.new) (K.told sink.old) (K.told sink.new) result }
    ensures read_cause { HasCauseOf Read (I.count source.old) (I.count source.new) result }
    ensures write_cause { HasCauseOf Write (K.count sink.old) (K.count sink.new) result }
    ensures clear { All (λ b. holds b []) domains.new.items }
    ensures kinds { map (λ b. number b) domains.new.items ≡ map (λ b. number b) domains.old.items }
{
    answers_begin();
    let mut piece = [0u8; 4096];
    let Ok(count) = source.read(&mut piece) else {
        return Err(ServeFault::Read);
    };
    if count == 0 {
        if course.begun {
            return Err(ServeFault::Bad(course.place));
        }
        return Ok(true);
    }
    course.take(alloc, SHARED, &piece[..count], sink, domains)?;
    Ok(false)
}
