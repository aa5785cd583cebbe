ghost use Rattle.std.specs.Prelude.{◌≡◌, Err};
ghost use Rattle.px_gen.specs.Range.{IsInRange};
ghost use Rattle.px_words.specs.Samples.{view_of};
ghost use Rattle.px_lines.specs.declared.cause.Cause.TheVariants as Causes;
ghost use Rattle.px_lines.specs.Sinks.{change};
ghost use Rattle.px_top.specs.Samples.{AnswersSample};

use px_gen::{GenFault, sample};
use px_io::{Sink, write_all};
use px_lines::{Cause, Status};
use px_words::Sample;
use std::alloc::Global;

/// Writes a sample, or answers the cause for which a run ends early.
pub fn write_sample<K: Sink>(
    alloc: Global,
    asked: Sample,
    out: &mut K,
) -> Result<Status, Cause<'static>>
    requires { IsInRange asked.count }
    ensures answers { AnswersSample (view_of asked) (change K.told K.count out.old out.new) result }
    ensures quiet { result ≡ Err Causes.NoMemory → out.new ≡ out.old }
{
    match sample(alloc, asked.start, asked.count) {
        Ok(text) => {
            write_all(out, &text)?;
            Ok(Status::Done)
        }
        Err(GenFault::NoMemory) => Err(Cause::NoMemory),
        Err(GenFault::OutOfRange(_)) => unreachable!(),
    }
}
