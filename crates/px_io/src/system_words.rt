ghost use Rattle.std.specs.Prelude.{◌≡◌, Ok};
ghost use Rattle.px_io.specs.Words.{AreWords, fault_of};

use std::alloc::Global;
use std::env::Args;
use std::io;
use std::io::ErrorKind;
use thiserror::Error;

/// Why there are no words.
#[derive(Clone, Copy, Debug, PartialEq, Eq, Error)]
pub enum WordsFault {
    /// A word isn't UTF-8.
    #[error("a word is no text")]
    NotText,
    #[error("out of memory")]
    NoMemory,
}

/// The words after the program's name, of the arguments that the system gave, which are those of `env::args`.
/// That they are what the program was started with, and that their error is `InvalidData` where one isn't UTF-8,
/// no clause of `env::args` says: that is the trusted edge.
pub fn words(alloc: Global, given: io::Result<Args>) -> Result<Vec<String>, WordsFault>
    ensures { AreWords given result }
{
    match given {
        Ok(given) => words_after(alloc, given),
        Err(error) => Err(fault(error.kind())),
    }
}

// The arguments after the first, unless there is no memory for their list.
fn words_after(alloc: Global, given: Args) -> Result<Vec<String>, WordsFault>
    ensures { AreWords (Ok given) result }
{
    let mut given = given;
    let _ = given.next();
    let mut words = Vec::new(alloc);
    for word in given {
        if words.push(word).is_err() {
            return Err(WordsFault::NoMemory);
        }
    }
    Ok(words)
}

// What the kind of an error of `env::args` says.
fn fault(kind: ErrorKind) -> WordsFault
    ensures { result ≡ fault_of kind }
{
    match kind {
        ErrorKind::InvalidData => WordsFault::NotText,
        _ => WordsFault::NoMemory,
    }
}
