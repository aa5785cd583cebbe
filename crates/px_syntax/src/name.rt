ghost use Rattle.std.specs.Prelude.{◌≡◌, take, IfOk};

use px_terms::NoMemory;
use std::alloc::Global;
use std::marker::Model;

// How many bytes stand in a name itself.
const SHORT: usize = 14;

// The bytes of a name. A list of its own for each would take more than most names are long.
enum Bytes {
    // The first `length` of the bytes.
    Short { length: u8, bytes: [u8; SHORT] },
    Long { bytes: Box<Vec<u8>> },
}

/// A word of a source, in its bytes. Contracts see the list of them.
pub struct Name {
    bytes: Bytes,
}

impl Model for Name {
    ghost use Rattle.std.specs.Prelude.{List, ℕ};
    ghost use Rattle.px_syntax.specs.NameBytes.{name_bytes};

    ghost Value = { List ℕ };

    ghost view = { λ n. name_bytes n.bytes };
}

impl Name {
    /// The name of these bytes.
    pub fn from_slice(alloc: Global, bytes: &[u8]) -> Result<Name, NoMemory>
        ensures { IfOk result (λ n. n ≡ bytes.now) }
    {
        if bytes.len() > SHORT {
            let bytes = Box::new(alloc, Vec::from_slice(alloc, bytes)?)?;
            return Ok(Name {
                bytes: Bytes::Long { bytes },
            });
        }
        let mut short = [0; SHORT];
        short[..bytes.len()].copy_from_slice(bytes);
        Ok(Name {
            bytes: Bytes::Short {
                length: bytes.len() as u8,
                bytes: short,
            },
        })
    }

    /// The bytes. Takes no memory.
    pub fn as_slice(&self) -> &[u8]
        ensures { result.now ≡ self.now }
    {
        match &self.bytes {
            Bytes::Short { length, bytes } => first(usize::from(*length), bytes),
            Bytes::Long { bytes } => bytes,
        }
    }
}

// The first bytes, so many or all of them.
fn first(count: usize, bytes: &[u8]) -> &[u8]
    ensures { result.now ≡ take count bytes.now }
{
    &bytes[..bytes.len().min(count)]
}

impl Drop for Bytes {
    fn drop(self) {
        match self {
            Bytes::Short {
                length: _,
                bytes: _,
            }
            | Bytes::Long { bytes: _ } => {}
        }
    }
}

impl Drop for Name {
    fn drop(self) {
        let Name { bytes: _ } = self;
    }
}
