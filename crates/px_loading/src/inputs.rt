ghost use Rattle.std.specs.Prelude.{◌≡◌, ◌≤◌, ℕ, List, length, IfOk, IfErr};
ghost use Rattle.std.specs.List.{AllByRecursion};
ghost use Rattle.px_io.specs.Reads.{Given};
ghost use Rattle.px_base.specs.Texts.{texts};
ghost use Rattle.px_loading.specs.Stops.{all_read, GivesAll};
ghost use Rattle.px_loading.specs.Faults.{IsFaultOf};

use crate::fault::LoadFault;
use px_io::{FileFault, Files};
use std::alloc::Global;

/// The most bytes of a file.
const MOST_BYTES: u64 = 1_048_576;

/// The bytes of each file, in order, or why not all were read.
pub fn read_all<'a, F: Files>(
    alloc: Global,
    names: &'a [String],
    files: &mut F,
) -> Result<Vec<Vec<u8>>, LoadFault<'a>>
    requires { AllByRecursion (λ name. F.allows files.old name) (texts names.now) }
    ensures contents { IfOk result (λ v. GivesAll F.told F.count F.gives files.old files.new (texts names.now) (all_read v.items) × (length v.items ≡ length names.now)) }
    ensures none { IfErr result (λ fault. (given : List Given) × GivesAll F.told F.count F.gives files.old files.new (texts names.now) given × IsFaultOf (texts names.now) given fault) }
    ensures same { (p : List ℕ) → F.told files.new p ≡ F.told files.old p }
    ensures allowed { (p : List ℕ) → F.allows files.old p → F.allows files.new p }
{
    let mut sources = Vec::new(alloc);
    for i in 0..names.len() {
        let name = names[i].as_str();
        match files.read(name, MOST_BYTES) {
            Ok(bytes) => sources.push(bytes)?,
            Err(FileFault::Failed) => return Err(LoadFault::Unread(name)),
            Err(FileFault::Long) => return Err(LoadFault::Long(name)),
            Err(FileFault::NoMemory) => return Err(LoadFault::NoMemory),
        }
    }
    Ok(sources)
}
