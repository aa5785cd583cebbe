ghost use Rattle.std.specs.Prelude.{◌≡◌, ◌++◌, OnOk};
ghost use Rattle.std.specs.Fmt.{decimal};
ghost use Rattle.px_text_report.specs.Places.{name_at, place_text};

use px_base::Site;
use px_syntax::Name;
use px_terms::NoMemory;
use std::alloc::Global;

/// Adds the bytes.
pub fn put(out: &mut Vec<u8>, bytes: &[u8]) -> Result<(), NoMemory>
    ensures { OnOk result (out.new.items ≡ out.old.items ++ bytes.now) }
{
    out.extend_from_slice(bytes)?;
    Ok(())
}

/// Adds a number in decimal digits.
pub fn put_number(alloc: Global, out: &mut Vec<u8>, number: u64) -> Result<(), NoMemory>
    ensures { OnOk result (out.new.items ≡ out.old.items ++ decimal number) }
{
    put(out, number.to_string(alloc)?.as_bytes())
}

/// The name with this number, or `(none)` where there is none.
pub fn name_at(names: &[Name], number: usize) -> &[u8]
    ensures { result.now ≡ name_at names.now number }
{
    match names.get(number) {
        Some(name) => name.as_slice(),
        None => b"(none)",
    }
}

/// Adds `FILE:L:C`.
pub fn put_place(
    alloc: Global,
    out: &mut Vec<u8>,
    files: &[Name],
    site: Site,
) -> Result<(), NoMemory>
    ensures { OnOk result (out.new.items ≡ out.old.items ++ place_text files.now site) }
{
    put(out, name_at(files, site.file as usize))?;
    put(out, b":")?;
    put_number(alloc, out, site.line as u64)?;
    put(out, b":")?;
    put_number(alloc, out, site.column as u64)
}
