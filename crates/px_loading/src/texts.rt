ghost use Rattle.std.specs.Prelude.{◌≡◌, IfOk};
ghost use Rattle.px_loading.specs.FaultLines.{fault_at, fault_text};

use px_base::Site;
use px_reading::SourceFault;
use px_terms::NoMemory;
use std::alloc::Global;

/// Where a source has its fault, and which, as it stands after the file's name.
pub fn fault_text(alloc: Global, fault: SourceFault) -> Result<Vec<u8>, NoMemory>
    ensures { IfOk result (λ v. v.items ≡ fault_text fault) }
{
    match fault {
        SourceFault::Byte(site) => fault_at(alloc, site, b": unexpected byte"),
        SourceFault::Comment(site) => fault_at(alloc, site, b": unclosed comment"),
        SourceFault::Constant(site) => fault_at(alloc, site, b": constant too large"),
        SourceFault::Unbalanced(site) => fault_at(alloc, site, b": unbalanced bracket"),
    }
}

// `:L:C` and what is wrong there.
fn fault_at(alloc: Global, site: Site, what: &[u8]) -> Result<Vec<u8>, NoMemory>
    ensures { IfOk result (λ v. v.items ≡ fault_at site what.now) }
{
    let mut text = Vec::new(alloc);
    text.extend_from_slice(b":")?;
    text.extend_from_slice(site.line.to_string(alloc)?.as_bytes())?;
    text.extend_from_slice(b":")?;
    text.extend_from_slice(site.column.to_string(alloc)?.as_bytes())?;
    text.extend_from_slice(what)?;
    text.extend_from_slice(b"\n")?;
    Ok(text)
}
