use anyhow::{Result, bail};
use px_base::Site;
use std::fmt::Write;

/// The number of the file in which each text stands.
pub const FILE: u32 = 7;

/// How long a text may be.
pub const MOST_BYTES: usize = 1_048_576;

/// A place in the file.
pub fn write_site(out: &mut String, site: Site) -> Result<()> {
    if site.file != FILE {
        bail!("a place in another file");
    }
    write!(out, " {}:{}", site.line, site.column)?;
    Ok(())
}
