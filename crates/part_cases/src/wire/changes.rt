use anyhow::Result;
use std::alloc::Global;

/// Bytes with one of them changed.
#[derive(Clone, Copy)]
pub enum Change {
    /// To 0.
    Least,
    /// To 255.
    Most,
    /// To one more, 0 after 255.
    More,
}

/// The changes that are tried of each byte.
pub const CHANGES: [Change; 3] = [Change::Least, Change::Most, Change::More];

/// The bytes with the one at a place changed.
pub fn changed(alloc: Global, bytes: &[u8], place: usize, change: Change) -> Result<Vec<u8>> {
    let mut changed = Vec::from_slice(alloc, bytes)?;
    if let Some(byte) = changed.get_mut(place) {
        *byte = match change {
            Change::Least => 0,
            Change::Most => 255,
            Change::More => byte.wrapping_add(1),
        };
    }
    Ok(changed)
}
