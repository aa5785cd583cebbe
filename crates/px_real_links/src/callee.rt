ghost use Rattle.std.specs.Prelude.{◌≡◌, map, Option, Some};
ghost use Rattle.px_real_links.specs.Files.{file_tree, first_named};
ghost use Rattle.px_real_links.specs.Fates as Fates;
ghost use Rattle.px_real_links.specs.Callees.{by_fate, listed, callee_of, external_at, only_one, externals};

use crate::definition::{FileLinks, first_named};
use crate::fate::{Fate, fate_of};

/// What a call of a name goes to.
#[derive(Clone, Copy, Debug, PartialEq, Eq)]
pub enum Callee {
    /// The function-shaped item with this number in the file with that one, which is kept.
    Function { file: usize, number: usize },
    /// A function that is left out, or one of several.
    LeftOut,
    /// No file defines it, but for static functions of others.
    Unknown,
}

// The function with this number in this file, where it is kept.
fn by_fate(links: &FileLinks, file: usize, number: usize) -> Callee
    ensures { result ≡ by_fate file number (Fates.fate_of (file_tree links.now) number) }
{
    match fate_of(links, number) {
        Some(Fate::Kept) => Callee::Function { file, number },
        _ => Callee::LeftOut,
    }
}

// The external function of this name in a file, if it has one.
fn external_in(links: &FileLinks, file: usize, name: &[u8]) -> Option<Callee>
    ensures { listed result ≡ external_at file (file_tree links.now) (first_named 0 (file_tree links.now).definitions name.now) }
{
    let number = first_named(&links.definitions, name)?;
    let definition = links.definitions.get(number)?;
    if definition.is_static {
        return None;
    }
    Some(by_fate(links, file, number))
}

// The one external function of this name.
fn external_of(files: &[FileLinks], name: &[u8]) -> Callee
    ensures { result ≡ only_one (externals 0 (map file_tree files.now) name.now) }
{
    let mut found = None;
    let mut file = 0;
    for links in files {
        if let Some(callee) = external_in(links, file, name) {
            if found.is_some() {
                return Callee::LeftOut;
            }
            found = Some(callee);
        }
        file += 1;
    }
    match found {
        Some(callee) => callee,
        None => Callee::Unknown,
    }
}

/// The function that a call of this name goes to, in the file with this number.
pub fn callee_of(files: &[FileLinks], file: usize, name: &[u8]) -> Callee
    ensures { result ≡ callee_of (map file_tree files.now) file name.now }
{
    if let Some(links) = files.get(file) {
        if let Some(number) = first_named(&links.definitions, name) {
            return by_fate(links, file, number);
        }
    }
    external_of(files, name)
}
