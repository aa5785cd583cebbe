ghost use Rattle.std.specs.Prelude.{◌≡◌, map};
ghost use Rattle.px_real_links.specs.Files.{definition_tree, file_tree};
ghost use Rattle.px_real_links.specs.Fates.{fate_by, fate_of};

use crate::definition::{Definition, FileLinks, has_name, is_named};

/// Whether a function-shaped item is kept, or why it is left out.
#[derive(Clone, Copy, Debug, PartialEq, Eq)]
pub enum Fate {
    Kept,
    /// The grammar gives it no tree.
    Form,
    /// A declaration of its file makes it weak or another function's, or gives it an assembler name.
    Weak,
    /// An item of its file before it has its name.
    Duplicate,
}

// The same, where these items stand before it and these names are weak.
fn fate_by(links: &FileLinks, before: &[Definition], definition: &Definition) -> Fate
    ensures { result ≡ fate_by (file_tree links.now).weak (map definition_tree before.now) (definition_tree definition.now) }
{
    if !definition.is_read {
        return Fate::Form;
    }
    let name = definition.name.as_slice();
    if is_named(&links.weak, name) {
        return Fate::Weak;
    }
    if has_name(before, name) {
        return Fate::Duplicate;
    }
    Fate::Kept
}

/// The fate of an item of a file by its number.
pub fn fate_of(links: &FileLinks, number: usize) -> Option<Fate>
    ensures { result ≡ fate_of (file_tree links.now) number }
{
    let definition = links.definitions.get(number)?;
    Some(fate_by(links, &links.definitions[..number], definition))
}
