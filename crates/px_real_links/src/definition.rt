ghost use Rattle.std.specs.Prelude.{◌≡◌, map};
ghost use Rattle.px_real_links.specs.Files.{definition_tree, has_name, is_named, first_named};

use px_syntax::Name;

/// A function-shaped item of a file.
#[derive(Drop)]
pub struct Definition {
    pub name: Name,
    /// Whether a declaration of its file says `static` of it.
    pub is_static: bool,
    /// Whether the grammar gives it a tree.
    pub is_read: bool,
}

/// What a file says of functions: its function-shaped items in order, and the names that one of its declarations makes weak, another
/// function's, or the assembler's.
#[derive(Drop)]
pub struct FileLinks {
    pub definitions: Vec<Definition>,
    pub weak: Vec<Name>,
}

// Whether it is one of these names.
pub fn is_named(names: &[Name], name: &[u8]) -> bool
    ensures { result ≡ is_named names.now name.now }
{
    for each in names {
        if each.as_slice() == name {
            return true;
        }
    }
    false
}

// Whether one of these has this name.
pub fn has_name(definitions: &[Definition], name: &[u8]) -> bool
    ensures { result ≡ has_name (map definition_tree definitions.now) name.now }
{
    for definition in definitions {
        if definition.name.as_slice() == name {
            return true;
        }
    }
    false
}

// The number of the first that has this name.
pub fn first_named(definitions: &[Definition], name: &[u8]) -> Option<usize>
    ensures { result ≡ first_named 0 (map definition_tree definitions.now) name.now }
{
    let mut number = 0;
    for definition in definitions {
        if definition.name.as_slice() == name {
            return Some(number);
        }
        number += 1;
    }
    None
}
