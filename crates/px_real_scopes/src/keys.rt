ghost use Rattle.std.specs.Prelude.{◌≡◌, ◌<◌};
ghost use Rattle.px_real_scopes.specs.Keys.{word_key, tag_key, place_key, block_key, binding_key, wanted_key, binds_name, binds_tag, binds_place, binds};
ghost use Rattle.px_real_scopes.specs.Lookups.{same_place};
ghost use Rattle.px_real_scopes.specs.Views.{binding_view};

use crate::meaning::Binding;
use px_base::Site;

/// What is looked for.
#[derive(Clone, Copy)]
pub enum Wanted<'a> {
    Name(&'a [u8]),
    Tag(&'a [u8]),
    Place(Site),
}

// The key of where a block begins.
pub const BLOCK_KEY: u32 = 12288;

// The key of a word.
fn word_key(word: &[u8]) -> u32
    ensures key { result ≡ word_key word.now }
    ensures low { result < 4096 }
{
    let mut key = 0;
    for byte in word {
        key = (key * 31 + u32::from(*byte)) % 4096;
    }
    key
}

// The key of a tag.
fn tag_key(word: &[u8]) -> u32
    ensures { result ≡ tag_key word.now }
{
    4096 + word_key(word)
}

// The key of a place.
fn place_key(site: Site) -> u32
    ensures { result ≡ place_key site }
{
    8192 + (site.line % 1024 + site.column % 1024)
}

// The key under which something is bound.
pub fn binding_key(binding: &Binding) -> u32
    ensures { result ≡ binding_key (binding_view binding.now) }
{
    match binding {
        Binding::Block => BLOCK_KEY,
        Binding::Name { name, .. } => word_key(name.as_slice()),
        Binding::Tag { name, .. } => tag_key(name.as_slice()),
        Binding::Place { site, .. } => place_key(*site),
    }
}

// The key of what is looked for.
pub fn wanted_key(wanted: Wanted) -> u32
    ensures { result ≡ wanted_key wanted.entry }
{
    match wanted {
        Wanted::Name(word) => word_key(word),
        Wanted::Tag(word) => tag_key(word),
        Wanted::Place(site) => place_key(site),
    }
}

// Whether two places are the same.
fn same_place(one: Site, other: Site) -> bool
    ensures { result ≡ same_place one other }
{
    one.file == other.file && one.line == other.line && one.column == other.column
}

// Whether a name is bound here.
fn binds_name(word: &[u8], binding: &Binding) -> bool
    ensures { result ≡ binds_name word.now (binding_view binding.now) }
{
    match binding {
        Binding::Name { name, .. } => word == name.as_slice(),
        _ => false,
    }
}

// Whether a tag is bound here.
fn binds_tag(word: &[u8], binding: &Binding) -> bool
    ensures { result ≡ binds_tag word.now (binding_view binding.now) }
{
    match binding {
        Binding::Tag { name, .. } => word == name.as_slice(),
        _ => false,
    }
}

// Whether a place is bound here.
fn binds_place(wanted: Site, binding: &Binding) -> bool
    ensures { result ≡ binds_place wanted (binding_view binding.now) }
{
    match binding {
        Binding::Place { site, .. } => same_place(wanted, *site),
        _ => false,
    }
}

// Whether what is looked for is bound here.
pub fn binds(wanted: Wanted, binding: &Binding) -> bool
    ensures { result ≡ binds wanted.entry (binding_view binding.now) }
{
    match wanted {
        Wanted::Name(word) => binds_name(word, binding),
        Wanted::Tag(word) => binds_tag(word, binding),
        Wanted::Place(site) => binds_place(site, binding),
    }
}
