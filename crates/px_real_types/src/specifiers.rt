ghost use Rattle.std.specs.Prelude.{◌≡◌, map};
ghost use Rattle.px_real_declaring.specs.Trees.{group_tree, specifier_tree};
ghost use Rattle.px_real_types.specs.Scopes.{texts};
ghost use Rattle.px_real_types.specs.Specifiers.{groups_mark, unless_spoilt, with_int, with_signed, with_shape, with_word, with_group, tagged_shape, with_specifier, shape_of, specified, word_spoils, qualifier_spoils, qualifiers_spoil};

use crate::scope::{Scope, Texts, any_marks};
use crate::shape::{Base, Shape};
use crate::words::{Mark, Says, is_struct_word, says_of};
use px_base::Site;
use px_real_declarations::Role;
use px_real_declaring::{Group, Specifier, role_of};
use px_syntax::Name;

/// What specifiers have said of their type so far.
#[derive(Clone, Copy)]
pub enum Said {
    Nothing,
    Int,
    Signed,
    SignedInt,
    /// A type that no other specifier may say too.
    A(Shape),
}

// Whether what is looked for stands in one of these attributes.
pub fn groups_mark(mark: Mark, on: Texts, groups: &[Group]) -> bool
    ensures { result ≡ groups_mark mark (map (group_tree (texts on.entry)) groups.now) }
{
    for group in groups {
        if any_marks(mark, on, group.held) {
            return true;
        }
    }
    false
}

// This type, unless it is another by that.
pub fn unless_spoilt(spoilt: bool, shape: Shape) -> Shape
    ensures { result ≡ unless_spoilt spoilt shape }
{
    if spoilt { Shape::Outside } else { shape }
}

fn with_int(said: Said) -> Said
    ensures { result ≡ with_int said }
{
    match said {
        Said::Nothing => Said::Int,
        Said::Signed => Said::SignedInt,
        _ => Said::A(Shape::Outside),
    }
}

fn with_signed(said: Said) -> Said
    ensures { result ≡ with_signed said }
{
    match said {
        Said::Nothing => Said::Signed,
        Said::Int => Said::SignedInt,
        _ => Said::A(Shape::Outside),
    }
}

fn with_shape(shape: Shape, said: Said) -> Said
    ensures { result ≡ with_shape shape said }
{
    match said {
        Said::Nothing => Said::A(shape),
        _ => Said::A(Shape::Outside),
    }
}

// With a keyword that says this.
fn with_word(says: Says, said: Said) -> Said
    ensures { result ≡ with_word says said }
{
    match says {
        Says::Nothing => said,
        Says::Int => with_int(said),
        Says::Signed => with_signed(said),
        Says::Spoils => Said::A(Shape::Outside),
    }
}

// With a keyword of this role and its parentheses.
fn with_group(role: Role, spoils: bool, said: Said) -> Said
    ensures { result ≡ with_group role spoils said }
{
    match role {
        Role::Alignment => said,
        Role::Attribute => {
            if spoils {
                Said::A(Shape::Outside)
            } else {
                said
            }
        }
        _ => Said::A(Shape::Outside),
    }
}

// The type that `struct`, `union` or `enum` says.
fn tagged_shape<S: Scope>(scope: &S, word: &Name, tag: &Option<Name>, site: Site) -> Shape
    ensures { result ≡ tagged_shape (S.meanings scope.now) word.now tag.now site }
{
    if !is_struct_word(word.as_slice()) {
        return Shape::Outside;
    }
    match tag {
        Some(tag) => scope.tagged(tag.as_slice()),
        None => scope.placed(site),
    }
}

// With one specifier more.
fn with_specifier<S: Scope>(scope: &S, on: Texts, said: Said, specifier: &Specifier) -> Said
    ensures { result ≡ with_specifier (S.meanings scope.now) said (specifier_tree (texts on.entry) specifier.now) }
{
    match specifier {
        Specifier::Keyword { word, .. } => with_word(says_of(word.as_slice()), said),
        Specifier::TypeName { name, .. } => with_shape(scope.named(name.as_slice()), said),
        Specifier::Group(group) => with_group(
            role_of(group.word.as_slice()),
            any_marks(Mark::Spoils, on, group.held),
            said,
        ),
        Specifier::Tagged {
            word,
            site,
            attributes,
            tag,
            ..
        } => {
            let spoilt = groups_mark(Mark::Spoils, on, attributes);
            let shape = unless_spoilt(spoilt, tagged_shape(scope, word, tag, *site));
            with_shape(shape, said)
        }
    }
}

// What was said in the end.
fn shape_of(said: Said) -> Shape
    ensures { result ≡ shape_of said }
{
    match said {
        Said::Nothing => Shape::Outside,
        Said::A(shape) => shape,
        _ => Shape::Value {
            base: Base::Int,
            stars: 0,
        },
    }
}

/// The type that specifiers say.
pub fn specified<S: Scope>(scope: &S, on: Texts, specifiers: &[Specifier]) -> Shape
    ensures { result ≡ specified (S.meanings scope.now) (map (specifier_tree (texts on.entry)) specifiers.now) }
{
    let mut said = Said::Nothing;
    for specifier in specifiers {
        said = with_specifier(scope, on, said, specifier);
    }
    shape_of(said)
}

// Whether a keyword behind a star that says this makes the pointer another type.
fn word_spoils(says: Says) -> bool
    ensures { result ≡ word_spoils says }
{
    match says {
        Says::Nothing => false,
        _ => true,
    }
}

// Whether what stands behind a star makes the pointer another type.
fn qualifier_spoils(on: Texts, qualifier: &Specifier) -> bool
    ensures { result ≡ qualifier_spoils (specifier_tree (texts on.entry) qualifier.now) }
{
    match qualifier {
        Specifier::Keyword { word, .. } => word_spoils(says_of(word.as_slice())),
        Specifier::Group(group) => any_marks(Mark::Spoils, on, group.held),
        _ => true,
    }
}

pub fn qualifiers_spoil(on: Texts, qualifiers: &[Specifier]) -> bool
    ensures { result ≡ qualifiers_spoil (map (specifier_tree (texts on.entry)) qualifiers.now) }
{
    for qualifier in qualifiers {
        if qualifier_spoils(on, qualifier) {
            return true;
        }
    }
    false
}
