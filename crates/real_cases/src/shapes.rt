ghost use Rattle.std.specs.Prelude.{◌≡◌, List, [], ◌∷◌, codes, if◌then◌else◌};
ghost use Rattle.std.specs.Str.{bytes_eq};
ghost use Rattle.px_base.specs.declared.trace.Site.{Site};
ghost use Rattle.px_real_types.specs.declared.shape.Shape.{Shape};
ghost use Rattle.px_real_types.specs.declared.shape.Shape.TheVariants as S;
ghost use Rattle.px_real_types.specs.declared.shape.Base.TheVariants as B;

use crate::trees::{write_held, write_name};
use anyhow::{Result, bail};
use px_base::Site;
use px_real_declaring::Declaration;
use px_real_tokens::Token;
use px_real_types::{
    Base, Cell, ProfileType, Scope, Shape, Texts, declared_name, declared_shape, function_in,
    layout, parameter_of, specified,
};
use std::alloc::Global;
use std::fmt::Write;

// What the declarations say that stand before a case: `T` is an int, `list` a pointer to the struct 1, whose tag is `s`, and the struct with
// the tag `t` is the struct 2. No other word names a type that is seen. A struct without a tag has its column's number.
pub struct SomeScope;

impl Scope for SomeScope {
    ghost meanings = { λ _. record {
      named = λ word. if bytes_eq word (codes "T") then S.Value B.Int 0 else (if bytes_eq word (codes "list") then S.Value (B.Struct 1) 1 else S.Outside);
      tagged = λ tag. if bytes_eq tag (codes "s") then S.Value (B.Struct 1) 0 else (if bytes_eq tag (codes "t") then S.Value (B.Struct 2) 0 else S.Outside);
      placed = λ site. S.Value (B.Struct site.column) 0;
    } };

    fn named(&self, word: &[u8]) -> Shape {
        if word == b"T".as_slice() {
            Shape::Value {
                base: Base::Int,
                stars: 0,
            }
        } else if word == b"list".as_slice() {
            Shape::Value {
                base: Base::Struct(1),
                stars: 1,
            }
        } else {
            Shape::Outside
        }
    }

    fn tagged(&self, tag: &[u8]) -> Shape {
        if tag == b"s".as_slice() {
            Shape::Value {
                base: Base::Struct(1),
                stars: 0,
            }
        } else if tag == b"t".as_slice() {
            Shape::Value {
                base: Base::Struct(2),
                stars: 0,
            }
        } else {
            Shape::Outside
        }
    }

    fn placed(&self, site: Site) -> Shape {
        Shape::Value {
            base: Base::Struct(site.column),
            stars: 0,
        }
    }
}

fn write_stars(out: &mut String, base: Base, stars: u32) -> Result<()> {
    match base {
        Base::Int => write!(out, "int")?,
        Base::Struct(number) => write!(out, "struct {number}")?,
    }
    for _ in 0..stars {
        write!(out, "*")?;
    }
    Ok(())
}

// A type, as far as it is seen.
fn write_shape(out: &mut String, shape: Shape) -> Result<()> {
    match shape {
        Shape::Value { base, stars } => write_stars(out, base, stars)?,
        Shape::Array { base, stars } => {
            write_stars(out, base, stars)?;
            write!(out, "[]")?;
        }
        Shape::Outside => write!(out, "outside")?,
    }
    Ok(())
}

fn write_kind(out: &mut String, kind: ProfileType) -> Result<()> {
    write_stars(out, kind.base, kind.stars)
}

// Cells, each with its name.
fn write_cells(out: &mut String, cells: &[Cell]) -> Result<()> {
    let mut first = true;
    for cell in cells {
        if !first {
            write!(out, ", ")?;
        }
        first = false;
        write_kind(out, cell.kind)?;
        write!(out, " ")?;
        write_name(out, &cell.name)?;
    }
    Ok(())
}

// What is said of a declaration: of each name its type, and of each function its name, its result and its parameters.
pub fn write_seen(
    out: &mut String,
    tree: &Declaration,
    text: &str,
    tokens: &[Token],
) -> Result<()> {
    let on = Texts {
        source: text.as_bytes(),
        tokens,
    };
    let Declaration::Declaration {
        specifiers,
        declared,
    } = tree
    else {
        bail!("an assertion");
    };
    let said = specified(&SomeScope, on, specifiers);
    let mut first = true;
    for each in declared {
        if !first {
            write!(out, ", ")?;
        }
        first = false;
        if let Some(function) = function_in(&each.declarator, on, said) {
            write_shape(out, function.gives)?;
            write!(out, " ")?;
            write_name(out, function.name)?;
            write_held(out, text, tokens, function.parameters)?;
            continue;
        }
        write_shape(out, declared_shape(each, on, said))?;
        if let Some(name) = declared_name(&each.declarator) {
            write!(out, " ")?;
            write_name(out, name)?;
        }
    }
    if declared.is_empty() {
        write_shape(out, said)?;
    }
    Ok(())
}

// What is said of members: their cells.
pub fn write_layout(
    alloc: Global,
    out: &mut String,
    members: &[Declaration],
    text: &str,
    tokens: &[Token],
) -> Result<()> {
    let on = Texts {
        source: text.as_bytes(),
        tokens,
    };
    match layout(alloc, &SomeScope, on, members)? {
        Some(cells) => write_cells(out, &cells),
        None => {
            write!(out, "outside")?;
            Ok(())
        }
    }
}

// What is said of a parameter.
pub fn write_parameter(
    out: &mut String,
    tree: &Declaration,
    text: &str,
    tokens: &[Token],
) -> Result<()> {
    let on = Texts {
        source: text.as_bytes(),
        tokens,
    };
    match parameter_of(&SomeScope, on, tree) {
        Some(kind) => write_kind(out, kind)?,
        None => write!(out, "erased")?,
    }
    Ok(())
}
