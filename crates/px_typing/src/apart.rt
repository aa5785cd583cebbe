ghost use Rattle.std.specs.Prelude.{◌≡◌, ◌++◌, ◌∷◌, [], map, length, IfOk, OnOk};
ghost use Rattle.px_syntax.specs.StatementTree.{statement_tree};
ghost use Rattle.px_syntax.specs.ParsedTree.{parsed_tree, file_tree};
ghost use Rattle.px_typing.specs.Apart.{AreApart, AreMore, items_in, whole};

use px_syntax::{Item, ParsedFile, ParsedItem, Statement};
use px_terms::{Items, NoMemory};
use std::alloc::Global;

/// Items whose bodies were taken out, and these bodies, one for each item: a definition's own, of others an empty one.
#[derive(Drop)]
pub struct Apart {
    pub heads: Vec<ParsedItem>,
    pub bodies: Vec<Items<Statement>>,
}

// An item without its body, and its body.
fn split(alloc: Global, item: ParsedItem) -> (ParsedItem, Items<Statement>)
    ensures { whole (parsed_tree result.0) (map statement_tree result.1) ≡ parsed_tree item }
{
    match item {
        ParsedItem::Parsed(
            Item::Function {
                site,
                result,
                name,
                parameters,
                body,
            },
        ) => {
            let head = Item::Function {
                site,
                result,
                name,
                parameters,
                body: Items::new(alloc),
            };
            (ParsedItem::Parsed(head), body)
        }
        other => (other, Items::new(alloc)),
    }
}

// Takes an item apart, after others.
fn add_item(alloc: Global, item: ParsedItem, apart: &mut Apart) -> Result<(), NoMemory>
    ensures { OnOk result (AreMore apart.old apart.new (parsed_tree item ∷ [])) }
{
    let (head, body) = split(alloc, item);
    apart.heads.push(head)?;
    apart.bodies.push(body)?;
    Ok(())
}

// Takes the items of a file apart, after others.
fn add_file(alloc: Global, file: ParsedFile, apart: &mut Apart) -> Result<(), NoMemory>
    ensures { OnOk result (AreMore apart.old apart.new (file_tree file).items) }
{
    for item in file.items.into_vec() {
        add_item(alloc, item, apart)?;
    }
    Ok(())
}

/// Takes the items of files apart, of which there are `count`.
pub(crate) fn take_apart(
    alloc: Global,
    files: Items<ParsedFile>,
    count: usize,
) -> Result<Apart, NoMemory>
    ensures { IfOk result (AreApart (items_in (map file_tree files))) }
{
    let mut apart = Apart {
        heads: Vec::with_capacity(alloc, count)?,
        bodies: Vec::with_capacity(alloc, count)?,
    };
    for file in files.into_vec() {
        add_file(alloc, file, &mut apart)?;
    }
    Ok(apart)
}
