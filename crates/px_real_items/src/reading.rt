ghost use Rattle.std.specs.Prelude.{◌≡◌, ◌<◌, ◌^◌, length, map, IfOk, IsErrOf};
ghost use Rattle.px_base.specs.declared.trace.Site.{Site as SpecSite};
ghost use Rattle.px_real_cutting.specs.declared.fault.ItemFault.TheVariants.{Unbalanced};
ghost use Rattle.px_real_cutting.specs.Roles.{as_mark};
ghost use Rattle.px_real_cutting.specs.Items.{IsCut};
ghost use Rattle.px_real_symbols.specs.Symbols.{lexemes};
ghost use Rattle.px_real_blocks.specs.Parts.{no_types};
ghost use Rattle.px_real_items.specs.Externals.{tokens_of, AreRead};
ghost use Rattle.px_real_items.specs.Trees.{item_tree, IsOne};
ghost use Rattle.px_real_items.specs.Files.{item_of, IsFile};

use crate::externals::external;
use crate::tree::{FileItem, Unread};
use px_real_cutting::{Item, ItemFault, items};
use px_real_declaring::DeclarationFault;
use px_real_names::Names;
use px_real_names::slices::{skip, some_first};
use px_real_tokens::Token;
use px_terms::NoMemory as OutOfMemory;
use std::alloc::Global;

// The tokens of an item.
fn tokens_of<'a>(tokens: &'a [Token], item: Item) -> &'a [Token]
    ensures { result.now ≡ tokens_of tokens.entry.now item }
{
    some_first(
        skip(tokens, item.first as usize),
        item.after.saturating_sub(item.first) as usize,
    )
}

// An item of a file, where these names are in scope; and they are then those in scope behind it.
fn file_item(
    alloc: Global,
    source: &[u8],
    tokens: &[Token],
    item: Item,
    names: &mut Names,
) -> Result<FileItem, OutOfMemory>
    ensures read { IfOk result (λ x. IsOne (lexemes no_types source.now tokens.now) names.old (item_tree (lexemes no_types source.now tokens.now) x) names.new) }
    ensures same { IfOk result (λ x. x.item ≡ item) }
{
    match external(alloc, source, tokens_of(tokens, item), names) {
        Ok(external) => Ok(FileItem {
            item,
            read: Ok(external),
        }),
        Err(DeclarationFault::NotADeclaration(at)) => Ok(FileItem {
            item,
            read: Err(Unread::Neither(at)),
        }),
        Err(DeclarationFault::Deep(at)) => Ok(FileItem {
            item,
            read: Err(Unread::Deep(at)),
        }),
        Err(DeclarationFault::NoMemory) => Err(OutOfMemory),
    }
}

/// The items of a file, in order, each read where the names in scope before it are known; and they are then those in scope behind them.
pub fn read_items(
    alloc: Global,
    source: &[u8],
    tokens: &[Token],
    items: &[Item],
    names: &mut Names,
) -> Result<Vec<FileItem>, OutOfMemory>
    // What is read of an item is what the grammar has; one of which nothing is read is none of the grammar.
    ensures read { IfOk result (λ xs. AreRead (lexemes no_types source.now tokens.now) names.old (map (item_tree (lexemes no_types source.now tokens.now)) xs.items) names.new) }
    // They are these items.
    ensures same { IfOk result (λ xs. map item_of (map (item_tree (lexemes no_types source.now tokens.now)) xs.items) ≡ items.now) }
{
    let mut all = Vec::new(alloc);
    for item in items {
        let read = file_item(alloc, source, tokens, *item, names)?;
        all.push(read)?;
    }
    Ok(all)
}

/// The items of a file of these tokens, each read, and the names in scope behind them.
pub fn file_items(
    alloc: Global,
    source: &[u8],
    tokens: &[Token],
) -> Result<(Vec<FileItem>, Names), ItemFault>
    requires { length tokens.now < 2 ^ 32 }
    // They are cut and read as the rules say.
    ensures read { IfOk result (λ r. IsFile source.now tokens.now (map (item_tree (lexemes no_types source.now tokens.now)) r.0.items) r.1) }
    // A fault comes where the cutting stops, at its place.
    ensures unbalanced { (place : SpecSite) → IsErrOf result (Unbalanced place) → IsCut (map (as_mark source.now) tokens.now) (Err place) }
{
    let items = items(alloc, source, tokens)?;
    let mut names = Names::new(alloc);
    let read = read_items(alloc, source, tokens, &items, &mut names)?;
    Ok((read, names))
}
