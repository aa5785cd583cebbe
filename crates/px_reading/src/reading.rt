ghost use Rattle.std.specs.Prelude.{◌≡◌, ◌<◌, ◌≤◌, ◌^◌, ◌++◌, ◌∷◌, [], length, map, IfOk, OnOk, IsErrOf, Ok, Err};
ghost use Rattle.px_lexer.specs.Tokens.{Lexes};
ghost use Rattle.px_lexer.specs.Lent.{as_tokens};
ghost use Rattle.px_syntax.specs.ParsedTree.{parsed_tree, file_tree};
ghost use Rattle.px_reading.specs.Sources.{IsParsed, AreParsed, AreWithin, IsFileOf, HasFault};
ghost use Rattle.px_cutting.specs.Cutting.{Cuts};
ghost use Rattle.px_cutting.specs.Shape.{tokens_in};
ghost use Rattle.px_reading.specs.declared.reading.SourceFault.{SourceFault as AFault};
ghost use Rattle.px_cutting.specs.declared.cutting.ItemFault.TheVariants.{Unbalanced};
ghost use Rattle.px_base.specs.declared.trace.Site.{Site as SpecSite};
ghost use Rattle.px_reading.specs.declared.reading.ReadFault.TheVariants.{Refused, NoMemory};

use px_base::Site;
use px_cutting::{ItemFault, Span, items};
use px_lexer::{LexFault, TokenSlice, Tokens, lex};
use px_parser::{ParseFault, function_name, parse};
use px_syntax::{Name, ParsedFile, ParsedItem};
use px_terms::{Items, NoMemory as OutOfMemory};
use std::alloc::{AllocFailed, Global};

/// Why a source file isn't read, and where.
#[derive(Clone, Copy, Debug, PartialEq, Eq)]
pub enum SourceFault {
    /// A byte begins no token.
    Byte(Site),
    /// A comment isn't closed.
    Comment(Site),
    /// A decimal constant is above 2147483647.
    Constant(Site),
    /// Brackets don't match, or the file ends in an item.
    Unbalanced(Site),
}

/// Why there is no file of items.
#[derive(Clone, Copy, Debug, PartialEq, Eq)]
pub enum ReadFault {
    Refused(SourceFault),
    NoMemory,
}

impl From<OutOfMemory> for ReadFault {
    ghost from_gives = { λ _ e. e ≡ NoMemory };

    fn from(_error: OutOfMemory) -> ReadFault {
        ReadFault::NoMemory
    }
}

impl<T: Drop> From<AllocFailed<T>> for ReadFault {
    ghost from_gives = { λ _ e. e ≡ NoMemory };

    fn from(_error: AllocFailed<T>) -> ReadFault {
        ReadFault::NoMemory
    }
}

/// The items of the file with this number, name and bytes. The number is that of its sites.
pub fn read_file(
    alloc: Global,
    number: u32,
    name: &[u8],
    source: &[u8],
) -> Result<ParsedFile, ReadFault>
    requires { length source.now < 2 ^ 32 }
    ensures file { IfOk result (λ f. IsFileOf number name.now source.now (file_tree f)) }
    // The fault is the first of the file.
    ensures fault { (fault : AFault) → IsErrOf result (Refused fault) → HasFault number source.now fault }
{
    let all = tokens(alloc, number, source)?;
    let tokens = all.as_slice();
    let spans = match spans(alloc, tokens) {
        Ok(spans) => spans,
        Err(ItemFault::Unbalanced(site)) => {
            return Err(ReadFault::Refused(SourceFault::Unbalanced(site)));
        }
        Err(ItemFault::NoMemory) => return Err(ReadFault::NoMemory),
    };
    Ok(ParsedFile {
        name: Name::from_slice(alloc, name)?,
        items: Items::from_vec(parsed_items(alloc, source, tokens, &spans)?),
    })
}

// The tokens.
fn tokens(alloc: Global, number: u32, source: &[u8]) -> Result<Tokens, ReadFault>
    requires { length source.now < 2 ^ 32 }
    ensures tokens { IfOk result (λ v. Lexes number source.now (Ok v)) }
    ensures fault { (fault : AFault) → IsErrOf result (Refused fault) → HasFault number source.now fault }
{
    match lex(alloc, source, number) {
        Ok(tokens) => Ok(tokens),
        Err(LexFault::Byte(site)) => Err(ReadFault::Refused(SourceFault::Byte(site))),
        Err(LexFault::Comment(site)) => Err(ReadFault::Refused(SourceFault::Comment(site))),
        Err(LexFault::Constant(site)) => Err(ReadFault::Refused(SourceFault::Constant(site))),
        Err(LexFault::NoMemory) => Err(ReadFault::NoMemory),
    }
}

// The places of the items among the tokens. No source that memory holds has 2^32 tokens.
fn spans(alloc: Global, tokens: TokenSlice) -> Result<Vec<Span>, ItemFault>
    ensures spans { IfOk result (λ v. Cuts 0 (as_tokens tokens.entry) (Ok v.items)) }
    ensures unbalanced { (site : SpecSite) → IsErrOf result (Unbalanced site) → Cuts 0 (as_tokens tokens.entry) (Err site) }
{
    if tokens.len() > u32::MAX as usize {
        return Err(ItemFault::NoMemory);
    }
    items(alloc, tokens)
}

// The items, in order.
fn parsed_items(
    alloc: Global,
    source: &[u8],
    tokens: TokenSlice,
    spans: &[Span],
) -> Result<Vec<ParsedItem>, OutOfMemory>
    requires { AreWithin (length (as_tokens tokens)) spans.now }
    ensures { IfOk result (λ v. AreParsed source.now (as_tokens tokens.entry) spans.now (map parsed_tree v.items)) }
{
    let mut parsed = Vec::new(alloc);
    for i in 0..spans.len() {
        let item = parsed_item(alloc, source, tokens_in(tokens, spans[i]))?;
        parsed.push(item)?;
    }
    Ok(parsed)
}

// The tokens of an item.
fn tokens_in<'a>(tokens: TokenSlice<'a>, span: Span) -> TokenSlice<'a>
    requires some { span.first < span.after }
    requires within { span.after ≤ length (as_tokens tokens) }
    ensures some { 0 < length (as_tokens result) }
    ensures tokens { as_tokens result ≡ tokens_in (as_tokens tokens.entry) span }
{
    tokens.range(span.first as usize, span.after as usize)
}

// An item of these tokens.
fn parsed_item(alloc: Global, source: &[u8], tokens: TokenSlice) -> Result<ParsedItem, OutOfMemory>
    requires { 0 < length (as_tokens tokens) }
    ensures { IfOk result (λ i. IsParsed source.now (as_tokens tokens.entry) (parsed_tree i)) }
{
    match parse(alloc, source, tokens) {
        Ok(item) => Ok(ParsedItem::Parsed(item)),
        Err(ParseFault::Outside { word, site }) => {
            let name = function_name(alloc, source, tokens)?;
            Ok(ParsedItem::Out { name, site, word })
        }
        Err(ParseFault::NoMemory) => Err(OutOfMemory),
    }
}
