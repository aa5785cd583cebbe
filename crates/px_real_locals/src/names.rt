ghost use Rattle.std.specs.Prelude.{◌≡◌, ◌&&◌, ◌||◌, not, ℕ, List, Some, None, drop, map, option_map, IfOk, OnOk, if◌then◌else◌};
ghost use Rattle.px_expressions.specs.Lexemes.{text_of};
ghost use Rattle.px_real_expressions.specs.declared.terminal.Terminal.TheVariants as T;
ghost use Rattle.px_real_expressions.specs.Lexemes.{same};
ghost use Rattle.px_real_symbols.specs.Symbols.{see};
ghost use Rattle.px_real_types.specs.Scopes.{texts};
ghost use Rattle.px_real_locals.specs.Addressed as Rules;
ghost use Rattle.px_real_locals.specs.Views.{holds, is_taken};

use indexmap::IndexMap;
use px_expressions::text;
use px_real_declaring::reading::NoTypes;
use px_real_expressions::Terminal;
use px_real_symbols::symbol::{Symbol, symbols};
use px_real_types::Texts;
use px_terms::NoMemory;
use std::alloc::Global;

/// The names of which the address is taken somewhere in a function's body. A name is found in constant time.
#[derive(Drop)]
pub struct AddressedNames<'a> {
    table: IndexMap<&'a [u8], ()>,
}

// Whether it can only end an operand.
fn ends_operand(terminal: Terminal) -> bool
    ensures { result ≡ Rules.ends_operand terminal }
{
    match terminal {
        Terminal::Name
        | Terminal::Constant
        | Terminal::String
        | Terminal::CloseBracket
        | Terminal::PlusPlus
        | Terminal::MinusMinus => true,
        _ => false,
    }
}

// Whether it may stand between `&` and the name.
fn is_passed(terminal: Terminal) -> bool
    ensures { result ≡ Rules.is_passed terminal }
{
    match terminal {
        Terminal::OpenParenthesis | Terminal::Extension => true,
        _ => false,
    }
}

// Whether what stands from this number on makes the name before it a pointer to something of which the address is taken.
fn leads_on(source: &[u8], symbols: &[Symbol], at: usize) -> bool
    ensures { result ≡ Rules.leads_on (drop at (map (see source.now) symbols.now)) }
{
    if at >= symbols.len() {
        return false;
    }
    let terminal = symbols[at].terminal;
    terminal == Terminal::Arrow || terminal == Terminal::OpenBracket
}

// This name, which stands before the one with this number, if its address is taken.
fn name_of<'a>(
    source: &'a [u8],
    symbol: Symbol,
    symbols: &[Symbol],
    behind: usize,
) -> Option<&'a [u8]>
    ensures { option_map (λ n. n.now) result ≡ (if same symbol.terminal T.Name && not (Rules.leads_on (drop behind (map (see source.entry.now) symbols.now))) then Some (text_of source.entry.now symbol.start symbol.end) else None) }
{
    if symbol.terminal == Terminal::Name && !leads_on(source, symbols, behind) {
        Some(text(source, symbol.start, symbol.end))
    } else {
        None
    }
}

// The name that an `&` before the token with this number stands before, if its address is taken.
fn taken<'a>(source: &'a [u8], symbols: &[Symbol], start: usize) -> Option<&'a [u8]>
    ensures { option_map (λ n. n.now) result ≡ Rules.taken (drop start (map (see source.entry.now) symbols.now)) }
{
    for at in start..symbols.len() {
        let symbol = symbols[at];
        if !is_passed(symbol.terminal) {
            return name_of(source, symbol, symbols, at + 1);
        }
    }
    None
}

impl<'a> AddressedNames<'a> {
    // The name that an `&` before the token with this number stands before, if its address is taken.
    fn add_taken(&mut self, source: &'a [u8], symbols: &[Symbol], at: usize) -> Result<(), NoMemory>
        ensures { OnOk result ((name : List ℕ) → holds self.new name ≡ (is_taken (Rules.taken (drop at (map (see source.entry.now) symbols.now))) name || holds self.old name)) }
    {
        if let Some(name) = taken(source, symbols, at) {
            self.table.insert(name, ())?;
        }
        Ok(())
    }

    /// Whether an address of what has this name may be taken.
    pub fn contains(&self, name: &[u8]) -> bool
        ensures { result ≡ holds self.now name.now }
    {
        self.table.get(name).is_some()
    }
}

/// The names of which an address may be taken among these tokens.
pub fn addressed_names<'a>(alloc: Global, on: Texts<'a>) -> Result<AddressedNames<'a>, NoMemory>
    ensures { IfOk result (λ a. (name : List ℕ) → holds a name ≡ Rules.is_addressed (texts on.entry) name) }
{
    let symbols = symbols(alloc, on.source, &NoTypes, on.tokens)?;
    let mut names = AddressedNames {
        table: IndexMap::new(alloc),
    };
    let mut ended = false;
    for at in 0..symbols.len() {
        let terminal = symbols[at].terminal;
        if terminal == Terminal::Ampersand && !ended {
            names.add_taken(on.source, &symbols, at + 1)?;
        }
        ended = ends_operand(terminal);
    }
    Ok(names)
}
