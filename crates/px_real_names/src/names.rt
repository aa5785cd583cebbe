ghost use Rattle.std.specs.Prelude.{◌≡◌, ◌∷◌, [], List, map, OnOk};
ghost use Rattle.std.specs.Str.{bytes_eq};
ghost use Rattle.px_real_expressions.specs.Lexemes.{Lexeme};
ghost use Rattle.px_real_declarations.specs.Names as Scopes;
ghost use Rattle.px_real_declaring.specs.Trees.{specifier_tree, declarator_tree, declared_tree, declaration_tree};
ghost use Rattle.px_real_members.specs.Trees.{head_tree};
ghost use Rattle.px_real_types.specs.Scopes.{texts};
ghost use Rattle.px_real_names.specs.Behind.{names_view, is_typedef_word, of_head, IsBehind};

use crate::enumerated::enumerated;
use px_real_declaring::{Declaration, DeclarationFault, Declarator, Declared, Specifier};
use px_real_members::Head;
use px_real_symbols::TypeNames;
use px_real_types::{Texts, declared_name};
use px_syntax::Name;
use px_terms::NoMemory;
use std::alloc::Global;
use std::marker::Model;

// A name and whether it is a type's.
#[derive(Drop)]
struct Entry {
    name: Name,
    is_type: bool,
}

// Whether it is this word.
fn is_named(entry: &Entry, word: &[u8]) -> bool
    ensures { result ≡ bytes_eq word.now entry.now.name }
{
    word == entry.name.as_slice()
}

// Whether the nearest of these that is this word is a type's; the nearest is the last.
fn is_type(entries: &[Entry], word: &[u8]) -> bool
    ensures { result ≡ Scopes.is_type (names_view entries.now) word.now }
{
    let mut at = entries.len();
    while at > 0 {
        at -= 1;
        if is_named(&entries[at], word) {
            return entries[at].is_type;
        }
    }
    false
}

/// The names in scope. Contracts see a list of them, the nearest first, each with whether it is a type's.
#[derive(Drop)]
pub struct Names {
    entries: Vec<Entry>,
}

impl Model for Names {
    ghost use Rattle.px_real_declarations.specs.Names as Scopes;
    ghost use Rattle.px_real_names.specs.Behind.{names_view};

    ghost Value = { Scopes.Names };

    ghost view = { λ n. names_view n.entries.items };
}

impl TypeNames for Names {
    ghost named = { Scopes.is_type };

    fn is_type(&self, word: &[u8]) -> bool {
        is_type(&self.entries, word)
    }
}

// Whether it is the word `typedef`.
fn is_typedef_word(specifier: &Specifier) -> bool
    ensures { (all : List Lexeme) → result ≡ is_typedef_word (specifier_tree all specifier.now) }
{
    match specifier {
        Specifier::Keyword { word, .. } => word.as_slice() == b"typedef".as_slice(),
        _ => false,
    }
}

/// Whether `typedef` is among them.
pub fn is_typedef(specifiers: &[Specifier]) -> bool
    ensures { (all : List Lexeme) → result ≡ Scopes.is_typedef (map (specifier_tree all) specifiers.now) }
{
    for specifier in specifiers {
        if is_typedef_word(specifier) {
            return true;
        }
    }
    false
}

impl Names {
    /// None. Takes no memory.
    pub fn new(alloc: Global) -> Names
        ensures { result ≡ [] }
    {
        Names {
            entries: Vec::new(alloc),
        }
    }

    /// Brings a name into scope.
    pub fn add(&mut self, alloc: Global, name: &[u8], is_type: bool) -> Result<(), NoMemory>
        ensures { OnOk result (self.new ≡ (name.now, is_type) ∷ self.old) }
    {
        let name = Name::from_slice(alloc, name)?;
        self.entries.push(Entry { name, is_type })?;
        Ok(())
    }

    // Brings enumerators into scope.
    fn add_enumerators(&mut self, alloc: Global, words: &[Name]) -> Result<(), NoMemory>
        ensures { OnOk result (self.new ≡ Scopes.with_enumerators words.now self.old) }
    {
        for word in words {
            self.add(alloc, word.as_slice(), false)?;
        }
        Ok(())
    }

    // Brings what a declarator declares into scope, if it has a name.
    fn add_declarator(
        &mut self,
        alloc: Global,
        is_type: bool,
        declarator: &Declarator,
    ) -> Result<(), NoMemory>
        ensures { OnOk result ((all : List Lexeme) → self.new ≡ Scopes.with_name is_type (Scopes.declared_name (declarator_tree all declarator.now)) self.old) }
    {
        match declared_name(declarator) {
            Some(name) => self.add(alloc, name.as_slice(), is_type),
            None => Ok(()),
        }
    }

    // Brings all that is declared into scope.
    fn add_all(
        &mut self,
        alloc: Global,
        is_type: bool,
        declared: &[Declared],
    ) -> Result<(), NoMemory>
        ensures { OnOk result ((all : List Lexeme) → self.new ≡ Scopes.with_declared is_type (map (declared_tree all) declared.now) self.old) }
    {
        for each in declared {
            self.add_declarator(alloc, is_type, &each.declarator)?;
        }
        Ok(())
    }

    /// Brings what a declaration declares into scope: enumerators, those within its structs too, and then its names.
    pub fn declare(
        &mut self,
        alloc: Global,
        on: Texts,
        declaration: &Declaration,
    ) -> Result<(), DeclarationFault>
        ensures { IsBehind self.old (declaration_tree (texts on.entry) declaration.now) self.new result }
    {
        let Declaration::Declaration {
            specifiers,
            declared,
        } = declaration
        else {
            return Ok(());
        };
        let words = enumerated(alloc, on, self, specifiers)?;
        self.add_enumerators(alloc, &words)?;
        self.add_all(alloc, is_typedef(specifiers), declared)?;
        Ok(())
    }

    /// Brings what a function's head declares into scope: enumerators of its specifiers, and then its name.
    pub fn declare_function(
        &mut self,
        alloc: Global,
        on: Texts,
        head: &Head,
    ) -> Result<(), DeclarationFault>
        ensures { IsBehind self.old (of_head (head_tree (texts on.entry) head.now)) self.new result }
    {
        let words = enumerated(alloc, on, self, &head.specifiers)?;
        self.add_enumerators(alloc, &words)?;
        self.add_declarator(alloc, is_typedef(&head.specifiers), &head.declarator)?;
        Ok(())
    }
}
