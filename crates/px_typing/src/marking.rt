ghost use Rattle.std.specs.Prelude.{◌≡◌, [], ◌∷◌, ◌++◌, List, is_some, IfOk, OnOk};
ghost use Rattle.std.specs.List.{list_any};
ghost use Rattle.std.specs.Str.{bytes_eq};
ghost use Rattle.px_syntax.specs.ItemTree.{item_tree};
ghost use Rattle.px_syntax.specs.ParsedTree.{ParsedTree, parsed, parsed_tree};
ghost use Rattle.px_bodies.specs.Environment.{environment_of, fields_of, signature_of};
ghost use Rattle.px_typing.specs.Sights.{sighted};
ghost use Rattle.px_typing.specs.Keeping.{is_duplicate};

use crate::shapes::{are_many, have_types};
use crate::sights::Names;
use px_bodies::Environment;
use px_syntax::{FieldDeclaration, Item, Name, Parameter, ParsedItem, ResultType};
use px_terms::NoMemory;
use std::alloc::Global;

/// What is known of a program while its items are read: which structs were defined so far, and what bodies
/// see of the structs and functions.
#[derive(Drop)]
pub struct Reading<'a> {
    pub structs: Names<'a>,
    pub environment: Environment<'a>,
}

impl<'a> Reading<'a> {
    ghost use Rattle.px_typing.specs.Readings.{Knows, with_definition, with_first};

    pub fn new(alloc: Global) -> Reading<'a>
        ensures { Knows [] [] result }
    {
        Reading {
            structs: Names::new(alloc),
            environment: Environment::new(alloc),
        }
    }

    // Takes a struct's definition in, and says whether its struct was defined before.
    fn define_struct(
        &mut self,
        alloc: Global,
        tag: &'a Name,
        fields: &'a [FieldDeclaration],
    ) -> Result<bool, NoMemory>
        ensures duplicate { IfOk result (λ duplicate. duplicate ≡ list_any (bytes_eq tag.entry.now) self.old.structs) }
        ensures structs { OnOk result (self.new.structs ≡ sighted bytes_eq self.old.structs tag.entry.now) }
        ensures environment { IfOk result (λ duplicate. environment_of self.new.environment ≡ with_definition duplicate (environment_of self.old.environment) tag.entry.now (fields_of fields.entry.now)) }
    {
        if !self.structs.see(tag.as_slice())? {
            return Ok(true);
        }
        if are_many(fields) {
            return Ok(false);
        }
        if have_types(alloc, fields)? {
            self.environment.add_struct(tag, fields)?;
        }
        Ok(false)
    }

    // Takes a function's signature in, where it has none, and says whether it has.
    fn declare(
        &mut self,
        name: &'a Name,
        returns: &'a ResultType,
        parameters: &'a [Parameter],
    ) -> Result<bool, NoMemory>
        ensures duplicate { IfOk result (λ duplicate. duplicate ≡ is_some ((environment_of self.old.environment).signature name.entry.now)) }
        ensures structs { OnOk result (self.new.structs ≡ self.old.structs) }
        ensures environment { OnOk result (environment_of self.new.environment ≡ with_first (environment_of self.old.environment) name.entry.now (signature_of returns.entry.now parameters.entry.now)) }
    {
        if self.environment.signature(name).is_some() {
            return Ok(true);
        }
        self.environment.add_signature(name, returns, parameters)?;
        Ok(false)
    }

    // Takes the definition in that an item with a tree may be, and says whether the same was defined before.
    fn define_tree(&mut self, alloc: Global, item: &'a Item) -> Result<bool, NoMemory>
        ensures { (before : List ParsedTree) → Knows before [] self.old → IfOk result (λ duplicate. duplicate ≡ is_duplicate before (parsed (item_tree item.entry.now))) × OnOk result (Knows (before ++ parsed (item_tree item.entry.now) ∷ []) [] self.new) }
    {
        match item {
            Item::Struct { name, fields, .. } => self.define_struct(alloc, name, fields.as_slice()),
            Item::Function {
                name,
                result,
                parameters,
                ..
            } => self.declare(name, result, parameters.as_slice()),
            Item::Declared { .. } => Ok(false),
            Item::Prototype { .. } => Ok(false),
        }
    }

    /// Takes an item's definition in, and says whether the same was defined before.
    pub fn define(&mut self, alloc: Global, item: &'a ParsedItem) -> Result<bool, NoMemory>
        ensures { (before : List ParsedTree) → Knows before [] self.old → IfOk result (λ duplicate. duplicate ≡ is_duplicate before (parsed_tree item.entry.now)) × OnOk result (Knows (before ++ parsed_tree item.entry.now ∷ []) [] self.new) }
    {
        match item {
            ParsedItem::Parsed(item) => self.define_tree(alloc, item),
            ParsedItem::Out { .. } => Ok(false),
        }
    }

    // Takes the prototype in that an item with a tree may be.
    fn declare_tree(&mut self, item: &'a Item) -> Result<(), NoMemory>
        ensures { (defined before : List ParsedTree) → Knows defined before self.old → OnOk result (Knows defined (before ++ parsed (item_tree item.entry.now) ∷ []) self.new) }
    {
        match item {
            Item::Prototype {
                name,
                result,
                parameters,
                ..
            } => {
                self.declare(name, result, parameters.as_slice())?;
                Ok(())
            }
            Item::Struct { .. } => Ok(()),
            Item::Declared { .. } => Ok(()),
            Item::Function { .. } => Ok(()),
        }
    }

    /// Takes a prototype in, after all definitions.
    pub fn declare_item(&mut self, item: &'a ParsedItem) -> Result<(), NoMemory>
        ensures { (defined before : List ParsedTree) → Knows defined before self.old → OnOk result (Knows defined (before ++ parsed_tree item.entry.now ∷ []) self.new) }
    {
        match item {
            ParsedItem::Parsed(item) => self.declare_tree(item),
            ParsedItem::Out { .. } => Ok(()),
        }
    }
}
