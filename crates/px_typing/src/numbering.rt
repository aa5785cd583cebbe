ghost use Rattle.std.specs.Prelude.{◌≡◌, [], ◌∷◌, map, flat_map, filter_map, option_map, option_to_list, OnOk};
ghost use Rattle.px_bodies.specs.Environment.{environment_of};
ghost use Rattle.px_bodies.specs.Lent.{type_of};
ghost use Rattle.px_typing.specs.Mentions.{Mention};
ghost use Rattle.px_typing.specs.MentionViews.{mention_of};
ghost use Rattle.px_typing.specs.ItemViews.{judged_of};
ghost use Rattle.px_syntax.specs.ParsedTree.{parsed_tree};
ghost use Rattle.px_typing.specs.Programs as specs;
ghost use Rattle.px_typing.specs.Programs.{behind, mentions, seen_names, seen_blocks, kept_name, left_name, mentioned_name, mentioned_blocks, called_blocks};

use crate::item_mentions::mentions_of;
use crate::marked::JudgedItem;
use crate::mention::Mentioned;
use crate::sights::{Names, Types};
use px_base::ProcId;
use px_bodies::{CType, Environment, Prototype};
use px_syntax::{Base, Item, Name, ParsedItem, ResultType, TypeName};
use px_terms::{NoMemory, TypeId};
use std::alloc::Global;

/// Names and block types in the order of first sight, and an environment that has their numbers.
#[derive(Drop)]
pub struct Numbering<'a> {
    pub names: Names<'a>,
    pub types: Types<'a>,
    pub environment: Environment<'a>,
}

impl<'a> Numbering<'a> {
    ghost use Rattle.px_typing.specs.Numberings.{Sees};

    /// Nothing is numbered yet. Takes no memory.
    pub fn new(alloc: Global, environment: Environment<'a>) -> Numbering<'a>
        ensures names { result.names ≡ [] }
        ensures types { result.types ≡ [] }
        ensures environment { result.environment ≡ environment.entry }
    {
        Numbering {
            names: Names::new(alloc),
            types: Types::new(alloc),
            environment,
        }
    }

    /// Sees the name of a function.
    pub fn see_name(&mut self, name: &'a Name) -> Result<(), NoMemory>
        ensures { OnOk result (Sees self.old self.new (name.entry.now ∷ []) []) }
    {
        let Ok(number) = u32::try_from(self.names.len()) else {
            return Err(NoMemory);
        };
        if self.names.see(name.as_slice())? {
            self.environment.number_name(name, ProcId(number))?;
        }
        Ok(())
    }

    /// Sees a block type.
    pub fn see_type(&mut self, of: CType<'a>) -> Result<(), NoMemory>
        ensures { OnOk result (Sees self.old self.new [] (type_of of.entry ∷ [])) }
    {
        let Ok(number) = u32::try_from(self.types.len()) else {
            return Err(NoMemory);
        };
        if self.types.see(of)? {
            self.environment.number_type(of, TypeId(number))?;
        }
        Ok(())
    }

    /// Sees the names of functions.
    pub fn see_names(&mut self, names: &'a [Name]) -> Result<(), NoMemory>
        ensures { OnOk result (Sees self.old self.new names.entry.now []) }
    {
        for name in names {
            self.see_name(name)?;
        }
        Ok(())
    }

    /// Sees block types.
    pub fn see_types(&mut self, types: &'a [TypeName]) -> Result<(), NoMemory>
        ensures { OnOk result (Sees self.old self.new [] types.entry.now) }
    {
        for of in types {
            self.see_type(CType::of(of))?;
        }
        Ok(())
    }

    // Sees the blocks of a base after fewer stars than these.
    fn see_after(&mut self, base: &'a Base, stars: u32) -> Result<(), NoMemory>
        ensures { OnOk result (Sees self.old self.new [] (behind base.entry.now stars)) }
    {
        for n in 0..stars {
            self.see_type(CType::new(base, n))?;
        }
        Ok(())
    }

    // Sees what is named at a place.
    fn see_mentioned(&mut self, mentioned: Mentioned<'a>) -> Result<(), NoMemory>
        ensures { OnOk result (Sees self.old self.new (option_to_list (mentioned_name (mention_of mentioned.entry))) (mentioned_blocks (mention_of mentioned.entry))) }
    {
        match mentioned {
            Mentioned::Calls(name) => self.see_name(name),
            Mentioned::Declares(name) => self.see_name(name),
            Mentioned::Named(base, stars) => self.see_after(base, stars),
            Mentioned::Sized(base, stars) => {
                self.see_after(base, stars)?;
                self.see_type(CType::new(base, stars))
            }
            Mentioned::Defines(tag) => self.see_type(CType::tagged(tag)),
        }
    }

    // Sees the blocks that the result of a call names.
    fn see_called(&mut self, mentioned: Mentioned<'a>) -> Result<(), NoMemory>
        ensures { OnOk result (Sees self.old self.new [] (called_blocks (environment_of self.old.environment).signature (mention_of mentioned.entry))) }
    {
        let Mentioned::Calls(name) = mentioned else {
            return Ok(());
        };
        match self.environment.signature(name) {
            Some(
                Prototype {
                    result: ResultType::Value(given),
                    ..
                },
            ) => self.see_after(&given.base, given.stars),
            _ => Ok(()),
        }
    }

    // Sees all that is named.
    fn see_mentions(&mut self, mentions: &[Mentioned<'a>]) -> Result<(), NoMemory>
        ensures { OnOk result (Sees self.old self.new (filter_map mentioned_name (map mention_of mentions.now)) (flat_map mentioned_blocks (map mention_of mentions.now))) }
    {
        for i in 0..mentions.len() {
            self.see_mentioned(mentions[i])?;
        }
        Ok(())
    }

    // Sees the blocks that the results of calls name.
    fn see_results(&mut self, mentions: &[Mentioned<'a>]) -> Result<(), NoMemory>
        ensures { OnOk result (Sees self.old self.new [] (flat_map (called_blocks (environment_of self.old.environment).signature) (map mention_of mentions.now))) }
    {
        for i in 0..mentions.len() {
            self.see_called(mentions[i])?;
        }
        Ok(())
    }

    // Sees all that an item names, if it is kept.
    fn see_item(&mut self, alloc: Global, judged: JudgedItem<'a>) -> Result<(), NoMemory>
        ensures { OnOk result (Sees self.old self.new (filter_map mentioned_name (mentions (judged_of judged.entry ∷ []))) (flat_map mentioned_blocks (mentions (judged_of judged.entry ∷ [])))) }
    {
        let mentions = mentions_of(alloc, judged)?;
        self.see_mentions(mentions.as_slice())
    }

    // Sees the blocks that the results of the calls of an item name, if it is kept.
    fn see_item_results(&mut self, alloc: Global, judged: JudgedItem<'a>) -> Result<(), NoMemory>
        ensures { OnOk result (Sees self.old self.new [] (flat_map (called_blocks (environment_of self.old.environment).signature) (mentions (judged_of judged.entry ∷ [])))) }
    {
        let mentions = mentions_of(alloc, judged)?;
        self.see_results(mentions.as_slice())
    }

    // Sees all that the kept items name.
    fn see_items(&mut self, alloc: Global, judged: &[JudgedItem<'a>]) -> Result<(), NoMemory>
        ensures { OnOk result (Sees self.old self.new (filter_map mentioned_name (mentions (map judged_of judged.now))) (flat_map mentioned_blocks (mentions (map judged_of judged.now)))) }
    {
        for i in 0..judged.len() {
            self.see_item(alloc, judged[i])?;
        }
        Ok(())
    }

    // Sees the blocks that the results of the kept items' calls name.
    fn see_items_results(
        &mut self,
        alloc: Global,
        judged: &[JudgedItem<'a>],
    ) -> Result<(), NoMemory>
        ensures { OnOk result (Sees self.old self.new [] (flat_map (called_blocks (environment_of self.old.environment).signature) (mentions (map judged_of judged.now)))) }
    {
        for i in 0..judged.len() {
            self.see_item_results(alloc, judged[i])?;
        }
        Ok(())
    }

    // Sees the name of an item, if it is a function.
    fn see_function(&mut self, item: &'a ParsedItem) -> Result<(), NoMemory>
        ensures { OnOk result (Sees self.old self.new (option_to_list (specs.function_name (parsed_tree item.entry.now))) []) }
    {
        match function_name(item) {
            Some(name) => self.see_name(name),
            None => Ok(()),
        }
    }

    // Sees the name of a function that is kept.
    fn see_kept_item(&mut self, judged: JudgedItem<'a>) -> Result<(), NoMemory>
        ensures { OnOk result (Sees self.old self.new (option_to_list (kept_name (judged_of judged.entry))) []) }
    {
        match judged.word {
            None => self.see_function(judged.item),
            Some(_) => Ok(()),
        }
    }

    // Sees the name of a function that is left out.
    fn see_left_item(&mut self, judged: JudgedItem<'a>) -> Result<(), NoMemory>
        ensures { OnOk result (Sees self.old self.new (option_to_list (left_name (judged_of judged.entry))) []) }
    {
        match judged.word {
            None => Ok(()),
            Some(_) => self.see_function(judged.item),
        }
    }

    // Sees the names of the functions that are kept.
    fn see_kept(&mut self, judged: &[JudgedItem<'a>]) -> Result<(), NoMemory>
        ensures { OnOk result (Sees self.old self.new (filter_map kept_name (map judged_of judged.now)) []) }
    {
        for i in 0..judged.len() {
            self.see_kept_item(judged[i])?;
        }
        Ok(())
    }

    // Sees the names of the functions that are left out.
    fn see_left(&mut self, judged: &[JudgedItem<'a>]) -> Result<(), NoMemory>
        ensures { OnOk result (Sees self.old self.new (filter_map left_name (map judged_of judged.now)) []) }
    {
        for i in 0..judged.len() {
            self.see_left_item(judged[i])?;
        }
        Ok(())
    }

    /// Sees all that a program numbers, in its order. What an item names is listed twice, and each time let go before
    /// the next item.
    pub fn see_program(&mut self, alloc: Global, judged: &[JudgedItem<'a>]) -> Result<(), NoMemory>
        ensures { OnOk result (Sees self.old self.new (seen_names (map judged_of judged.now) (mentions (map judged_of judged.now))) (seen_blocks (environment_of self.old.environment).signature (mentions (map judged_of judged.now)))) }
    {
        self.see_kept(judged)?;
        self.see_left(judged)?;
        self.see_type(CType::int())?;
        self.see_items(alloc, judged)?;
        self.see_items_results(alloc, judged)
    }
}

// The name of an item that is function-shaped and has one.
pub(crate) fn function_name<'a>(item: &'a ParsedItem) -> Option<&'a Name>
    ensures { option_map (λ n. n.now) result ≡ specs.function_name (parsed_tree item.entry.now) }
{
    match item {
        ParsedItem::Parsed(Item::Function { name, .. }) => Some(name),
        ParsedItem::Out { name, .. } => name.as_ref(),
        _ => None,
    }
}
