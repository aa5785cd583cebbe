ghost use Rattle.std.specs.Prelude.{◌≡◌, [], ◌++◌, List, map, flat_map, IfOk, OnOk};
ghost use Rattle.px_syntax.specs.ParsedTree.{ParsedTree, parsed_tree, file_tree};
ghost use Rattle.px_bodies.specs.Environment.{environment_of};
ghost use Rattle.px_typing.specs.Keeping.{marked_after};
ghost use Rattle.px_typing.specs.ItemViews.{marked_of};
ghost use Rattle.px_typing.specs.Readings.{Knows};
ghost use Rattle.px_typing.specs.Programs.{environment_in};

use crate::marked::MarkedItem;
use crate::marking::Reading;
use px_bodies::Environment;
use px_syntax::{ParsedFile, ParsedItem};
use px_terms::NoMemory;
use std::alloc::Global;

/// The items of a program, marked, and what bodies see of them.
#[derive(Drop)]
pub struct ReadItems<'a> {
    pub marked: Vec<MarkedItem<'a>>,
    pub environment: Environment<'a>,
}

// Marks the items of a file, and takes their definitions in.
fn mark_items<'a>(
    alloc: Global,
    items: &'a [ParsedItem],
    reading: &mut Reading<'a>,
    marked: &mut Vec<MarkedItem<'a>>,
) -> Result<(), NoMemory>
    ensures { (before : List ParsedTree) → Knows before [] reading.old → OnOk result ((map marked_of marked.new.items ≡ map marked_of marked.old.items ++ marked_after before (map parsed_tree items.entry.now)) × Knows (before ++ map parsed_tree items.entry.now) [] reading.new) }
{
    for item in items {
        let duplicate = reading.define(alloc, item)?;
        marked.push(MarkedItem { item, duplicate })?;
    }
    Ok(())
}

// Marks the items of files, and takes their definitions in.
fn mark_files<'a>(
    alloc: Global,
    files: &'a [ParsedFile],
    reading: &mut Reading<'a>,
    marked: &mut Vec<MarkedItem<'a>>,
) -> Result<(), NoMemory>
    ensures { (before : List ParsedTree) → Knows before [] reading.old → OnOk result ((map marked_of marked.new.items ≡ map marked_of marked.old.items ++ marked_after before (flat_map (λ f. f.items) (map file_tree files.entry.now))) × Knows (before ++ flat_map (λ f. f.items) (map file_tree files.entry.now)) [] reading.new) }
{
    for file in files {
        mark_items(alloc, file.items.as_slice(), reading, marked)?;
    }
    Ok(())
}

// Takes the prototypes of items in.
fn declare_items<'a>(marked: &[MarkedItem<'a>], reading: &mut Reading<'a>) -> Result<(), NoMemory>
    ensures { (defined before : List ParsedTree) → Knows defined before reading.old → OnOk result (Knows defined (before ++ map (λ m. parsed_tree m.item.now) marked.now) reading.new) }
{
    for i in 0..marked.len() {
        reading.declare_item(marked[i].item)?;
    }
    Ok(())
}

/// The items of files, in the order of their places.
pub(crate) fn items_of<'a>(
    alloc: Global,
    files: &'a [ParsedFile],
) -> Result<ReadItems<'a>, NoMemory>
    ensures marked { IfOk result (λ r. map marked_of r.marked.items ≡ marked_after [] (flat_map (λ f. f.items) (map file_tree files.entry.now))) }
    ensures environment { IfOk result (λ r. environment_of r.environment ≡ environment_in (flat_map (λ f. f.items) (map file_tree files.entry.now)) [] []) }
{
    let mut reading = Reading::new(alloc);
    let mut marked = Vec::new(alloc);
    mark_files(alloc, files, &mut reading, &mut marked)?;
    declare_items(&marked, &mut reading)?;
    let Reading { environment, .. } = reading;
    Ok(ReadItems {
        marked,
        environment,
    })
}

/// What bodies see of items.
pub(crate) fn environment_of_items<'a>(
    alloc: Global,
    items: &'a [ParsedItem],
) -> Result<Environment<'a>, NoMemory>
    ensures { IfOk result (λ e. environment_of e ≡ environment_in (map parsed_tree items.entry.now) [] []) }
{
    let mut reading = Reading::new(alloc);
    let mut marked = Vec::with_capacity(alloc, items.len())?;
    mark_items(alloc, items, &mut reading, &mut marked)?;
    declare_items(&marked, &mut reading)?;
    let Reading { environment, .. } = reading;
    Ok(environment)
}
