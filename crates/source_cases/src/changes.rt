use anyhow::{Context, Result, bail};
use px_entry::{Derivation, Entry, Rule, Step};
use px_terms::{Items, Value};
use std::alloc::Global;
use std::mem::replace;

// What becomes of a step.
#[derive(Clone, Copy)]
enum Change {
    Dropped,
    Doubled,
    Ruled(Rule),
    Chosen,
}

/// An entry and its steps, changed as the words after the number say: `none` and `other`; `mark`, `atom`, `required`,
/// `conjunct` and `model` change the entry; `drop`, `double`, `swap`, `rule` and `choice`, with the place of a step, change the steps.
/// After a choice's place stand all choices of the step.
pub fn changed(
    alloc: Global,
    entry: Entry,
    mut derivation: Derivation,
    words: &[&str],
) -> Result<(Entry, Derivation)> {
    match words.get(1).copied().context("no change")? {
        "none" | "other" => Ok((entry, derivation)),
        "mark" | "atom" | "required" | "conjunct" | "model" => Ok((
            changed_entry(entry, words),
            derivation,
        )),
        _ => {
            let given = replace(&mut derivation.steps, Items::new(alloc));
            let steps = changed_steps(alloc, given, words)?;
            Ok((entry, Derivation { steps }))
        }
    }
}

// Without its last mark, block (of those that it leaves, or of those that it requires) or conjunct, or with another value
// of the first variable.
fn changed_entry(entry: Entry, words: &[&str]) -> Entry {
    let mut entry = entry;
    match words.get(1).copied() {
        Some("mark") => {
            let _ = entry.trace.pop();
        }
        Some("atom") => {
            let _ = entry.post.pop();
        }
        Some("required") => {
            let _ = entry.pre.pop();
        }
        Some("conjunct") => {
            let _ = entry.pure.pop();
        }
        _ => {
            if let Some(value) = entry.model.get(0).copied() {
                entry.model.set(0, other_value(value));
            }
        }
    }
    entry
}

// A block where null is, and else null.
fn other_value(value: Value) -> Value {
    match value {
        Value::Null => Value::Block(1),
        _ => Value::Null,
    }
}

fn changed_steps(alloc: Global, steps: Items<Step>, words: &[&str]) -> Result<Items<Step>> {
    let at: usize = words.get(2).context("no step")?.parse()?;
    let word = words.get(1).copied().context("no change")?;
    if word == "swap" {
        return swapped(steps, at);
    }
    let change = change_of(word, words)?;
    let choices = choices(alloc, change, words)?;
    let mut all = Items::new(alloc);
    for (place, step) in steps.into_vec().into_iter().enumerate() {
        if place == at {
            put_changed(alloc, step, change, &choices, &mut all)?;
        } else {
            all.push(step)?;
        }
    }
    Ok(all)
}

fn change_of(word: &str, words: &[&str]) -> Result<Change> {
    Ok(match word {
        "drop" => Change::Dropped,
        "double" => Change::Doubled,
        "rule" => Change::Ruled(rule(words.get(3).copied().context("no rule")?)?),
        "choice" => Change::Chosen,
        _ => bail!("no change"),
    })
}

// The choices that a step is to have, where they are changed.
fn choices(alloc: Global, change: Change, words: &[&str]) -> Result<Vec<u32>> {
    let mut choices = Vec::new(alloc);
    if let Change::Chosen = change {
        for word in words.iter().skip(3) {
            choices.push(word.parse()?)?;
        }
    }
    Ok(choices)
}

fn swapped(steps: Items<Step>, at: usize) -> Result<Items<Step>> {
    let mut all = steps.into_vec();
    let next = at.checked_add(1).context("no step")?;
    if next >= all.len() {
        bail!("no step");
    }
    all.swap(at, next);
    Ok(Items::from_vec(all))
}

fn put_changed(
    alloc: Global,
    step: Step,
    change: Change,
    choices: &[u32],
    all: &mut Items<Step>,
) -> Result<()> {
    let mut step = step;
    match change {
        Change::Dropped => return Ok(()),
        Change::Doubled => all.push(copy(alloc, &step)?)?,
        Change::Ruled(rule) => step.rule = rule,
        Change::Chosen => step.choices = Items::from_slice(alloc, choices)?,
    }
    all.push(step)?;
    Ok(())
}

fn copy(alloc: Global, step: &Step) -> Result<Step> {
    Ok(Step {
        rule: step.rule,
        choices: Items::from_slice(alloc, step.choices.as_slice())?,
    })
}

fn rule(word: &str) -> Result<Rule> {
    Ok(match word {
        "Assign" => Rule::Assign,
        "Call" => Rule::Call,
        "Divide" => Rule::Divide,
        "DivideZero" => Rule::DivideZero,
        "Free" => Rule::Free,
        "FreeTwice" => Rule::FreeTwice,
        "Load" => Rule::Load,
        "MissingFreed" => Rule::MissingFreed,
        "MissingLive" => Rule::MissingLive,
        "ReadUnwritten" => Rule::ReadUnwritten,
        "ReadWritten" => Rule::ReadWritten,
        "Store" => Rule::Store,
        "TestFalse" => Rule::TestFalse,
        _ => bail!("no rule"),
    })
}
