use super::forms::values;
use super::sorts::{holds, is_sorted};
use anyhow::{Context, Result, bail};
use case_texts::{conjunct, variables};
use std::alloc::Global;

/// A conjunct and, after a `|`, the values under which it is asked whether it is true.
pub fn truth(alloc: Global, letters: &str, text: &str) -> Result<String> {
    let (said, given) = text.split_once('|').context("no values")?;
    let vars = variables(alloc, letters)?;
    let conjunct = conjunct(alloc, said.trim())?.copy()?;
    let values = values(alloc, given.trim())?;
    if values.len() != vars.len() || !is_sorted(&vars, &conjunct) {
        bail!("no value for each variable");
    }
    let word = if holds(&vars, &conjunct, &values) {
        "true"
    } else {
        "false"
    };
    Ok(String::from_str(alloc, word)?)
}
