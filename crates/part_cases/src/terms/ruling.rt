use super::sorts::are_sorted;
use anyhow::{Result, bail};
use case_texts::{conjuncts, variables};
use px_terms::Domain;
use std::alloc::Global;

/// Whether the rule of a domain rules conjuncts out: `refuted`, or `passed` where it doesn't.
pub fn ruled<D: Domain>(
    alloc: Global,
    domain: &mut D,
    letters: &str,
    text: &str,
) -> Result<String> {
    let vars = variables(alloc, letters)?;
    let conjuncts = conjuncts(alloc, text)?;
    if !are_sorted(&vars, &conjuncts) {
        bail!("unsorted");
    }
    let word = if domain.refutes(&vars, &conjuncts)? {
        "refuted"
    } else {
        "passed"
    };
    Ok(String::from_str(alloc, word)?)
}
