//! What the calls on terms and lists of conjuncts make of variables and what is asked of them; `forms` and case_texts have
//! the forms of what is asked.

mod clauses;
mod deciding;
mod forms;
mod polynomials;
mod ruling;
mod searching;
mod sorts;
mod truth;

use anyhow::Result;
use px_interval::Interval;
use px_order::Order;
use px_parity::Parity;
use std::alloc::Global;

/// What is printed for a case, where its word is one of these.
pub fn answer(alloc: Global, word: &str, rest: &str) -> Result<Option<String>> {
    let (first, second) = rest.split_once(' ').unwrap_or((rest, ""));
    Ok(match word {
        "sum" => Some(polynomials::sum(alloc, first, second)?),
        "difference" => Some(polynomials::difference(alloc, first, second)?),
        "product" => Some(polynomials::product(alloc, first, second)?),
        "word" => Some(polynomials::with_word(alloc, first, second)?),
        "cell" => Some(polynomials::with_cell(alloc, first, second)?),
        "truth" => Some(truth::truth(alloc, first, second)?),
        "plain" => Some(deciding::plain(alloc, first, second)?),
        "decide" => Some(deciding::decided(alloc, first, second)?),
        "clauses" => Some(clauses::clauses(alloc, rest)?),
        "solve" => Some(searching::solved(alloc, first, second)?),
        "accepts" => Some(searching::accepted(alloc, first, second)?),
        "bits" => Some(searching::bits(alloc, first, second)?),
        "interval" => Some(ruling::ruled(alloc, &mut Interval::new(alloc), first, second)?),
        "parity" => Some(ruling::ruled(alloc, &mut Parity::new(alloc), first, second)?),
        "order" => Some(ruling::ruled(alloc, &mut Order::new(alloc), first, second)?),
        _ => None,
    })
}
