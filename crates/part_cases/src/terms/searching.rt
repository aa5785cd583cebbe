ghost use Rattle.std.specs.Prelude.{◌≡◌, true};
ghost use Rattle.px_cnf.specs.Clauses.{AreBelow, AreClausesBelow};

use anyhow::{Context, Result, bail};
use case_texts::conjuncts;
use px_cnf::{Cnf, Literal, translate};
use px_sat::{Verdict, accepts, solve};
use px_terms::Items;
use std::alloc::Global;
use std::fmt::Write;

/// What a search over clauses comes to: `met` with the values, or `unmet` or `spent` with the log. What is asked is how many
/// clauses the log may have, how many variables there are, and the clauses.
pub fn solved(alloc: Global, conflicts: &str, rest: &str) -> Result<String> {
    let conflicts = conflicts.parse().context("a number of conflicts")?;
    let (variables, text) = rest.split_once(' ').unwrap_or((rest, ""));
    let cnf = cnf(alloc, variables, text)?;
    if !are_below(&cnf) {
        bail!("a variable that there isn't");
    }
    let mut out = String::new(alloc);
    match solve(alloc, &cnf, conflicts)? {
        Verdict::Met(values) => {
            write!(out, "met")?;
            for value in &values {
                write!(out, "{}", if *value { " t" } else { " f" })?;
            }
        }
        Verdict::Unmet(log) => write_log(&mut out, "unmet", &log)?,
        Verdict::Spent(log) => write_log(&mut out, "spent", &log)?,
    }
    Ok(out)
}

/// Whether clauses are a log that ends with the empty clause: `yes` or `no`. What is asked is how many variables there are, the
/// clauses, and behind a bar the log.
pub fn accepted(alloc: Global, variables: &str, rest: &str) -> Result<String> {
    let (text, log) = rest.split_once('|').context("a bar")?;
    let cnf = cnf(alloc, variables, text.trim())?;
    if !are_below(&cnf) {
        bail!("a variable that there isn't");
    }
    let log = clauses(alloc, log.trim())?;
    let word = if accepts(alloc, &cnf, log.as_slice())? {
        "yes"
    } else {
        "no"
    };
    Ok(String::from_str(alloc, word)?)
}

/// What the search says of the clauses of conjuncts: `met` with the words, `refuted` where the log is accepted, or `spent`. What is
/// asked is how many clauses the log may have, and the conjuncts.
pub fn bits(alloc: Global, conflicts: &str, text: &str) -> Result<String> {
    let conflicts = conflicts.parse().context("a number of conflicts")?;
    let conjuncts = conjuncts(alloc, text)?;
    if conjuncts.len() > 1000 {
        bail!("too many conjuncts");
    }
    match translate(alloc, &conjuncts) {
        Ok(cnf) => searched(alloc, &cnf, conflicts),
        Err(_) => bail!("no clauses"),
    }
}

fn searched(alloc: Global, cnf: &Cnf, conflicts: u32) -> Result<String>
    requires { AreClausesBelow cnf.now.variables cnf.now.clauses }
{
    let mut out = String::new(alloc);
    match solve(alloc, cnf, conflicts)? {
        Verdict::Met(values) => write_words(&mut out, cnf, &values)?,
        Verdict::Unmet(log) => write!(
            out,
            "{}",
            if accepts(alloc, cnf, &log)? {
                "refuted"
            } else {
                "not accepted"
            }
        )?,
        Verdict::Spent(_log) => write!(out, "spent")?,
    }
    Ok(out)
}

// Writes the word that the values give each variable of the conjuncts.
fn write_words(out: &mut String, cnf: &Cnf, values: &[bool]) -> Result<()> {
    write!(out, "met")?;
    for (_, first) in cnf.bits.as_slice() {
        let mut word: u32 = 0;
        for place in 0..32u32 {
            let bit = values
                .get(*first as usize + place as usize)
                .copied()
                .unwrap_or(false);
            if bit {
                word |= 1 << place;
            }
        }
        write!(out, " {word}")?;
    }
    Ok(())
}

fn write_log(out: &mut String, word: &str, log: &[Items<Literal>]) -> Result<()> {
    write!(out, "{word}")?;
    for (place, clause) in log.iter().enumerate() {
        write!(out, "{}", if place > 0 { "," } else { "" })?;
        if clause.is_empty() {
            write!(out, " ()")?;
        }
        for literal in clause.as_slice() {
            write!(
                out,
                " {}{}",
                if literal.positive { '+' } else { '-' },
                literal.variable
            )?;
        }
    }
    Ok(())
}

fn cnf(alloc: Global, variables: &str, text: &str) -> Result<Cnf> {
    Ok(Cnf {
        variables: variables.parse().context("a number of variables")?,
        clauses: Items::from_vec(clauses(alloc, text)?),
        bits: Items::new(alloc),
    })
}

// Clauses with `, ` between them, each of literals `+N` and `-N` with blanks between them, or `()`.
fn clauses(alloc: Global, text: &str) -> Result<Vec<Items<Literal>>> {
    let mut clauses = Vec::new(alloc);
    if !text.is_empty() {
        for part in text.split(", ") {
            clauses.push(clause(alloc, part)?)?;
        }
    }
    Ok(clauses)
}

fn clause(alloc: Global, text: &str) -> Result<Items<Literal>> {
    let mut literals = Vec::new(alloc);
    if text != "()" {
        for word in text.split(' ') {
            literals.push(literal(word)?)?;
        }
    }
    Ok(Items::from_vec(literals))
}

fn literal(text: &str) -> Result<Literal> {
    let (positive, number) = match text.strip_prefix('+') {
        Some(number) => (true, number),
        None => (false, text.strip_prefix('-').context("a sign")?),
    };
    Ok(Literal {
        variable: number.parse()?,
        positive,
    })
}

fn are_below(cnf: &Cnf) -> bool
    ensures { result ≡ true → AreClausesBelow cnf.now.variables cnf.now.clauses }
{
    for clause in cnf.clauses.as_slice() {
        if !is_below(clause.as_slice(), cnf.variables) {
            return false;
        }
    }
    true
}

fn is_below(clause: &[Literal], variables: u32) -> bool
    ensures { result ≡ true → AreBelow variables clause.now }
{
    for literal in clause {
        if literal.variable >= variables {
            return false;
        }
    }
    true
}
