use crate::parts::{number_at, part_at, parts_of};
use crate::states::here;
use anyhow::{Result, bail};
use px_base::{FieldId, ProcId};
use px_core::{Command, Comparison, Operand, Operator};
use px_terms::TypeId;
use std::alloc::Global;

/// A command: its word, and what it takes, in the order of its definition. An operand is a word, `null`, or an `s` and
/// the number of a slot. A loop and an `if` have no commands in them.
pub fn command(alloc: Global, text: &str) -> Result<Command> {
    let words = parts_of(alloc, text, ' ')?;
    let word = part_at(&words, 0)?;
    if let Some(op) = operator(word) {
        return assignment(op, &words);
    }
    if let Some(how) = comparison(word) {
        return test(how, &words);
    }
    match simple(alloc, word) {
        Some(command) => Ok(command),
        None => other(alloc, word, &words),
    }
}

fn operator(word: &str) -> Option<Operator> {
    match word {
        "copy" => Some(Operator::Copy),
        "neg" => Some(Operator::Neg),
        "add" => Some(Operator::Add),
        "sub" => Some(Operator::Sub),
        "mul" => Some(Operator::Mul),
        _ => None,
    }
}

fn comparison(word: &str) -> Option<Comparison> {
    match word {
        "equal" => Some(Comparison::Equal),
        "unequal" => Some(Comparison::Unequal),
        "less" => Some(Comparison::Less),
        "most" => Some(Comparison::AtMost),
        "same" => Some(Comparison::SamePlace),
        "apart" => Some(Comparison::OtherPlace),
        _ => None,
    }
}

fn operand(word: &str) -> Result<Operand> {
    if word == "null" {
        return Ok(Operand::Null);
    }
    match word.strip_prefix('s') {
        Some(slot) => Ok(Operand::Slot(slot.parse()?)),
        None => Ok(Operand::Word(word.parse()?)),
    }
}

fn operand_at(words: &[&str], place: usize) -> Result<Operand> {
    operand(part_at(words, place)?)
}

// Of one operand the other is 0.
fn assignment(op: Operator, words: &[&str]) -> Result<Command> {
    let b = match words.get(3) {
        Some(word) => operand(word)?,
        None => Operand::Word(0),
    };
    Ok(Command::Assign {
        to: number_at(words, 1)?,
        op,
        a: operand_at(words, 2)?,
        b,
    })
}

fn test(how: Comparison, words: &[&str]) -> Result<Command> {
    Ok(Command::Test {
        to: number_at(words, 1)?,
        how,
        a: operand_at(words, 2)?,
        b: operand_at(words, 3)?,
        site: here(),
    })
}

// Those that take nothing.
fn simple(alloc: Global, word: &str) -> Option<Command> {
    match word {
        "loop" => Some(Command::Loop {
            site: here(),
            head: Vec::new(alloc),
            body: Vec::new(alloc),
            step: Vec::new(alloc),
        }),
        "leave" => Some(Command::Leave),
        "break" => Some(Command::Break),
        "continue" => Some(Command::Continue),
        _ => None,
    }
}

fn other(alloc: Global, word: &str, words: &[&str]) -> Result<Command> {
    match word {
        "unset" => Ok(Command::Unset {
            to: number_at(words, 1)?,
        }),
        "read" => Ok(Command::Read {
            slot: number_at(words, 1)?,
            site: here(),
        }),
        "if" => Ok(Command::If {
            slot: number_at(words, 1)?,
            then: Vec::new(alloc),
            other: Vec::new(alloc),
        }),
        "input" => Ok(Command::Input {
            to: number_at(words, 1)?,
            site: here(),
        }),
        "return" => result(words),
        "stop" => Ok(Command::Stop {
            word: number_at(words, 1)?,
            site: here(),
        }),
        "divide" => Ok(Command::Divide {
            to: number_at(words, 1)?,
            a: operand_at(words, 2)?,
            b: operand_at(words, 3)?,
            site: here(),
        }),
        "call" => call(alloc, words),
        _ => of_blocks(word, words),
    }
}

fn result(words: &[&str]) -> Result<Command> {
    let from = match words.get(1) {
        Some(word) => Some(operand(word)?),
        None => None,
    };
    Ok(Command::Return { from })
}

// Where there is a `-` the result isn't kept.
fn call(alloc: Global, words: &[&str]) -> Result<Command> {
    let to = match part_at(words, 1)? {
        "-" => None,
        _ => Some(number_at(words, 1)?),
    };
    let mut arguments = Vec::new(alloc);
    for (place, word) in words.iter().enumerate() {
        if place > 2 {
            arguments.push(operand(word)?)?;
        }
    }
    Ok(Command::Call {
        to,
        proc: ProcId(number_at(words, 2)?),
        arguments,
        site: here(),
    })
}

fn type_at(words: &[&str], place: usize) -> Result<TypeId> {
    Ok(TypeId(number_at(words, place)?))
}

fn load(words: &[&str]) -> Result<Command> {
    Ok(Command::Load {
        to: number_at(words, 1)?,
        at: operand_at(words, 2)?,
        field: FieldId(number_at(words, 3)?),
        block: type_at(words, 4)?,
        site: here(),
    })
}

fn store(words: &[&str]) -> Result<Command> {
    Ok(Command::Store {
        at: operand_at(words, 1)?,
        field: FieldId(number_at(words, 2)?),
        block: type_at(words, 3)?,
        from: operand_at(words, 4)?,
        site: here(),
    })
}

fn of_blocks(word: &str, words: &[&str]) -> Result<Command> {
    match word {
        "load" => load(words),
        "store" => store(words),
        "malloc" => Ok(Command::Malloc {
            to: number_at(words, 1)?,
            block: type_at(words, 2)?,
            site: here(),
        }),
        "free" => Ok(Command::Free {
            at: operand_at(words, 1)?,
            block: type_at(words, 2)?,
            site: here(),
        }),
        _ => bail!("no command"),
    }
}
