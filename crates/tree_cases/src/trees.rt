use anyhow::{Context, Result, bail};
use px_base::{FieldId, ProcId, Site};
use px_syntax::{
    Argument, Arithmetic, CellLink, Condition, Place, Relation, TypedExpression, TypedStatement,
};
use px_terms::{TypeId, ValueType};
use std::alloc::Global;

// The trees that were read and aren't a part of another one yet. An expression stands as the argument that it is passed as.
#[derive(Drop)]
struct Reading {
    expressions: Vec<Argument>,
    conditions: Vec<Condition>,
    statements: Vec<TypedStatement>,
}

// A word: its name and the numbers after it, with a `.` before each, and its place.
#[derive(Drop)]
struct Word<'a> {
    name: &'a str,
    numbers: Vec<u32>,
    site: Site,
}

/// The body of a function on this line. Its words stand in postfix order: each takes the trees that were read last, as many as it has
/// parts, and is a tree in their place. Its column is its number among them, from 1.
///
/// Expressions: a constant; `null`; `local.L`; `negate`, `add`, `subtract`, `multiply`; `truth` of a condition; `cell.F.T`, the
/// field F of a block of type T; `malloc.T`; `getchar`; `call.P.N` of the function P with N arguments, which gives an `int`; and
/// `stop.W.N`, what isn't understood, with the number of its word and N parts. An argument may be `erased.N`, with N parts.
///
/// Conditions: `equal`, `unequal`, `less`, `greater`, `most`, `least`, `same` and `apart` of two expressions; `word` and
/// `pointer` of one; `and`, `or`, `not`.
///
/// Statements: `block.N`; `declare.L` and `begin.L`, which has a value; `set.L`; `put.F.T` of a pointer and a value; `increase.L`;
/// `run.P.N`; `free.T`; `read`; `if`, with both sides; `while`; `for`, whose step stands last; `ever`, without a condition;
/// `break`; `continue`; `return`; `give`; `evaluate`; `access.F.T.N` of a pointer and N parts, at the field F of a block of type T.
pub fn statement(alloc: Global, line: u32, text: &str) -> Result<TypedStatement> {
    let mut reading = Reading {
        expressions: Vec::new(alloc),
        conditions: Vec::new(alloc),
        statements: Vec::new(alloc),
    };
    let mut column = 0u32;
    for word in text.split(' ') {
        if !word.is_empty() {
            column = column.saturating_add(1);
            let site = Site {
                file: 0,
                line,
                column,
            };
            read(alloc, &word_of(alloc, word, site)?, &mut reading)?;
        }
    }
    let body = reading.statements.pop().context("no body")?;
    if !reading.expressions.is_empty()
        || !reading.conditions.is_empty()
        || !reading.statements.is_empty()
    {
        bail!("trees that are parts of none");
    }
    Ok(body)
}

fn word_of<'a>(alloc: Global, text: &'a str, site: Site) -> Result<Word<'a>> {
    let (name, rest) = text.split_once('.').unwrap_or((text, ""));
    let mut numbers = Vec::new(alloc);
    if !rest.is_empty() {
        for number in rest.split('.') {
            numbers.push(number.parse()?)?;
        }
    }
    Ok(Word {
        name,
        numbers,
        site,
    })
}

fn number_at(word: &Word, place: usize) -> Result<u32> {
    word.numbers.get(place).copied().context("no number")
}

fn read(alloc: Global, word: &Word, reading: &mut Reading) -> Result<()> {
    if word.name == "erased" {
        let parts = parts(alloc, reading, number_at(word, 0)?)?;
        reading.expressions.push(Argument::Erased { parts })?;
    } else if let Some(value) = expression(alloc, word, reading)? {
        reading.expressions.push(Argument::Passed { value })?;
    } else if let Some(c) = condition(alloc, word, reading)? {
        reading.conditions.push(c)?;
    } else {
        let s = statement_of(alloc, word, reading)?;
        reading.statements.push(s)?;
    }
    Ok(())
}

// ---- what is taken

// The trees that were read last, in order.
fn last<T: Drop>(all: &mut Vec<T>, count: u32) -> Result<Vec<T>> {
    let at = all.len().checked_sub(count as usize).context("too few")?;
    Ok(all.split_off(at)?)
}

fn value(reading: &mut Reading) -> Result<TypedExpression> {
    value_of(reading.expressions.pop().context("no expression")?)
}

fn value_of(argument: Argument) -> Result<TypedExpression> {
    match argument {
        Argument::Passed { value } => Ok(value),
        Argument::Erased { .. } => bail!("no value"),
    }
}

// The expressions that were read last, in order.
fn parts(alloc: Global, reading: &mut Reading, count: u32) -> Result<Vec<TypedExpression>> {
    let mut parts = Vec::new(alloc);
    for argument in last(&mut reading.expressions, count)? {
        parts.push(value_of(argument)?)?;
    }
    Ok(parts)
}

fn boxed(alloc: Global, reading: &mut Reading) -> Result<Box<TypedExpression>> {
    Ok(Box::new(alloc, value(reading)?)?)
}

fn test(reading: &mut Reading) -> Result<Condition> {
    reading.conditions.pop().context("no condition")
}

fn part(alloc: Global, reading: &mut Reading) -> Result<Box<TypedStatement>> {
    let statement = reading.statements.pop().context("no statement")?;
    Ok(Box::new(alloc, statement)?)
}

// ---- expressions

fn expression(
    alloc: Global,
    word: &Word,
    reading: &mut Reading,
) -> Result<Option<TypedExpression>> {
    if let Ok(value) = word.name.parse() {
        return Ok(Some(TypedExpression::Constant { value }));
    }
    if let Some(operator) = operator(word) {
        let right = value(reading)?;
        let left = value(reading)?;
        return Ok(Some(TypedExpression::arithmetic(alloc, operator, left, right)?));
    }
    if word.name == "stop" || word.name == "call" {
        return Ok(Some(with_parts(alloc, word, reading)?));
    }
    simple(alloc, word, reading)
}

fn operator(word: &Word) -> Option<Arithmetic> {
    match word.name {
        "add" => Some(Arithmetic::Add),
        "subtract" => Some(Arithmetic::Subtract),
        "multiply" => Some(Arithmetic::Multiply),
        "divide" => Some(Arithmetic::Divide { site: word.site }),
        "remainder" => Some(Arithmetic::Remainder { site: word.site }),
        _ => None,
    }
}

fn with_parts(alloc: Global, word: &Word, reading: &mut Reading) -> Result<TypedExpression> {
    let number = number_at(word, 0)?;
    let count = number_at(word, 1)?;
    if word.name == "stop" {
        return Ok(TypedExpression::Stop {
            word: number,
            site: word.site,
            parts: parts(alloc, reading, count)?,
        });
    }
    Ok(TypedExpression::Call {
        proc: ProcId(number),
        arguments: last(&mut reading.expressions, count)?,
        result: ValueType::Int,
        site: word.site,
    })
}

fn simple(alloc: Global, word: &Word, reading: &mut Reading) -> Result<Option<TypedExpression>> {
    let site = word.site;
    Ok(Some(match word.name {
        "null" => TypedExpression::Null,
        "local" => TypedExpression::Local {
            local: number_at(word, 0)?,
            site,
        },
        "negate" => TypedExpression::Negate {
            operand: boxed(alloc, reading)?,
        },
        "truth" => TypedExpression::Truth {
            condition: Box::new(alloc, test(reading)?)?,
        },
        "cell" => {
            let link = cell(word)?;
            TypedExpression::cell(alloc, value(reading)?, link)?
        }
        "malloc" => TypedExpression::Allocate {
            block: TypeId(number_at(word, 0)?),
            site,
        },
        "getchar" => TypedExpression::GetChar { site },
        _ => return Ok(None),
    }))
}

fn cell(word: &Word) -> Result<CellLink> {
    Ok(CellLink {
        field: FieldId(number_at(word, 0)?),
        block: TypeId(number_at(word, 1)?),
        site: word.site,
    })
}

// ---- conditions

fn condition(alloc: Global, word: &Word, reading: &mut Reading) -> Result<Option<Condition>> {
    let site = word.site;
    if let Some(relation) = relation(word.name) {
        let right = value(reading)?;
        let left = value(reading)?;
        return Ok(Some(Condition::compare(alloc, relation, left, right, site)?));
    }
    Ok(Some(match word.name {
        "word" => Condition::Word {
            operand: boxed(alloc, reading)?,
            site,
        },
        "pointer" => Condition::Pointer {
            operand: boxed(alloc, reading)?,
            site,
        },
        "not" => Condition::Not {
            condition: Box::new(alloc, test(reading)?)?,
        },
        "and" => {
            let right = test(reading)?;
            Condition::both(alloc, test(reading)?, right)?
        }
        "or" => {
            let right = test(reading)?;
            Condition::either(alloc, test(reading)?, right)?
        }
        _ => return Ok(None),
    }))
}

fn relation(name: &str) -> Option<Relation> {
    match name {
        "equal" => Some(Relation::Equal),
        "unequal" => Some(Relation::Unequal),
        "less" => Some(Relation::Less),
        "greater" => Some(Relation::Greater),
        "most" => Some(Relation::AtMost),
        "least" => Some(Relation::AtLeast),
        "same" => Some(Relation::SamePlace),
        "apart" => Some(Relation::OtherPlace),
        _ => None,
    }
}

// ---- statements

fn statement_of(alloc: Global, word: &Word, reading: &mut Reading) -> Result<TypedStatement> {
    match word.name {
        "block" => Ok(TypedStatement::Block {
            statements: last(&mut reading.statements, number_at(word, 0)?)?,
        }),
        "break" => Ok(TypedStatement::Break),
        "continue" => Ok(TypedStatement::Continue),
        "return" => Ok(TypedStatement::Return { value: None }),
        "read" => Ok(TypedStatement::GetChar { site: word.site }),
        "declare" => Ok(TypedStatement::Declare {
            local: number_at(word, 0)?,
            value: None,
        }),
        "run" => Ok(TypedStatement::Call {
            proc: ProcId(number_at(word, 0)?),
            arguments: last(&mut reading.expressions, number_at(word, 1)?)?,
            site: word.site,
        }),
        "access" => Ok(TypedStatement::Access {
            parts: parts(alloc, reading, number_at(word, 2)?)?,
            pointer: boxed(alloc, reading)?,
            cell: cell(word)?,
        }),
        "if" | "while" | "for" | "ever" => control(alloc, word, reading),
        _ => of_value(alloc, word, reading),
    }
}

// Those that end with an expression.
fn of_value(alloc: Global, word: &Word, reading: &mut Reading) -> Result<TypedStatement> {
    let value = boxed(alloc, reading)?;
    let site = word.site;
    match word.name {
        "evaluate" => Ok(TypedStatement::Evaluate { value }),
        "give" => Ok(TypedStatement::Return { value: Some(value) }),
        "free" => Ok(TypedStatement::Free {
            pointer: value,
            block: TypeId(number_at(word, 0)?),
            site,
        }),
        "begin" => Ok(TypedStatement::Declare {
            local: number_at(word, 0)?,
            value: Some(value),
        }),
        "set" => Ok(TypedStatement::Assign {
            place: local(word)?,
            value,
        }),
        "increase" => Ok(TypedStatement::Update {
            operator: Arithmetic::Add,
            place: local(word)?,
            value,
        }),
        "put" => Ok(TypedStatement::Assign {
            place: Place::Cell {
                site,
                field: FieldId(number_at(word, 0)?),
                block: TypeId(number_at(word, 1)?),
                pointer: boxed(alloc, reading)?,
            },
            value,
        }),
        _ => bail!("no word of a tree"),
    }
}

fn local(word: &Word) -> Result<Place> {
    Ok(Place::Local {
        local: number_at(word, 0)?,
        site: word.site,
    })
}

fn control(alloc: Global, word: &Word, reading: &mut Reading) -> Result<TypedStatement> {
    let last = part(alloc, reading)?;
    if word.name == "if" {
        return Ok(TypedStatement::If {
            then: part(alloc, reading)?,
            other: last,
            condition: Box::new(alloc, test(reading)?)?,
        });
    }
    let (body, step) = if word.name == "for" {
        (part(alloc, reading)?, last)
    } else {
        (last, nothing(alloc)?)
    };
    let condition = if word.name == "ever" {
        None
    } else {
        Some(Box::new(alloc, test(reading)?)?)
    };
    Ok(TypedStatement::Loop {
        site: word.site,
        condition,
        body,
        step,
    })
}

fn nothing(alloc: Global) -> Result<Box<TypedStatement>> {
    let statements = Vec::new(alloc);
    Ok(Box::new(alloc, TypedStatement::Block { statements })?)
}
