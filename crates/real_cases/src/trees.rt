use anyhow::{Context, Result};
use px_real_expressions::{Measure, Operator, Prefix, Step};
use px_real_reading::{Expression, Link, Suffix};
use px_real_symbols::Span;
use px_real_tokens::Token;
use px_syntax::Name;
use std::fmt::Write;

// How many links of a chain are written out.
const MOST_LINKS: usize = 20;

// An expression of a text: what it is, and its parts in parentheses. A chain has its operators from left to right, each with its
// right operand; a long one only says how many.
#[cycle(expression)]
pub fn write_tree(tree: &Expression, out: &mut String, text: &str, tokens: &[Token]) -> Result<()> {
    match tree {
        Expression::Parenthesised { inner, .. } => {
            write!(out, "group(")?;
            write_tree(inner, out, text, tokens)?;
        }
        Expression::Postfix {
            first,
            before,
            last,
        } => {
            write!(out, "postfix(")?;
            write_tree(first, out, text, tokens)?;
            for suffix in before {
                write_suffix(suffix, out, text, tokens)?;
            }
            write_suffix(last, out, text, tokens)?;
        }
        Expression::Prefixed {
            operator,
            operand,
            ..
        } => {
            write!(out, "{}(", prefix_word(*operator))?;
            write_tree(operand, out, text, tokens)?;
        }
        Expression::Measure {
            measure,
            operand,
            ..
        } => {
            write!(out, "{}(", measure_word(*measure))?;
            write_tree(operand, out, text, tokens)?;
        }
        Expression::Cast {
            type_name,
            operand,
            ..
        } => {
            write!(out, "cast(")?;
            write_held(out, text, tokens, *type_name)?;
            write!(out, ", ")?;
            write_tree(operand, out, text, tokens)?;
        }
        Expression::Binary {
            first,
            before,
            operator,
            right,
            ..
        } => {
            write!(out, "binary(")?;
            write_tree(first, out, text, tokens)?;
            if before.len() > MOST_LINKS {
                write!(out, " and {} operators before", before.len())?;
            } else {
                for link in before {
                    write_link(link, out, text, tokens)?;
                }
            }
            write!(out, " {} ", operator_word(*operator))?;
            write_tree(right, out, text, tokens)?;
        }
        Expression::Choice {
            condition,
            chosen,
            otherwise,
            ..
        } => {
            write!(out, "choice(")?;
            write_tree(condition, out, text, tokens)?;
            write!(out, ", ")?;
            write_tree(chosen, out, text, tokens)?;
            write!(out, ", ")?;
            write_tree(otherwise, out, text, tokens)?;
        }
        Expression::ChoiceOr {
            condition,
            otherwise,
            ..
        } => {
            write!(out, "choice(")?;
            write_tree(condition, out, text, tokens)?;
            write!(out, ", , ")?;
            write_tree(otherwise, out, text, tokens)?;
        }
        Expression::Assign {
            operator,
            left,
            right,
            ..
        } => {
            write!(out, "assign(")?;
            write_tree(left, out, text, tokens)?;
            write!(out, " {}= ", assigned_word(*operator))?;
            write_tree(right, out, text, tokens)?;
        }
        leaf => return write_leaf(leaf, out, text, tokens),
    }
    write!(out, ")")?;
    Ok(())
}

// An operator of a chain with its right operand.
#[cycle(expression)]
fn write_link(link: &Link, out: &mut String, text: &str, tokens: &[Token]) -> Result<()> {
    write!(out, " {} ", operator_word(link.operator))?;
    write_tree(&link.operand, out, text, tokens)
}

// What stands after an operand.
#[cycle(expression)]
fn write_suffix(suffix: &Suffix, out: &mut String, text: &str, tokens: &[Token]) -> Result<()> {
    match suffix {
        Suffix::Index { index, .. } => {
            write!(out, " [")?;
            write_tree(index, out, text, tokens)?;
            write!(out, "]")?;
        }
        Suffix::Call { arguments, .. } => {
            write!(out, " call(")?;
            for argument in arguments {
                write_tree(argument, out, text, tokens)?;
                write!(out, ";")?;
            }
            write!(out, ")")?;
        }
        Suffix::Member { name, .. } => {
            write!(out, " .")?;
            write_name(out, name)?;
        }
        Suffix::PointerMember { name, .. } => {
            write!(out, " ->")?;
            write_name(out, name)?;
        }
        Suffix::Step { step, .. } => match step {
            Step::Increment => write!(out, " ++")?,
            Step::Decrement => write!(out, " --")?,
        },
    }
    Ok(())
}

// An expression with no other in it.
fn write_leaf(leaf: &Expression, out: &mut String, text: &str, tokens: &[Token]) -> Result<()> {
    match leaf {
        Expression::Name { name, .. } => write_name(out, name)?,
        Expression::Constant { value, .. } => match value {
            Some(value) => write!(out, "{value}")?,
            None => write!(out, "constant")?,
        },
        Expression::String { .. } => write!(out, "string")?,
        Expression::Statement { body, .. } => {
            write!(out, "statement")?;
            write_held(out, text, tokens, *body)?;
        }
        Expression::Literal {
            type_name,
            values,
            ..
        } => {
            write!(out, "literal")?;
            write_held(out, text, tokens, *type_name)?;
            write_held(out, text, tokens, *values)?;
        }
        Expression::Form {
            word,
            arguments,
            ..
        } => {
            write_name(out, word)?;
            write_held(out, text, tokens, *arguments)?;
        }
        Expression::Label { name, .. } => {
            write!(out, "label ")?;
            write_name(out, name)?;
        }
        Expression::MeasureType {
            measure,
            type_name,
            ..
        } => {
            write!(out, "{}", measure_word(*measure))?;
            write_held(out, text, tokens, *type_name)?;
        }
        _ => {}
    }
    Ok(())
}

// The text of tokens that are held.
pub fn write_held(out: &mut String, text: &str, tokens: &[Token], span: Span) -> Result<()> {
    let held = tokens
        .get(span.first..span.after)
        .context("held tokens beyond those of the text")?;
    write!(out, "<")?;
    if let (Some(first), Some(last)) = (held.first(), held.last()) {
        let spelled = text
            .get(first.start as usize..last.end as usize)
            .context("no text")?;
        write!(out, "{spelled}")?;
    }
    write!(out, ">")?;
    Ok(())
}

pub fn write_name(out: &mut String, name: &Name) -> Result<()> {
    for &byte in name.as_slice() {
        write!(out, "{}", byte as char)?;
    }
    Ok(())
}

fn prefix_word(operator: Prefix) -> &'static str {
    match operator {
        Prefix::Address => "&",
        Prefix::Indirection => "*",
        Prefix::Plus => "+",
        Prefix::Minus => "-",
        Prefix::Complement => "~",
        Prefix::Not => "!",
        Prefix::Increment => "++",
        Prefix::Decrement => "--",
        Prefix::Extension => "extension",
        Prefix::Real => "real",
        Prefix::Imaginary => "imaginary",
    }
}

fn measure_word(measure: Measure) -> &'static str {
    match measure {
        Measure::Size => "sizeof",
        Measure::Alignment => "alignof",
    }
}

fn assigned_word(operator: Option<Operator>) -> &'static str {
    match operator {
        Some(operator) => operator_word(operator),
        None => "",
    }
}

fn operator_word(operator: Operator) -> &'static str {
    match operator {
        Operator::Multiply => "*",
        Operator::Divide => "/",
        Operator::Remainder => "%",
        Operator::Add => "+",
        Operator::Subtract => "-",
        Operator::ShiftLeft => "<<",
        Operator::ShiftRight => ">>",
        Operator::Less => "<",
        Operator::Greater => ">",
        Operator::LessEqual => "<=",
        Operator::GreaterEqual => ">=",
        Operator::Equal => "==",
        Operator::NotEqual => "!=",
        Operator::BitAnd => "&",
        Operator::BitXor => "^",
        Operator::BitOr => "|",
        Operator::And => "&&",
        Operator::Or => "||",
        Operator::Comma => ",",
    }
}
