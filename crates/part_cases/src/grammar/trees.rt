use anyhow::{Result, bail};
use px_base::Site;
use px_syntax::{
    Base, BinaryOperator, Declaration, Declarator, Expression, FieldDeclaration, FirstClause,
    ForHead, Item, Link, Name, Parameter, ResultType, Sides, SimpleStatement, Statement, TypeName,
    UnaryOperator,
};
use std::alloc::Global;
use std::fmt::Write;

// Writes trees in a short form: an operator stands before its operands, in parentheses, and where sites
// are asked for, each is after what has it.
#[derive(Drop)]
pub struct Printer {
    pub text: String,
    pub sites: bool,
    /// Whether room was missing for some part, so that the text isn't whole.
    pub cut: bool,
}

impl Printer {
    pub fn new(alloc: Global, sites: bool) -> Printer {
        Printer {
            text: String::new(alloc),
            sites,
            cut: false,
        }
    }

    /// The text, where it is whole.
    pub fn finish(self) -> Result<String> {
        if self.cut {
            bail!("no memory");
        }
        Ok(self.text)
    }
}

/// Writes a text as it stands.
pub fn put(out: &mut Printer, text: &str) {
    out.cut |= out.text.push_str(text).is_err();
}

fn put_number(out: &mut Printer, number: u32) {
    out.cut |= write!(out.text, "{number}").is_err();
}

/// Writes where something stands.
pub fn write_place(out: &mut Printer, site: Site) {
    put(out, "@");
    put_number(out, site.line);
    put(out, ":");
    put_number(out, site.column);
}

fn write_site(out: &mut Printer, site: Site) {
    if out.sites {
        write_place(out, site);
    }
}

pub fn write_name(out: &mut Printer, name: &Name) {
    for &byte in name.as_slice() {
        out.cut |= out.text.push(char::from(byte)).is_err();
    }
}

// The text that stands between two of a list.
fn write_between(out: &mut Printer, first: bool, text: &str) {
    if !first {
        put(out, text);
    }
}

fn write_stars(out: &mut Printer, stars: u32) {
    for _ in 0..stars {
        put(out, "*");
    }
}

fn write_base(out: &mut Printer, base: &Base) {
    match base {
        Base::Int => put(out, "int"),
        Base::Struct(name) => {
            put(out, "struct ");
            write_name(out, name);
        }
    }
}

fn write_type(out: &mut Printer, value: &TypeName) {
    write_base(out, &value.base);
    write_stars(out, value.stars)
}

fn write_declarator(out: &mut Printer, declarator: &Declarator) {
    put(out, " ");
    write_stars(out, declarator.stars);
    write_name(out, &declarator.name)
}

fn unary_text(operator: UnaryOperator) -> &'static str {
    match operator {
        UnaryOperator::Minus => "-",
        UnaryOperator::Not => "!",
        UnaryOperator::Indirection => "*",
    }
}

fn binary_text(operator: BinaryOperator) -> &'static str {
    match operator {
        BinaryOperator::Multiply => "*",
        BinaryOperator::Add => "+",
        BinaryOperator::Subtract => "-",
        BinaryOperator::Less => "<",
        BinaryOperator::LessEqual => "<=",
        BinaryOperator::Greater => ">",
        BinaryOperator::GreaterEqual => ">=",
        BinaryOperator::Equal => "==",
        BinaryOperator::NotEqual => "!=",
        BinaryOperator::And => "&&",
        BinaryOperator::Or => "||",
        BinaryOperator::Divide => "/",
        BinaryOperator::Remainder => "%",
    }
}

fn write_malloc(out: &mut Printer, cast: &Option<TypeName>, site: Site, size: &TypeName) {
    if let Some(cast) = cast {
        put(out, "(");
        write_type(out, cast);
        put(out, ")");
    }
    put(out, "malloc");
    write_site(out, site);
    put(out, "(");
    write_type(out, size);
    put(out, ")");
}

// A parenthesis and the operator after it.
fn write_opened(out: &mut Printer, operator: &str, site: Site) {
    put(out, "(");
    put(out, operator);
    write_site(out, site);
    put(out, " ");
}

// A member's name and the parenthesis that closes its tree.
fn write_field(out: &mut Printer, field: &Name) {
    put(out, " ");
    write_name(out, field);
    put(out, ")");
}

// The operands of a chain, each with the parenthesis that closes its tree.
#[cycle(expression)]
fn write_links(links: &[Link], out: &mut Printer) {
    for link in links {
        put(out, " ");
        write_expression(&link.operand, out);
        put(out, ")");
    }
}

#[cycle(expression)]
pub fn write_expression(tree: &Expression, out: &mut Printer) {
    match tree {
        Expression::Constant { value, site } => {
            put_number(out, *value);
            write_site(out, *site)
        }
        Expression::Null { site } => {
            put(out, "NULL");
            write_site(out, *site)
        }
        Expression::Variable { name, site } => {
            write_name(out, name);
            write_site(out, *site)
        }
        Expression::Malloc { site, types } => { write_malloc(out, &types.cast, *site, &types.size) }
        Expression::GetChar { site } => {
            put(out, "getchar");
            write_site(out, *site);
            put(out, "()");
        }
        _ => write_operation(tree, out),
    }
}

#[cycle(expression)]
fn write_operation(tree: &Expression, out: &mut Printer) {
    match tree {
        Expression::Unary {
            operator,
            site,
            operand,
        } => {
            write_opened(out, unary_text(*operator), *site);
            write_expression(operand, out);
            put(out, ")");
        }
        Expression::Binary {
            first,
            before,
            operator,
            site,
            right,
        } => {
            write_opened(out, binary_text(*operator), *site);
            for link in before.as_slice().iter().rev() {
                write_opened(out, binary_text(link.operator), link.site);
            }
            write_expression(first, out);
            write_links(before, out);
            put(out, " ");
            write_expression(right, out);
            put(out, ")");
        }
        Expression::Member {
            site,
            pointer,
            before,
            field,
        } => {
            write_opened(out, "->", *site);
            for arrow in before.as_slice().iter().rev() {
                write_opened(out, "->", arrow.site);
            }
            write_expression(pointer, out);
            for arrow in before {
                write_field(out, &arrow.field);
            }
            write_field(out, field);
        }
        Expression::Call {
            function,
            site,
            arguments,
        } => {
            write_name(out, function);
            write_site(out, *site);
            put(out, "(");
            let mut first = true;
            for argument in arguments {
                write_between(out, first, ",");
                write_expression(argument, out);
                first = false;
            }
            put(out, ")");
        }
        Expression::Free { site, pointer } => {
            put(out, "free");
            write_site(out, *site);
            put(out, "(");
            write_expression(pointer, out);
            put(out, ")");
        }
        _ => put(out, "?"),
    }
}

fn write_declaration(out: &mut Printer, declaration: &Declaration) {
    put(out, "[");
    write_base(out, &declaration.base);
    for init in declaration.declarators.as_slice() {
        write_declarator(out, &init.declarator);
        if let Some(value) = &init.value {
            put(out, "=");
            write_expression(value, out);
        }
    }
    put(out, "]");
}

fn write_assignment(out: &mut Printer, operator: &str, sides: &Sides) {
    put(out, "(");
    put(out, operator);
    put(out, "= ");
    write_expression(&sides.place, out);
    put(out, " ");
    write_expression(&sides.value, out);
    put(out, ")");
}

fn write_simple(out: &mut Printer, simple: &SimpleStatement) {
    match simple {
        SimpleStatement::Assign { sides } => write_assignment(out, "", sides),
        SimpleStatement::Update { operator, sides } => {
            write_assignment(out, binary_text(*operator), sides)
        }
        SimpleStatement::Increment { place } => {
            put(out, "(++ ");
            write_expression(place, out);
            put(out, ")");
        }
        SimpleStatement::Decrement { place } => {
            put(out, "(-- ");
            write_expression(place, out);
            put(out, ")");
        }
        SimpleStatement::Call { call } => write_expression(call, out),
    }
}

// What a `for` has between its parentheses; `_` is for what is missing.
fn write_head(out: &mut Printer, head: &ForHead) {
    match &head.first {
        Some(FirstClause::Declaration(declaration)) => write_declaration(out, declaration),
        Some(FirstClause::Simple(simple)) => write_simple(out, simple),
        None => put(out, "_"),
    }
    put(out, " ");
    match &head.condition {
        Some(condition) => write_expression(condition, out),
        None => put(out, "_"),
    }
    put(out, " ");
    match &head.step {
        Some(step) => write_simple(out, step),
        None => put(out, "_"),
    }
    put(out, " ");
}

#[cycle(statement)]
pub fn write_statement(tree: &Statement, out: &mut Printer) {
    match tree {
        Statement::Empty => put(out, ";"),
        Statement::Declare { declaration } => write_declaration(out, declaration),
        Statement::Simple { simple } => write_simple(out, simple),
        Statement::Break => put(out, "break"),
        Statement::Continue => put(out, "continue"),
        Statement::Return { value: None } => put(out, "return"),
        Statement::Return { value: Some(value) } => {
            put(out, "(return ");
            write_expression(value, out);
            put(out, ")");
        }
        _ => write_compound(tree, out),
    }
}

#[cycle(statement)]
fn write_compound(tree: &Statement, out: &mut Printer) {
    match tree {
        Statement::Block { statements } => {
            put(out, "{");
            let mut first = true;
            for statement in statements {
                write_between(out, first, " ");
                write_statement(statement, out);
                first = false;
            }
            put(out, "}");
        }
        Statement::If { condition, then } => {
            put(out, "(if ");
            write_expression(condition, out);
            put(out, " ");
            write_statement(then, out);
            put(out, ")");
        }
        Statement::IfElse {
            condition,
            then,
            other,
        } => {
            put(out, "(if ");
            write_expression(condition, out);
            put(out, " ");
            write_statement(then, out);
            put(out, " ");
            write_statement(other, out);
            put(out, ")");
        }
        Statement::While {
            site,
            condition,
            body,
        } => {
            put(out, "(while");
            write_site(out, *site);
            put(out, " ");
            write_expression(condition, out);
            put(out, " ");
            write_statement(body, out);
            put(out, ")");
        }
        Statement::For { site, head, body } => {
            put(out, "(for");
            write_site(out, *site);
            put(out, " ");
            write_head(out, head);
            write_statement(body, out);
            put(out, ")");
        }
        _ => put(out, "?"),
    }
}

fn write_fields(out: &mut Printer, fields: &[FieldDeclaration]) {
    let mut first = true;
    for field in fields {
        write_between(out, first, "; ");
        write_base(out, &field.base);
        for declarator in field.declarators.as_slice() {
            write_declarator(out, declarator);
        }
        first = false;
    }
}

fn write_head_of_function(
    out: &mut Printer,
    given: &ResultType,
    name: &Name,
    parameters: &[Parameter],
) {
    match given {
        ResultType::Void => put(out, "void"),
        ResultType::Value(value) => write_type(out, value),
    }
    put(out, " ");
    write_name(out, name);
    put(out, "(");
    let mut first = true;
    for parameter in parameters {
        write_between(out, first, ", ");
        write_type(out, &parameter.value);
        if let Some(name) = &parameter.name {
            put(out, " ");
            write_name(out, name);
        }
        first = false;
    }
    put(out, ")");
}

fn item_site(item: &Item) -> Site {
    match item {
        Item::Struct { site, .. }
        | Item::Declared { site, .. }
        | Item::Prototype { site, .. }
        | Item::Function { site, .. } => *site,
    }
}

pub fn write_item(out: &mut Printer, item: &Item) {
    if out.sites {
        write_site(out, item_site(item));
        put(out, " ");
    }
    match item {
        Item::Struct { name, fields, .. } => {
            put(out, "struct ");
            write_name(out, name);
            put(out, " {");
            write_fields(out, fields.as_slice());
            put(out, "}");
        }
        Item::Declared { name, .. } => {
            put(out, "struct ");
            write_name(out, name);
        }
        Item::Prototype {
            result,
            name,
            parameters,
            ..
        } => {
            write_head_of_function(out, result, name, parameters.as_slice());
            put(out, ";");
        }
        Item::Function {
            result,
            name,
            parameters,
            body,
            ..
        } => {
            write_head_of_function(out, result, name, parameters.as_slice());
            put(out, " {");
            let mut first = true;
            for statement in body.as_slice() {
                write_between(out, first, " ");
                write_statement(statement, out);
                first = false;
            }
            put(out, "}");
        }
    }
}
