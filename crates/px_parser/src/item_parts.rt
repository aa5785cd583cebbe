ghost use Rattle.std.specs.Prelude.{◌≡◌, ◌∷◌, [], length, option_map};
ghost use Rattle.px_syntax.specs.ItemTree.{item_tree};
ghost use Rattle.px_expressions.specs.Lexemes.{see, seen};
ghost use Rattle.px_expressions.specs.Reading.{Gives, separated_at};
ghost use Rattle.px_statements.specs.SimpleReading.{declarator_at};
ghost use Rattle.px_parser.specs.ItemReading.{field_at, more_fields, struct_at, result_at, parameter_at, parameters_at, all_named, ending_at, function_at, ends_struct, struct_front, item_at};

use px_base::Site;
use px_expressions::{Fault, Input, Symbol, Terminal, base, front, name, type_name};
use px_statements::{body, declarator};
use px_syntax::{Declarator, FieldDeclaration, Item, Name, Parameter, ResultType};
use px_terms::Items;
use std::alloc::Global;

// How many parentheses, unary operators and statements in statements may be open at once.
const DEPTH_LIMIT: u32 = 200;

// Declarators with commas between.
#[tactic(auto, unfolding(px_expressions::specs::Reading::separated_at))]
fn declarators<'a>(alloc: Global, input: Input<'a>) -> Result<(Vec<Declarator>, Input<'a>), Fault>
    ensures { Gives (λ x. (x.0.items, seen x.1)) result (separated_at declarator_at (seen input.entry)) }
{
    let mut all = Vec::new(alloc);
    let (first, after) = declarator(alloc, input)?;
    all.push(first)?;
    let mut rest = after;
    for _ in 0..after.len() {
        let Some((_, after)) = front(Terminal::Comma, rest) else {
            return Ok((all, rest));
        };
        let (next, after) = declarator(alloc, after)?;
        all.push(next)?;
        rest = after;
    }
    Ok((all, rest))
}

// Fields of one base, and their semicolon.
#[tactic(auto, unfolding(crate::specs::ItemReading::field_at))]
fn field<'a>(alloc: Global, input: Input<'a>) -> Result<(FieldDeclaration, Input<'a>), Fault>
    ensures { Gives (λ x. (x.0, seen x.1)) result (field_at (seen input.entry)) }
{
    let (base, rest) = base(alloc, input)?;
    let (all, rest) = declarators(alloc, rest)?;
    match front(Terminal::Semicolon, rest) {
        Some((_, rest)) => Ok((
            FieldDeclaration {
                base,
                declarators: Items::from_vec(all),
            },
            rest,
        )),
        None => Err(Fault::NoParse),
    }
}

// More fields up to the closing brace.
#[tactic(auto)]
fn fields<'a>(
    alloc: Global,
    first: FieldDeclaration,
    input: Input<'a>,
) -> Result<(Vec<FieldDeclaration>, Input<'a>), Fault>
    ensures { Gives (λ x. (x.0.items, seen x.1)) result (more_fields (length (seen input.entry)) (first ∷ []) (seen input.entry)) }
{
    let mut all = Vec::new(alloc);
    all.push(first)?;
    let mut rest = input;
    for _ in 0..input.len() {
        if let Some((_, after)) = front(Terminal::CloseBrace, rest) {
            return Ok((all, after));
        }
        let (next, after) = field(alloc, rest)?;
        all.push(next)?;
        rest = after;
    }
    Err(Fault::NoParse)
}

// What follows the name of a struct that begins an item.
#[tactic(auto, unfolding(crate::specs::ItemReading::struct_at))]
fn structure<'a>(
    alloc: Global,
    site: Site,
    name: Name,
    input: Input<'a>,
) -> Result<(Item, Input<'a>), Fault>
    ensures { Gives (λ x. (item_tree x.0, seen x.1)) result (struct_at site name (seen input.entry)) }
{
    if let Some((_, rest)) = front(Terminal::Semicolon, input) {
        return Ok((Item::Declared { site, name }, rest));
    }
    let Some((_, rest)) = front(Terminal::OpenBrace, input) else {
        return Err(Fault::NoParse);
    };
    let (first, rest) = field(alloc, rest)?;
    let (all, rest) = fields(alloc, first, rest)?;
    match front(Terminal::Semicolon, rest) {
        Some((_, rest)) => Ok((
            Item::Struct {
                site,
                name,
                fields: Items::from_vec(all),
            },
            rest,
        )),
        None => Err(Fault::NoParse),
    }
}

// What a function gives.
#[tactic(auto, unfolding(crate::specs::ItemReading::result_at))]
fn result_type<'a>(alloc: Global, input: Input<'a>) -> Result<(ResultType, Input<'a>), Fault>
    ensures { Gives (λ x. (x.0, seen x.1)) result (result_at (seen input.entry)) }
{
    if let Some((_, rest)) = front(Terminal::Void, input) {
        return Ok((ResultType::Void, rest));
    }
    let (value, rest) = type_name(alloc, input)?;
    Ok((ResultType::Value(value), rest))
}

// A parameter, with a name or without one.
#[tactic(auto, unfolding(crate::specs::ItemReading::parameter_at))]
fn parameter<'a>(alloc: Global, input: Input<'a>) -> Result<(Parameter, Input<'a>), Fault>
    ensures { Gives (λ x. (x.0, seen x.1)) result (parameter_at (seen input.entry)) }
{
    let (value, rest) = type_name(alloc, input)?;
    match front(Terminal::Name, rest) {
        Some((symbol, rest)) => {
            let name = name(alloc, rest.source, symbol)?;
            Ok((
                Parameter {
                    value,
                    name: Some(name),
                },
                rest,
            ))
        }
        None => Ok((Parameter { value, name: None }, rest)),
    }
}

// Parameters with commas between.
#[tactic(auto, unfolding(px_expressions::specs::Reading::separated_at))]
fn some_parameters<'a>(
    alloc: Global,
    input: Input<'a>,
) -> Result<(Vec<Parameter>, Input<'a>), Fault>
    ensures { Gives (λ x. (x.0.items, seen x.1)) result (separated_at parameter_at (seen input.entry)) }
{
    let mut all = Vec::new(alloc);
    let (first, after) = parameter(alloc, input)?;
    all.push(first)?;
    let mut rest = after;
    for _ in 0..after.len() {
        let Some((_, after)) = front(Terminal::Comma, rest) else {
            return Ok((all, rest));
        };
        let (next, after) = parameter(alloc, after)?;
        all.push(next)?;
        rest = after;
    }
    Ok((all, rest))
}

// Parameters up to the closing parenthesis.
#[tactic(auto, unfolding(crate::specs::ItemReading::parameters_at))]
fn parameters<'a>(alloc: Global, input: Input<'a>) -> Result<(Vec<Parameter>, Input<'a>), Fault>
    ensures { Gives (λ x. (x.0.items, seen x.1)) result (parameters_at (seen input.entry)) }
{
    if let Some((_, rest)) = front(Terminal::CloseParenthesis, input) {
        return Ok((Vec::new(alloc), rest));
    }
    if let Some((_, rest)) = front(Terminal::Void, input) {
        return match front(Terminal::CloseParenthesis, rest) {
            Some((_, rest)) => Ok((Vec::new(alloc), rest)),
            None => Err(Fault::NoParse),
        };
    }
    let (all, rest) = some_parameters(alloc, input)?;
    match front(Terminal::CloseParenthesis, rest) {
        Some((_, rest)) => Ok((all, rest)),
        None => Err(Fault::NoParse),
    }
}

// Whether each parameter has a name.
fn all_named(parameters: &[Parameter]) -> bool
    ensures { result ≡ all_named parameters.now }
{
    for i in 0..parameters.len() {
        if parameters[i].name.is_none() {
            return false;
        }
    }
    true
}

// What follows the parameters of a function.
#[tactic(auto, unfolding(crate::specs::ItemReading::ending_at))]
fn ending<'a>(
    alloc: Global,
    site: Site,
    result_type: ResultType,
    name: Name,
    parameters: Vec<Parameter>,
    input: Input<'a>,
) -> Result<(Item, Input<'a>), Fault>
    ensures { Gives (λ x. (item_tree x.0, seen x.1)) result (ending_at site result_type name parameters.items (seen input.entry)) }
{
    if let Some((_, rest)) = front(Terminal::Semicolon, input) {
        return Ok((
            Item::Prototype {
                site,
                result: result_type,
                name,
                parameters: Items::from_vec(parameters),
            },
            rest,
        ));
    }
    if !all_named(&parameters) {
        return Err(Fault::NoParse);
    }
    let Some((_, rest)) = front(Terminal::OpenBrace, input) else {
        return Err(Fault::NoParse);
    };
    let (statements, rest) = body(alloc, DEPTH_LIMIT, rest)?;
    Ok((
        Item::Function {
            site,
            result: result_type,
            name,
            parameters: Items::from_vec(parameters),
            body: Items::from_vec(statements),
        },
        rest,
    ))
}

// What a function is, after the word `static`.
#[tactic(auto, unfolding(crate::specs::ItemReading::function_at))]
fn function<'a>(alloc: Global, site: Site, input: Input<'a>) -> Result<(Item, Input<'a>), Fault>
    ensures { Gives (λ x. (item_tree x.0, seen x.1)) result (function_at site (seen input.entry)) }
{
    let (result_type, rest) = result_type(alloc, input)?;
    let Some((symbol, rest)) = front(Terminal::Name, rest) else {
        return Err(Fault::NoParse);
    };
    let name = name(alloc, rest.source, symbol)?;
    let Some((_, rest)) = front(Terminal::OpenParenthesis, rest) else {
        return Err(Fault::NoParse);
    };
    let (parameters, rest) = parameters(alloc, rest)?;
    ending(alloc, site, result_type, name, parameters, rest)
}

// Whether a struct item goes on after its name.
fn ends_struct(input: Input) -> bool
    ensures { result ≡ ends_struct (seen input.entry) }
{
    match input.first() {
        Some((symbol, _)) => {
            symbol.terminal == Terminal::Semicolon || symbol.terminal == Terminal::OpenBrace
        }
        None => false,
    }
}

// The name of the struct that an item is, and what follows the name.
fn struct_name<'a>(input: Input<'a>) -> Option<(Symbol, Input<'a>)>
    ensures { option_map (λ x. ((see x.1.source.now x.0).text, seen x.1)) result ≡ struct_front (seen input.entry) }
{
    let (_, rest) = front(Terminal::Struct, input)?;
    let (symbol, rest) = front(Terminal::Name, rest)?;
    if ends_struct(rest) {
        Some((symbol, rest))
    } else {
        None
    }
}

// The item at the front, which begins at the site.
#[tactic(auto, unfolding(crate::specs::ItemReading::item_at))]
pub fn item<'a>(alloc: Global, site: Site, input: Input<'a>) -> Result<(Item, Input<'a>), Fault>
    ensures { Gives (λ x. (item_tree x.0, seen x.1)) result (item_at site (seen input.entry)) }
{
    if let Some((symbol, rest)) = struct_name(input) {
        let name = name(alloc, rest.source, symbol)?;
        return structure(alloc, site, name, rest);
    }
    match front(Terminal::Static, input) {
        Some((_, rest)) => function(alloc, site, rest),
        None => function(alloc, site, input),
    }
}
