ghost use Rattle.std.specs.Prelude.{◌≡◌, ◌+◌, ◌++◌, Some, None, [], ◌∷◌, length, option_to_list, IfOk};
ghost use Rattle.px_base.specs.declared.trace.Kind.TheVariants.{DivisionByZero};
ghost use Rattle.px_base.specs.declared.trace.Site.{Site};
ghost use Rattle.px_terms.specs.declared.conjuncts.Conj.TheVariants as conjunct;
ghost use Rattle.px_entry.specs.Decided as decided;
ghost use Rattle.px_callgraph.specs.States.{on, fails, begun, assumed, operand_content};
ghost use Rattle.px_callgraph.specs.States as states;
ghost use Rattle.px_callgraph.specs.Commands as commands;
ghost use Rattle.px_callgraph.specs.declared.states.Way.TheVariants as way;
ghost use Rattle.px_steps.specs.Led.{at_state, led_of};
ghost use Rattle.px_steps.specs.Additions.{ones};

use crate::control_acts::begin_alone;
use crate::led::{self, Led};
use crate::path_limits::{COMMAND, assuming};
use crate::words::operand_of;
use px_base::{Kind, Site};
use px_callgraph::{State, Way};
use px_core::Operand;
use px_entry::Exit;
use px_match::{Growth, keep_short, limit_passed, word_of};
use px_terms::{Conj, Content, NoMemory, Poly, quotient};
use px_ways::{add_conjunct, begin, lacks_quotient, set_slot, take_quotient, unless_there};
use std::alloc::Global;

/// A slot gets a quotient, or what is divided by is 0.
pub(crate) fn divide(
    alloc: Global,
    state: &mut State,
    to: u32,
    a: Operand,
    b: Operand,
    site: Site,
    way: Way,
) -> Result<Led, NoMemory>
    ensures { IfOk result (λ r. at_state r state.new ≡ led_of state.old (commands.divide_done to site (operand_content (begun state.old) a) (operand_content (begun state.old) b) way (begun state.old))) }
{
    let a = operand_of(alloc, state, a)?;
    let b = operand_of(alloc, state, b)?;
    divide_contents(alloc, state, to, &a, &b, site, way)
}

// The same of contents.
fn divide_contents(
    alloc: Global,
    state: &mut State,
    to: u32,
    a: &Content,
    b: &Content,
    site: Site,
    way: Way,
) -> Result<Led, NoMemory>
    ensures { IfOk result (λ r. at_state r state.new ≡ led_of state.old (commands.divide_done to site a.now b.now way (begun state.old))) }
{
    match (a, b) {
        (Content::Word(p), Content::Word(q)) => { divide_words(alloc, state, to, p, q, site, way) }
        _ => begin_alone(alloc, state),
    }
}

// The same of two words.
fn divide_words(
    alloc: Global,
    state: &mut State,
    to: u32,
    p: &Poly,
    q: &Poly,
    site: Site,
    way: Way,
) -> Result<Led, NoMemory>
    ensures { IfOk result (λ r. at_state r state.new ≡ led_of state.old (commands.words_divided to site way (begun state.old) p.now q.now)) }
{
    match way {
        Way::ByZero => by_zero(alloc, state, q, site),
        Way::Divided => by_other(alloc, state, to, p, q),
        _ => begin_alone(alloc, state),
    }
}

// What is added where it is assumed that a word is 0, and where it is assumed that it isn't.
fn unless_zero(state: &State, q: &Poly) -> Result<Option<Conj>, NoMemory>
    ensures { IfOk result (λ o. decided.assume state.now.vars state.now.pure (conjunct.Equal q.now) ≡ state.now.pure ++ option_to_list o) }
{
    Ok(unless_there(state, Conj::Equal(q.copy()?)))
}

fn unless_other(state: &State, q: &Poly) -> Result<Option<Conj>, NoMemory>
    ensures { IfOk result (λ o. decided.assume state.now.vars state.now.pure (conjunct.Unequal q.now) ≡ state.now.pure ++ option_to_list o) }
{
    Ok(unless_there(state, Conj::Unequal(q.copy()?)))
}

// What is divided by is 0.
fn by_zero(alloc: Global, state: &mut State, q: &Poly, site: Site) -> Result<Led, NoMemory>
    ensures { IfOk result (λ r. at_state r state.new ≡ led_of state.old (record (fails DivisionByZero site (assumed (conjunct.Equal q.now) (begun state.old))) { terms = q.now ∷ [] })) }
{
    keep_short(q);
    fail(alloc, state, q, site)
}

// The same, where no polynomial is too long.
fn fail(alloc: Global, state: &mut State, q: &Poly, site: Site) -> Result<Led, NoMemory>
    ensures { IfOk result (λ r. at_state r state.new ≡ led_of state.old (fails DivisionByZero site (assumed (conjunct.Equal q.now) (begun state.old)))) }
{
    let added = unless_zero(state, q)?;
    let growth = assuming(0, &added);
    match limit_passed(state, &growth) {
        Some(kind) => led::cut(alloc, state, kind),
        None => {
            begin(state);
            add_conjunct(state, added)?;
            Ok(Led::Ends(Exit::Error(Kind::DivisionByZero, site), None))
        }
    }
}

// What is divided by isn't 0.
fn by_other(alloc: Global, state: &mut State, to: u32, p: &Poly, q: &Poly) -> Result<Led, NoMemory>
    ensures { IfOk result (λ r. (site : Site) → at_state r state.new ≡ led_of state.old (commands.words_divided to site way.Divided (begun state.old) p.now q.now)) }
{
    keep_short(p);
    keep_short(q);
    match constant_quotient(alloc, p, q) {
        Some(content) => give_quotient(alloc, state, to, q, content),
        None => make_quotient(alloc, state, to, p, q),
    }
}

// The quotient of two constants; none is by 0.
fn constant_quotient(alloc: Global, p: &Poly, q: &Poly) -> Option<Content>
    ensures { result ≡ commands.constant_quotient (decided.word_of p.now) (decided.word_of q.now) }
{
    match (word_of(p), word_of(q)) {
        (Some(m), Some(n)) => word_quotient(alloc, m, n),
        _ => None,
    }
}

fn word_quotient(alloc: Global, m: u32, n: u32) -> Option<Content>
    ensures { result ≡ commands.constant_quotient (Some m) (Some n) }
{
    if n == 0 {
        None
    } else {
        Some(Content::Word(Poly::number(alloc, quotient(m, n))))
    }
}

// The slot gets a quotient that is known.
fn give_quotient(
    alloc: Global,
    state: &mut State,
    to: u32,
    q: &Poly,
    content: Content,
) -> Result<Led, NoMemory>
    ensures { IfOk result (λ r. at_state r state.new ≡ led_of state.old (on (states.set_slot to content (assumed (conjunct.Unequal q.now) (begun state.old))))) }
{
    let added = unless_other(state, q)?;
    let growth = assuming(0, &added);
    match limit_passed(state, &growth) {
        Some(passed) => led::cut(alloc, state, passed),
        None => {
            begin(state);
            add_conjunct(state, added)?;
            set_slot(state, to, content);
            Ok(Led::Goes)
        }
    }
}

// The slot gets a new variable, which is the quotient.
fn make_quotient(
    alloc: Global,
    state: &mut State,
    to: u32,
    p: &Poly,
    q: &Poly,
) -> Result<Led, NoMemory>
    ensures { IfOk result (λ r. at_state r state.new ≡ led_of state.old (on (commands.quotient_by to p.now q.now None (assumed (conjunct.Unequal q.now) (begun state.old))))) }
{
    keep_short(p);
    keep_short(q);
    let other = unless_other(state, q)?;
    let lacking = lacks_quotient(state, p, q);
    let growth = Growth {
        conjuncts: count_both(&other, lacking),
        variables: 1,
        ..COMMAND
    };
    match limit_passed(state, &growth) {
        Some(passed) => led::cut(alloc, state, passed),
        None => {
            take_quotient(alloc, state, to, p, q, other, lacking)?;
            Ok(Led::Goes)
        }
    }
}

// How many conjuncts are added: one where there is one, and one more where that is lacking.
fn count_both(added: &Option<Conj>, lacking: bool) -> usize
    ensures { result ≡ length (option_to_list added.now) + ones lacking }
{
    match (added, lacking) {
        (Some(_), true) => 2,
        (None, false) => 0,
        _ => 1,
    }
}
