ghost use Rattle.std.specs.Prelude.{◌≡◌, ◌≢◌, ℕ, suc, List, ◌+◌, ◌*◌, ◌-◌, ◌<◌, ◌≤◌, ◌++◌, ◌∷◌, [], None, Some, length, drop, IfOk, IfSome, IfNone, OnOk};
ghost use Rattle.px_parts.specs.declared.form.Form.TheVariants as at;
ghost use Rattle.px_parts.specs.Places.{Place, Head};
ghost use Rattle.px_parts.specs.declared.skim.Known.TheVariants.{Short, Whole};
ghost use Rattle.px_parts.specs.Forms.{polynomial_in, due, next, Passes, entry_dues, drop_dues, spelled_by, dues_at};
ghost use Rattle.px_parts.specs.Skims.{IsSkim, IsEnded};
ghost use Rattle.px_parts.specs.Stream.{IsStuck};
ghost use Rattle.px_parts.specs.Kept.{naming, place_of};

use crate::form::{Due, Form, Spelled, due_after, size_of, stands_alone};
use crate::next::Next;
use px_spelling::TermList;
use px_terms::NoMemory;
use std::alloc::Global;
use std::collections::VecDeque;

/// What is known of the bytes of what comes next.
#[derive(Clone, Copy)]
pub(crate) enum Known {
    /// Some are missing.
    Short,
    /// None is missing.
    Whole,
    /// Nothing is known.
    Nothing,
}

/// How far the bytes of what comes next were passed over, which is begun where they weren't all there. It is only a help: where
/// there is no memory for it, nothing is known.
#[derive(Drop)]
pub(crate) struct Skim {
    pub(crate) dues: VecDeque<Due>,
    pub(crate) passed: usize,
    pub(crate) begun: bool,
}

impl Skim {
    /// Not begun. Takes no memory.
    #[tactic(auto, using(crate::proofs::Skimming::skim_not_begun))]
    pub(crate) fn new(alloc: Global) -> Skim
        ensures { (p : Place) (bytes : List ℕ) → IsSkim p bytes result }
    {
        Skim {
            dues: VecDeque::new(alloc),
            passed: 0,
            begun: false,
        }
    }

    /// Where this comes next, and no byte was passed. These are the terms, if there is a list of them.
    #[tactic(auto, using(crate::proofs::Skimming::skim_begins, crate::proofs::Skimming::skim_not_begun))]
    pub(crate) fn begin(alloc: Global, next: Next, terms: &Option<TermList>) -> Skim
        ensures { (bytes : List ℕ) → IsSkim (place_of next terms.now) bytes result }
    {
        let mut dues = VecDeque::new(alloc);
        match put_dues(&mut dues, next, terms) {
            Ok(()) => Skim {
                dues,
                passed: 0,
                begun: true,
            },
            Err(NoMemory) => Skim {
                dues,
                passed: 0,
                begun: false,
            },
        }
    }

    /// Goes on in all bytes that are there of what comes next.
    #[tactic(auto, using(crate::proofs::Skimming::skim_on, crate::proofs::Skimming::skim_short, crate::proofs::Skimming::skim_whole, crate::proofs::Skimming::skim_not_begun))]
    pub(crate) fn pass(&mut self, bytes: &[u8]) -> Known
        ensures kept { (p : Place) → IsSkim p bytes.now self.old → IsSkim p bytes.now self.new }
        ensures short { (p : Place) → IsSkim p bytes.now self.old → result ≡ Short → IsStuck p bytes.now }
        ensures whole { (p : Place) → IsSkim p bytes.now self.old → result ≡ Whole → IsEnded p bytes.now }
    {
        if !self.begun || self.passed > bytes.len() {
            return Known::Nothing;
        }
        match pass_all(&mut self.dues, &bytes[self.passed..]) {
            Ok(rest) => {
                self.passed = bytes.len() - rest.len();
                known_by(&self.dues)
            }
            Err(NoMemory) => {
                self.begun = false;
                Known::Nothing
            }
        }
    }
}

fn known_by(dues: &VecDeque<Due>) -> Known
    ensures short { result ≡ Short → dues.now.items ≢ [] }
    ensures whole { result ≡ Whole → dues.now.items ≡ [] }
{
    if dues.is_empty() {
        Known::Whole
    } else {
        Known::Short
    }
}

// Passes over as much as there is.
#[tactic(auto, using(crate::proofs::Passing::passes_then, crate::proofs::Passing::passes_same, crate::proofs::Passing::passes_none))]
fn pass_all<'a>(dues: &mut VecDeque<Due>, bytes: &'a [u8]) -> Result<&'a [u8], NoMemory>
    ensures passes { IfOk result (λ rest. Passes dues.old.items bytes.now dues.new.items rest.now) }
    ensures last { IfOk result (λ rest. next dues.new.items rest.now ≡ None) }
    ensures fewer { IfOk result (λ rest. length rest.now ≤ length bytes.now) }
{
    let mut rest = bytes;
    loop {
        match pass_one(dues, rest)? {
            Some(after) => rest = after,
            None => return Ok(rest),
        }
    }
}

// Passes over as many of the first form as it can at once, or else over the front of one, if its bytes are there.
#[tactic(auto, using(crate::proofs::Passing::passes_popped, crate::proofs::Passing::passes_step, crate::proofs::Passing::passes_put))]
fn pass_one<'a>(dues: &mut VecDeque<Due>, bytes: &'a [u8]) -> Result<Option<&'a [u8]>, NoMemory>
    ensures some { IfOk result (λ o. IfSome o (λ rest. Passes dues.old.items bytes.now dues.new.items rest.now)) }
    ensures falls { IfOk result (λ o. IfSome o (λ rest. 2 * length rest.now + length dues.new.items < 2 * length bytes.now + length dues.old.items)) }
    ensures fewer { IfOk result (λ o. IfSome o (λ rest. length rest.now ≤ length bytes.now)) }
    ensures none { IfOk result (λ o. IfNone o (next dues.new.items bytes.now ≡ None)) }
    ensures same { IfOk result (λ o. IfNone o (dues.new.items ≡ dues.old.items)) }
{
    match dues.pop_front() {
        None => Ok(None),
        Some(first) => {
            if first.count == 0 {
                return Ok(Some(bytes));
            }
            let (left, rest) = pass_many(first.form, first.count, bytes);
            if left < first.count {
                dues.push_front(Due {
                    form: first.form,
                    count: left,
                })?;
                return Ok(Some(rest));
            }
            pass_first(dues, first, bytes)
        }
    }
}

// Passes over so many of a form, as far as each is there and no more is due in it than two fronts. Says how many are left.
#[tactic(auto, using(crate::proofs::Passing::passes_none))]
fn pass_many(form: Form, count: u32, bytes: &[u8]) -> (u32, &[u8])
    ensures passes { (dues : List Due) → Passes (due form count ∷ dues) bytes.now (due form result.0 ∷ dues) result.1.now }
    ensures fewer { length result.1.now ≤ length bytes.now }
    ensures shorter { result.0 < count → length result.1.now < length bytes.now }
{
    let mut left = count;
    let mut rest = bytes;
    while left > 0 {
        let Some(after) = behind_one(form, rest) else {
            return (left, rest);
        };
        rest = after;
        left -= 1;
    }
    (left, rest)
}

// The bytes behind one of a form, where they are there and no more is due in it than two fronts. Of what there is most, there is a
// function for each.
fn behind_one(form: Form, bytes: &[u8]) -> Option<&[u8]>
    ensures passes { IfSome result (λ rest. (n : ℕ) (dues : List Due) → Passes (due form (suc n) ∷ dues) bytes.now (due form n ∷ dues) rest.now) }
    ensures shorter { IfSome result (λ rest. length rest.now < length bytes.now) }
{
    match form {
        Form::Value => behind_value(bytes),
        Form::Content(spelled) => behind_content(spelled, bytes),
        Form::Variable => behind_variable(bytes),
        Form::Step => behind_step(bytes),
        _ => behind_any(form, bytes),
    }
}

fn behind_value(bytes: &[u8]) -> Option<&[u8]>
    ensures passes { IfSome result (λ rest. (n : ℕ) (dues : List Due) → Passes (due at.Value (suc n) ∷ dues) bytes.now (due at.Value n ∷ dues) rest.now) }
    ensures shorter { IfSome result (λ rest. length rest.now < length bytes.now) }
{
    match bytes {
        [] => None,
        [tag, after @ ..] => {
            if *tag == 0 || *tag == 2 {
                behind_word(after)
            } else {
                Some(after)
            }
        }
    }
}

// Behind a content that is no word, or one that is by its place.
fn behind_content(spelled: Spelled, bytes: &[u8]) -> Option<&[u8]>
    ensures passes { IfSome result (λ rest. (n : ℕ) (dues : List Due) → Passes (due (at.Content spelled) (suc n) ∷ dues) bytes.now (due (at.Content spelled) n ∷ dues) rest.now) }
    ensures shorter { IfSome result (λ rest. length rest.now < length bytes.now) }
{
    match bytes {
        [] => None,
        [tag, after @ ..] => match *tag {
            1 => behind_polynomial(spelled, after),
            2 => behind_maybe_word(after),
            3 => behind_word(after),
            _ => Some(after),
        },
    }
}

// Behind one that is by its place.
fn behind_polynomial(spelled: Spelled, bytes: &[u8]) -> Option<&[u8]>
    ensures passes { IfSome result (λ rest. (n : ℕ) (dues : List Due) → Passes (due (polynomial_in spelled) (suc n) ∷ dues) bytes.now (due (polynomial_in spelled) n ∷ dues) rest.now) }
    ensures shorter { IfSome result (λ rest. length rest.now < length bytes.now) }
{
    match spelled {
        Spelled::InFull => None,
        Spelled::ByPlace => behind_word(bytes),
    }
}

fn behind_variable(bytes: &[u8]) -> Option<&[u8]>
    ensures passes { IfSome result (λ rest. (n : ℕ) (dues : List Due) → Passes (due at.Variable (suc n) ∷ dues) bytes.now (due at.Variable n ∷ dues) rest.now) }
    ensures shorter { IfSome result (λ rest. length rest.now < length bytes.now) }
{
    match bytes {
        [] => None,
        [_, after @ ..] => behind_maybe_word(after),
    }
}

fn behind_step(bytes: &[u8]) -> Option<&[u8]>
    ensures passes { IfSome result (λ rest. (n : ℕ) (dues : List Due) → Passes (due at.Step (suc n) ∷ dues) bytes.now (due at.Step n ∷ dues) rest.now) }
    ensures shorter { IfSome result (λ rest. length rest.now < length bytes.now) }
{
    match bytes {
        [] => None,
        [_, after @ ..] => behind_front(Form::Words, after),
    }
}

fn behind_maybe_word(bytes: &[u8]) -> Option<&[u8]>
    ensures passes { IfSome result (λ rest. (n : ℕ) (dues : List Due) → Passes (due at.MaybeWord (suc n) ∷ dues) bytes.now (due at.MaybeWord n ∷ dues) rest.now) }
    ensures shorter { IfSome result (λ rest. length rest.now < length bytes.now) }
{
    match bytes {
        [] => None,
        [tag, after @ ..] => {
            if *tag == 1 {
                behind_word(after)
            } else {
                Some(after)
            }
        }
    }
}

#[tactic(auto, using(crate::proofs::Passing::passes_word))]
fn behind_word(bytes: &[u8]) -> Option<&[u8]>
    ensures passes { IfSome result (λ rest. (n : ℕ) (dues : List Due) → Passes (due at.Word (suc n) ∷ dues) bytes.now (due at.Word n ∷ dues) rest.now) }
    ensures shorter { IfSome result (λ rest. length rest.now < length bytes.now) }
{
    if bytes.len() < 4 {
        return None;
    }
    let (_, after) = bytes.split_at(4);
    Some(after)
}

#[tactic(auto, using(crate::proofs::Passing::passes_front_of, crate::proofs::Passing::passes_front_one))]
fn behind_any(form: Form, bytes: &[u8]) -> Option<&[u8]>
    ensures passes { IfSome result (λ rest. (n : ℕ) (dues : List Due) → Passes (due form (suc n) ∷ dues) bytes.now (due form n ∷ dues) rest.now) }
    ensures shorter { IfSome result (λ rest. length rest.now < length bytes.now) }
{
    let size = size_of(form);
    if bytes.len() < size {
        return None;
    }
    let (front, after) = bytes.split_at(size);
    let due = due_after(form, front);
    if due.count == 1 {
        behind_front(due.form, after)
    } else {
        behind_alone(due, after)
    }
}

// The bytes behind one of a form, where they are there and what is due in it stands alone.
#[tactic(auto, using(crate::proofs::Passing::passes_front_of))]
fn behind_front(form: Form, bytes: &[u8]) -> Option<&[u8]>
    ensures passes { IfSome result (λ rest. (n : ℕ) (dues : List Due) → Passes (due form (suc n) ∷ dues) bytes.now (due form n ∷ dues) rest.now) }
    ensures shorter { IfSome result (λ rest. length rest.now < length bytes.now) }
{
    let size = size_of(form);
    if bytes.len() < size {
        return None;
    }
    let (front, after) = bytes.split_at(size);
    behind_alone(due_after(form, front), after)
}

// The bytes behind what is due, where they are there and each stands alone.
#[tactic(auto, using(crate::proofs::Passing::passes_no_more))]
fn behind_alone(due: Due, bytes: &[u8]) -> Option<&[u8]>
    ensures passes { IfSome result (λ rest. (dues : List Due) → Passes (due ∷ dues) bytes.now dues rest.now) }
    ensures fewer { IfSome result (λ rest. length rest.now ≤ length bytes.now) }
{
    if due.count == 0 {
        return Some(bytes);
    }
    if !stands_alone(due.form) {
        return None;
    }
    let Some(all) = size_of(due.form).checked_mul(due.count as usize) else {
        return None;
    };
    if all > bytes.len() {
        return None;
    }
    Some(&bytes[all..])
}

// The same, where the first was taken out, and there is one.
#[tactic(auto, using(crate::proofs::Passing::next_told, crate::proofs::Passing::next_short))]
fn pass_first<'a>(
    dues: &mut VecDeque<Due>,
    first: Due,
    bytes: &'a [u8],
) -> Result<Option<&'a [u8]>, NoMemory>
    requires { first.count ≢ 0 }
    ensures some { IfOk result (λ o. IfSome o (λ rest. next (first ∷ dues.old.items) bytes.now ≡ Some (dues.new.items, rest.now))) }
    ensures falls { IfOk result (λ o. IfSome o (λ rest. 2 * length rest.now + length dues.new.items ≤ 2 * length bytes.now + length dues.old.items)) }
    ensures fewer { IfOk result (λ o. IfSome o (λ rest. length rest.now ≤ length bytes.now)) }
    ensures none { IfOk result (λ o. IfNone o (next dues.new.items bytes.now ≡ None)) }
    ensures same { IfOk result (λ o. IfNone o (dues.new.items ≡ first ∷ dues.old.items)) }
{
    let Due { form, count } = first;
    let size = size_of(form);
    if bytes.len() < size {
        dues.push_front(first)?;
        return Ok(None);
    }
    let (front, rest) = bytes.split_at(size);
    dues.push_front(Due {
        form,
        count: count - 1,
    })?;
    dues.push_front(due_after(form, front))?;
    Ok(Some(rest))
}

// Puts what is due of what comes next behind what is due.
fn put_dues(dues: &mut VecDeque<Due>, next: Next, terms: &Option<TermList>) -> Result<(), NoMemory>
    ensures { OnOk result (dues.new.items ≡ dues.old.items ++ dues_at (place_of next terms.now)) }
{
    match next {
        Next::Start => put_two(dues, Form::Byte),
        Next::Head => put_head(dues),
        Next::ListedHead => {
            put(dues, Form::Polynomials)?;
            put_head(dues)
        }
        Next::Large { .. } => put(dues, Form::Ticket),
        Next::EntryCount | Next::DropCount { .. } | Next::DerivationCount => put(dues, Form::Word),
        Next::Entries { left, .. } => {
            if left == 0 {
                return Ok(());
            }
            put_entry(dues, spelled(terms))
        }
        Next::Drops { left, .. } => {
            if left == 0 {
                return Ok(());
            }
            put_drop(dues, spelled(terms))
        }
        Next::Derivations { left } => {
            if left == 0 {
                return Ok(());
            }
            put(dues, Form::Steps)
        }
        Next::Over => Ok(()),
    }
}

// How polynomials are spelled, where these are the terms.
fn spelled(terms: &Option<TermList>) -> Spelled
    ensures { (n : ℕ) → result ≡ spelled_by (naming terms.now n) }
{
    match terms {
        None => Spelled::InFull,
        Some(_) => Spelled::ByPlace,
    }
}

fn put_head(dues: &mut VecDeque<Due>) -> Result<(), NoMemory>
    ensures { OnOk result (dues.new.items ≡ dues.old.items ++ dues_at Head) }
{
    put(dues, Form::Ticket)?;
    put(dues, Form::Kinds)
}

fn put_entry(dues: &mut VecDeque<Due>, spelled: Spelled) -> Result<(), NoMemory>
    ensures { OnOk result (dues.new.items ≡ dues.old.items ++ entry_dues spelled) }
{
    put(dues, Form::Word)?;
    put(dues, Form::Marks)?;
    put(dues, Form::Exit)?;
    put(dues, Form::Answer(spelled))?;
    put(dues, Form::Variables)?;
    put(dues, Form::Conjuncts(spelled))?;
    put(dues, Form::Atoms(spelled))?;
    put(dues, Form::Atoms(spelled))?;
    put(dues, Form::Values)
}

fn put_drop(dues: &mut VecDeque<Due>, spelled: Spelled) -> Result<(), NoMemory>
    ensures { OnOk result (dues.new.items ≡ dues.old.items ++ drop_dues spelled) }
{
    put(dues, Form::Marks)?;
    put(dues, Form::Cause(spelled))
}

fn put(dues: &mut VecDeque<Due>, form: Form) -> Result<(), NoMemory>
    ensures { OnOk result (dues.new.items ≡ dues.old.items ++ due form 1 ∷ []) }
{
    dues.push_back(Due { form, count: 1 })?;
    Ok(())
}

fn put_two(dues: &mut VecDeque<Due>, form: Form) -> Result<(), NoMemory>
    ensures { OnOk result (dues.new.items ≡ dues.old.items ++ due form 2 ∷ []) }
{
    dues.push_back(Due { form, count: 2 })?;
    Ok(())
}
