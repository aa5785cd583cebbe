ghost use Rattle.std.specs.Prelude.{◌≡◌, ◌<◌, ℕ, List, true};
ghost use Rattle.px_parts.specs.declared.form.Form.TheVariants as at;
ghost use Rattle.px_parts.specs.Forms.{polynomial_in, size, due, due_only_at, tag_in, count_in, follow_by, follow};

/// How polynomials are spelled: each in full, or by its place in a list.
#[derive(Clone, Copy)]
pub(crate) enum Spelled {
    InFull,
    ByPlace,
}

/// What stands in a part, as far as one must know to find where it ends.
#[derive(Clone, Copy)]
pub(crate) enum Form {
    Byte,
    Word,
    Ticket,
    Site,
    /// An error and its site.
    Failure,
    /// A procedure that is called, and the site.
    Call,
    // Lists.
    Kinds,
    Words,
    Marks,
    Variables,
    Conjuncts(Spelled),
    Atoms(Spelled),
    Values,
    Terms,
    Polynomials,
    Contents(Spelled),
    Steps,
    // What they hold, and what stands alone.
    Mark,
    Exit,
    Answer(Spelled),
    Variable,
    /// A byte, and a word where it is 1.
    MaybeWord,
    Value,
    Content(Spelled),
    /// In full.
    Polynomial,
    Term,
    Conjunct(Spelled),
    /// A variable, and the two polynomials of which it is the quotient.
    Quotient(Spelled),
    State(Spelled),
    Atom(Spelled),
    Cause(Spelled),
    Step,
}

/// So many of a form, one after another.
#[derive(Clone, Copy)]
pub(crate) struct Due {
    pub(crate) form: Form,
    pub(crate) count: u32,
}

/// The form of a polynomial that is spelled so.
pub(crate) fn polynomial_in(spelled: Spelled) -> Form
    ensures { result ≡ polynomial_in spelled }
{
    match spelled {
        Spelled::InFull => Form::Polynomial,
        Spelled::ByPlace => Form::Word,
    }
}

/// How many bytes stand at the front of a form, from which one knows what follows them.
pub(crate) fn size_of(form: Form) -> usize
    ensures size { result ≡ size form }
    ensures some { 0 < result }
{
    match form {
        Form::Site => 12,
        Form::Failure => 13,
        Form::Call => 16,
        Form::Ticket | Form::Atom(_) => 8,
        Form::Byte
        | Form::Mark
        | Form::Exit
        | Form::Answer(_)
        | Form::Variable
        | Form::MaybeWord
        | Form::Value
        | Form::Content(_)
        | Form::Conjunct(_)
        | Form::State(_)
        | Form::Cause(_)
        | Form::Step => 1,
        _ => 4,
    }
}

/// Whether nothing follows the front of a form, whatever its bytes are.
pub(crate) fn stands_alone(form: Form) -> bool
    ensures { result ≡ true → (front : List ℕ) → (follow form front).count ≡ 0 }
{
    match form {
        Form::Byte | Form::Word | Form::Ticket | Form::Site | Form::Failure | Form::Call => true,
        _ => false,
    }
}

/// What follows these bytes at the front of a form.
pub(crate) fn due_after(form: Form, front: &[u8]) -> Due
    ensures { result ≡ follow form front.now }
{
    match form {
        Form::Byte | Form::Word | Form::Ticket | Form::Site | Form::Failure | Form::Call =>
            nothing(),
        Form::Kinds => many(Form::Byte, front),
        Form::Words => many(Form::Word, front),
        Form::Marks => many(Form::Mark, front),
        Form::Variables => many(Form::Variable, front),
        Form::Conjuncts(spelled) => many(Form::Conjunct(spelled), front),
        Form::Atoms(spelled) => many(Form::Atom(spelled), front),
        Form::Values => many(Form::Value, front),
        Form::Terms => many(Form::Term, front),
        Form::Polynomials => many(Form::Polynomial, front),
        Form::Contents(spelled) => many(Form::Content(spelled), front),
        Form::Steps => many(Form::Step, front),
        Form::Variable => one(Form::MaybeWord),
        Form::Polynomial => one(Form::Terms),
        Form::Term | Form::Step => one(Form::Words),
        Form::Atom(spelled) => one(Form::State(spelled)),
        Form::Quotient(spelled) => two(polynomial_in(spelled)),
        _ => due_by(form, tag(front)),
    }
}

// What follows a byte that says it.
fn due_by(form: Form, tag: u8) -> Due
    ensures { result ≡ follow_by form tag }
{
    match form {
        Form::Mark => due_by_mark(tag),
        Form::Exit => only_at(tag, 1, Form::Failure),
        Form::Answer(spelled) => only_at(tag, 1, Form::Content(spelled)),
        Form::MaybeWord => only_at(tag, 1, Form::Word),
        Form::State(spelled) => only_at(tag, 0, Form::Contents(spelled)),
        Form::Value => due_by_value(tag),
        Form::Content(spelled) => due_by_content(spelled, tag),
        Form::Conjunct(spelled) => due_by_conjunct(spelled, tag),
        Form::Cause(spelled) => due_by_cause(spelled, tag),
        _ => nothing(),
    }
}

fn due_by_mark(tag: u8) -> Due
    ensures { result ≡ follow_by at.Mark tag }
{
    if tag == 10 {
        one(Form::Call)
    } else {
        one(Form::Site)
    }
}

fn due_by_value(tag: u8) -> Due
    ensures { result ≡ follow_by at.Value tag }
{
    if tag == 0 {
        one(Form::Word)
    } else {
        only_at(tag, 2, Form::Word)
    }
}

fn due_by_content(spelled: Spelled, tag: u8) -> Due
    ensures { result ≡ follow_by (at.Content spelled) tag }
{
    if tag == 1 {
        one(polynomial_in(spelled))
    } else if tag == 2 {
        one(Form::MaybeWord)
    } else {
        only_at(tag, 3, Form::Word)
    }
}

fn due_by_conjunct(spelled: Spelled, tag: u8) -> Due
    ensures { result ≡ follow_by (at.Conjunct spelled) tag }
{
    if tag < 2 {
        one(polynomial_in(spelled))
    } else if tag < 4 {
        two(polynomial_in(spelled))
    } else if tag < 6 {
        two(Form::MaybeWord)
    } else if tag < 8 {
        one(Form::Word)
    } else {
        one(Form::Quotient(spelled))
    }
}

fn due_by_cause(spelled: Spelled, tag: u8) -> Due
    ensures { result ≡ follow_by (at.Cause spelled) tag }
{
    if tag == 0 {
        one(Form::Conjuncts(spelled))
    } else if tag == 3 {
        one(Form::Byte)
    } else {
        one(Form::Word)
    }
}

fn only_at(tag: u8, wanted: u8, form: Form) -> Due
    ensures { result ≡ due_only_at tag wanted form }
{
    if tag == wanted { one(form) } else { nothing() }
}

fn nothing() -> Due
    ensures { result ≡ due at.Byte 0 }
{
    Due {
        form: Form::Byte,
        count: 0,
    }
}

// One of a form.
fn one(form: Form) -> Due
    ensures { result ≡ due form 1 }
{
    Due { form, count: 1 }
}

fn two(form: Form) -> Due
    ensures { result ≡ due form 2 }
{
    Due { form, count: 2 }
}

// As many of a form as these bytes count.
fn many(form: Form, front: &[u8]) -> Due
    ensures { result ≡ due form (count_in front.now) }
{
    Due {
        form,
        count: count(front),
    }
}

fn count(front: &[u8]) -> u32
    ensures { result ≡ count_in front.now }
{
    if front.len() < 4 {
        return 0;
    }
    let (number, _) = front.split_at(4);
    u32::from_be_bytes([number[0], number[1], number[2], number[3]])
}

fn tag(front: &[u8]) -> u8
    ensures { result ≡ tag_in front.now }
{
    match front {
        [] => 0,
        [first, ..] => *first,
    }
}
