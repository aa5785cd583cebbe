ghost use Rattle.std.specs.Prelude.{◌≡◌, ◌↔◌, true, IfOk};

use crate::{NoMemory, Poly, Var};

/// A place: null, or the base of the block that a variable stands for.
#[derive(Clone, Copy, Debug, PartialEq, Eq)]
pub enum Place {
    Null,
    Var(Var),
}

/// What a cell or a slot of a symbolic state holds.
pub enum Content {
    /// Nothing was written.
    Unwritten,
    /// A word.
    Word(Poly),
    /// A pointer.
    Place(Place),
    /// What the variable stands for, which may be unwritten.
    Cell(Var),
}

/// A condition on variables. Orders are signed.
pub enum Conj {
    /// The polynomial is 0.
    Equal(Poly),
    /// The polynomial isn't 0.
    Unequal(Poly),
    /// The first is less than the second.
    Less(Poly, Poly),
    /// The first is at most the second.
    AtMost(Poly, Poly),
    /// Both are null, or the same block.
    SamePlace(Place, Place),
    /// They are two places: one is null and one isn't, or they are different blocks.
    OtherPlace(Place, Place),
    /// The variable's value was written.
    Written(Var),
    /// The variable's value was never written.
    Unwritten(Var),
    /// The second polynomial isn't 0, and the variable is the quotient of the first by it, truncated towards zero and wrapped.
    Quotient(Var, Poly, Poly),
}

impl Content {
    /// The same content.
    pub fn copy(&self) -> Result<Content, NoMemory>
        ensures { IfOk result (λ c. c ≡ self.now) }
    {
        Ok(match self {
            Content::Unwritten => Content::Unwritten,
            Content::Word(p) => Content::Word(p.copy()?),
            Content::Place(a) => Content::Place(*a),
            Content::Cell(x) => Content::Cell(*x),
        })
    }

    /// Whether both are the same content. Takes no memory.
    pub fn equals(&self, other: &Content) -> bool
        ensures { result ≡ true ↔ self.now ≡ other.now }
    {
        match (self, other) {
            (Content::Unwritten, Content::Unwritten) => true,
            (Content::Word(p), Content::Word(q)) => p.equals(q),
            (Content::Place(a), Content::Place(b)) => *a == *b,
            (Content::Cell(x), Content::Cell(y)) => *x == *y,
            _ => false,
        }
    }
}

impl Conj {
    /// The same conjunct.
    pub fn copy(&self) -> Result<Conj, NoMemory>
        ensures { IfOk result (λ c. c ≡ self.now) }
    {
        Ok(match self {
            Conj::Equal(p) => Conj::Equal(p.copy()?),
            Conj::Unequal(p) => Conj::Unequal(p.copy()?),
            Conj::Less(p, q) => Conj::Less(p.copy()?, q.copy()?),
            Conj::AtMost(p, q) => Conj::AtMost(p.copy()?, q.copy()?),
            Conj::SamePlace(a, b) => Conj::SamePlace(*a, *b),
            Conj::OtherPlace(a, b) => Conj::OtherPlace(*a, *b),
            Conj::Written(x) => Conj::Written(*x),
            Conj::Unwritten(x) => Conj::Unwritten(*x),
            Conj::Quotient(x, p, q) => Conj::Quotient(*x, p.copy()?, q.copy()?),
        })
    }

    /// Whether both are the same conjunct. Takes no memory.
    pub fn equals(&self, other: &Conj) -> bool
        ensures { result ≡ true ↔ self.now ≡ other.now }
    {
        match (self, other) {
            (Conj::Equal(p), Conj::Equal(q)) => p.equals(q),
            (Conj::Unequal(p), Conj::Unequal(q)) => p.equals(q),
            (Conj::Less(p, q), Conj::Less(r, s)) => p.equals(r) && q.equals(s),
            (Conj::AtMost(p, q), Conj::AtMost(r, s)) => p.equals(r) && q.equals(s),
            (Conj::SamePlace(a, b), Conj::SamePlace(c, d)) => *a == *c && *b == *d,
            (Conj::OtherPlace(a, b), Conj::OtherPlace(c, d)) => *a == *c && *b == *d,
            (Conj::Written(x), Conj::Written(y)) => *x == *y,
            (Conj::Unwritten(x), Conj::Unwritten(y)) => *x == *y,
            (Conj::Quotient(x, p, q), Conj::Quotient(y, r, s)) => {
                *x == *y && p.equals(r) && q.equals(s)
            }
            _ => false,
        }
    }
}

impl Drop for Content {
    fn drop(self) {
        match self {
            Content::Unwritten | Content::Word(_) | Content::Place(_) | Content::Cell(_) => {}
        }
    }
}

impl Drop for Conj {
    fn drop(self) {
        match self {
            Conj::Equal(_)
            | Conj::Unequal(_)
            | Conj::Less(_, _)
            | Conj::AtMost(_, _)
            | Conj::SamePlace(_, _)
            | Conj::OtherPlace(_, _)
            | Conj::Written(_)
            | Conj::Unwritten(_)
            | Conj::Quotient(_, _, _) => {}
        }
    }
}
