ghost use Rattle.std.specs.Prelude.{◌≡◌};
ghost use Rattle.px_cnf.specs.Clauses.{negated};

/// A variable, or its negation.
#[derive(Clone, Copy, Debug, PartialEq, Eq)]
pub struct Literal {
    pub variable: u32,
    pub positive: bool,
}

impl Literal {
    /// The literal that is true where this one is false. Takes no memory.
    pub fn negated(self) -> Literal
        ensures { result ≡ negated self }
    {
        Literal {
            variable: self.variable,
            positive: !self.positive,
        }
    }
}
