use px_terms::{Conj, Items, Value};

/// A value for each variable, in their order.
pub type Values = Items<Value>;

/// A list of conjuncts, in order.
pub type Conjuncts = Items<Conj>;

/// What is decided of a list of conjuncts.
#[derive(Drop)]
pub enum Decision {
    /// Values that fit the variables and make all conjuncts true.
    Found(Values),
    /// No values do, or a domain rules the list out.
    Refuted,
    /// It isn't known whether some do. These conjuncts were too hard.
    Undecided(Conjuncts),
}
