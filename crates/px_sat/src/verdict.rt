use px_cnf::Literal;
use px_terms::Items;

/// What a search comes to.
#[derive(Drop)]
pub enum Verdict {
    /// A value for each variable, by its number. They make every clause true.
    Met(Vec<bool>),
    /// A log of the search whose last clause is empty: no values make every clause true.
    Unmet(Vec<Items<Literal>>),
    /// A log of the search with as many clauses as were allowed, none of them empty.
    Spent(Vec<Items<Literal>>),
}
