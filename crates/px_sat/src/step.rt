use px_cnf::Literal;

// A literal that is true: it was taken, or the clause at this place forced it.
#[derive(Clone, Copy)]
pub(crate) struct Step {
    pub(crate) literal: Literal,
    pub(crate) reason: Option<usize>,
}
