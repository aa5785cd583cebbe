use px_terms::Value;

/// How a statement ends, where it isn't in an error (C17 6.8.6).
#[derive(Clone, Copy)]
pub enum Flow {
    /// On with what comes after it.
    Falls,
    Breaks,
    Continues,
    /// The value is `Unwritten` where there is none.
    Returns(Value),
}
