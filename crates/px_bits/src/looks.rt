/// What the bits of conjuncts say of them.
#[derive(Clone, Copy, Debug, PartialEq, Eq)]
pub enum Look {
    /// No words make all of them true.
    Refuted,
    /// Some words do.
    Met,
    /// They have no clauses, or the search over these was given up.
    Open,
}
