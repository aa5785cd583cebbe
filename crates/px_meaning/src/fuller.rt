ghost use Rattle.px_base.specs.declared.trace.Mark.{Mark};
ghost use Rattle.px_meaning.specs.Fuller.{Rest};

/// A meaning in which what isn't understood has executions too. Contracts see what may come of it, and no code can ask it.
pub trait Fuller {
    /// What may come of a call that has come to what isn't understood.
    ghost rest: { Rest Mark };
}
