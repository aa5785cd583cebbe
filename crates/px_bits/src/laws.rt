ghost use Rattle.px_bits.specs.Laws.{UndecidedAreAmong, NoWordsNoModel, RefutedLooks};

/// The conjuncts that a list is undecided for are among the list.
pub fn undecided_are_among()
    ensures { UndecidedAreAmong }
{}

/// Where no words make the conjuncts true that a list is undecided for, no valuation makes the list true.
pub fn no_words_no_model()
    ensures { NoWordsNoModel }
{}

/// A look that refutes the conjuncts that a list is undecided for refutes the list.
pub fn refuted_looks()
    ensures { RefutedLooks }
{}
