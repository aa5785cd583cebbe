ghost use Rattle.px_spelling.specs.Laws.{WrittenIsRead, AreReadAgain, HoldersAreRead, PlacesAreRead};

use crate::Terms;

/// What is in range is read again as it was written, whatever follows it.
pub fn written_is_read()
    ensures { WrittenIsRead }
{}

/// So is what holds polynomials, in each spelling in which these are.
pub fn holders_are_read<S: Terms>(terms: &S)
    ensures { AreReadAgain (S.spelling terms.now) → HoldersAreRead (S.spelling terms.now) }
{}

/// So are polynomials that are spelled by their places in a list. The list of those that are mentioned has each once.
pub fn places_are_read()
    ensures { PlacesAreRead }
{}
