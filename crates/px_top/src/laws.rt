ghost use Rattle.px_top.specs.Laws.{NoFalseAlarms, UnfailedChecksEndWhole};

use px_io::{Files, Sink, Source};
use px_pieces::Honesty;

/// A law: each bug that a run prints which ends with 0 or 1 is manifest in the program that the bytes of its files say, whatever
/// the word of the workers' links.
pub fn no_false_alarms<F: Files, I: Source, K: Sink, E: Sink, H: Honesty>()
    ensures { NoFalseAlarms H.says F.told F.count F.gives I.told I.count K.told K.count E.told E.count }
{}

/// A law: a check whose files, output and standard error counted no fault ends with 0 or 1 and has written the whole report
/// and the line after it, or
/// with 5 or 6 and has written the whole line that says why.
pub fn unfailed_checks_end_whole<F: Files, I: Source, K: Sink, E: Sink, H: Honesty>()
    ensures { UnfailedChecksEndWhole H.says F.told F.count F.gives I.told I.count K.told K.count E.told E.count }
{}
