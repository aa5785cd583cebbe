ghost use Rattle.px_pool.specs.LinkLaws.{NewLinksAreInStep, TalksFollow, ExchangesKeepStep, WordsAreOfPairs, FramesAreCounted, ExchangesGiveOneFrame, FramesAreGiven};
ghost use Rattle.px_pool.specs.Laws.{OneOutcome, AnswersAreOneFrame};

use px_pieces::Honesty;

/// A link over which nothing passed is in step.
pub fn new_links_are_in_step()
    ensures { NewLinksAreInStep }
{}

/// Where no call was made nothing passed, and what passes one after another passes as one.
pub fn talks_follow()
    ensures { TalksFollow }
{}

/// Where one frame is sent and one is given over a link that is in step, it is in step again, and the two have the same
/// place among the frames.
pub fn exchanges_keep_step()
    ensures { ExchangesKeepStep }
{}

/// The word of a link holds of the job and the table in two frames that have the same place.
pub fn words_are_of_pairs<H: Honesty>()
    ensures { WordsAreOfPairs H.says }
{}

/// How many whole frames bytes begin with is one number, and more bytes never lower it.
pub fn frames_are_counted()
    ensures { FramesAreCounted }
{}

/// Where one frame is sent and one is given over a link that is in step, it has given exactly one whole frame more.
pub fn exchanges_give_one_frame()
    ensures { ExchangesGiveOneFrame }
{}

/// What a link in step gave at least: nothing that passes takes a whole frame away, and an exchange gives one more.
pub fn frames_are_given()
    ensures { FramesAreGiven }
{}

/// What passed in an exchange shows one cause at most, and none where it gives a table.
pub fn one_outcome()
    ensures { OneOutcome }
{}

/// An exchange that gives a table leaves exactly one whole frame more that the link has given.
pub fn answers_are_one_frame()
    ensures { AnswersAreOneFrame }
{}
