ghost use Rattle.px_solver.specs.Laws.{RefutedHaveNoModel, RefutedStays, FoundModelsFit, OneDecision, OnePlainModel};

/// No valuation that fits makes all conjuncts of a refuted list true, whatever the kinds of the domains.
pub fn refuted_have_no_model()
    ensures { RefutedHaveNoModel }
{}

/// A refuted list stays refuted where variables, conjuncts or kinds are added, in whatever order conjuncts stand and
/// however often.
pub fn refuted_stays()
    ensures { RefutedStays }
{}

/// A model that is found fits the variables, has words of 32 bits and makes all conjuncts true.
pub fn found_models_fit()
    ensures { FoundModelsFit }
{}

/// What is decided of a list of conjuncts is one decision.
pub fn one_decision()
    ensures { OneDecision }
{}

/// The least model of plain conjuncts, which `px_plain::sat` answers, is one list of values.
pub fn one_plain_model()
    ensures { OnePlainModel }
{}
