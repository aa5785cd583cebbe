ghost use Rattle.px_explore.specs.Laws.{PathsArePrefixes, OneAnalysis, AnalysesHaveNoTicket, OwnDerive};

/// The paths of a job are its prefixes, each with the steps that its choices take.
pub fn paths_are_prefixes()
    ensures { PathsArePrefixes }
{}

/// A job has one analysis: its table and the derivations of its entries are determined.
pub fn one_analysis()
    ensures { OneAnalysis }
{}

/// The analysis of a job doesn't depend on its ticket.
pub fn analyses_have_no_ticket()
    ensures { AnalysesHaveNoTicket }
{}

/// The steps of an entry's own path derive it.
pub fn own_derive()
    ensures { OwnDerive }
{}
