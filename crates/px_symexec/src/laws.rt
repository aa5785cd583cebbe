ghost use Rattle.px_symexec.specs.Laws.{ActsSuffice, OneTable, PrefixesAreCases, PrefixesAreShown, PrefixesNext, RefutedStaysOut, TablesHaveNoTicket};
ghost use Rattle.px_symexec.specs.One.{OneProcess};
ghost use Rattle.px_symexec.specs.WorkedOne.{WorkedOne};
ghost use Rattle.px_symexec.specs.WorkedTables.{WorkedTables};

/// The prefixes that go on from a place of a path are those that its listed ways lead to.
pub fn prefixes_next()
    ensures { PrefixesNext }
{}

/// More acts than are left to a path change nothing: no prefix is dead for want of acts.
pub fn acts_suffice()
    ensures { ActsSuffice }
{}

/// The prefixes of a job are those of all lists of choices that are prefixes, in lexicographic order.
pub fn prefixes_are_cases()
    ensures { PrefixesAreCases }
{}

/// After what is reached and refuted no prefix is live, so a search need not go on there.
pub fn refuted_stays_out()
    ensures { RefutedStaysOut }
{}

/// A job has one table, and one number of live prefixes.
pub fn one_table()
    ensures { OneTable }
{}

/// The table of a job doesn't depend on its ticket.
pub fn tables_have_no_ticket()
    ensures { TablesHaveNoTicket }
{}

/// The table of a job shows each live prefix that ends, or its last drop says that a budget is spent.
pub fn prefixes_are_shown()
    ensures { PrefixesAreShown }
{}

/// The tables that one process makes of a program are determined.
pub fn one_process()
    ensures { OneProcess }
{}

/// The tables of some jobs, worked by hand.
pub fn worked_tables()
    ensures { WorkedTables }
{}

/// The tables of two procedures, worked by hand.
pub fn worked_one()
    ensures { WorkedOne }
{}
