ghost use Rattle.px_keep.specs.Laws.{OneReading, KeptIsRead, KeptIsHonest, ReusedTables};

/// Bytes have one list of items or one place at which they are bad, and not both.
pub fn one_reading()
    ensures { OneReading }
{}

/// What is read in the bytes of items is these items, or memory ran out.
pub fn kept_is_read()
    ensures { KeptIsRead }
{}

/// What keeps a program gives each job its own table, or none.
pub fn kept_is_honest()
    ensures { KeptIsHonest }
{}

/// What is found with the help of items is certified, by the word of the first good ones.
pub fn reused_tables()
    ensures { ReusedTables }
{}
