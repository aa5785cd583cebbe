ghost use Rattle.px_reading.specs.Laws.{OneReading, SomeReading};

/// A source has one reading or one first fault, and not both.
pub fn one_file()
    ensures { OneReading }
{}

/// A source has a reading or a fault.
pub fn some_file()
    ensures { SomeReading }
{}
