ghost use Rattle.px_gen.specs.WorkedSample.{WorkedSample};

/// A law: the first draws and the first procedures of one start, worked by hand.
pub fn worked_sample()
    ensures { WorkedSample }
{}
