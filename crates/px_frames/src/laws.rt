ghost use Rattle.px_frames.specs.Cutting.{CutsDontMatter};

/// The messages that a feeder gives are the frames in the bytes, however the bytes are cut into pieces.
pub fn cuts_dont_matter()
    ensures { CutsDontMatter }
{}
