ghost use Rattle.px_bodies.specs.Functions.{NumbersDontMatter};

/// Whether a function keeps the typing rules doesn't depend on the numbers of block types and of names, nor
/// on its own.
pub fn numbers_dont_matter()
    ensures { NumbersDontMatter }
{}
