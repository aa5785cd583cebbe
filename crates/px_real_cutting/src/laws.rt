ghost use Rattle.std.specs.Prelude.{◌≡◌, List, Result};
ghost use Rattle.px_base.specs.declared.trace.Site.{Site};
ghost use Rattle.px_real_cutting.specs.declared.roles.Mark.{Mark};
ghost use Rattle.px_real_cutting.specs.declared.cutting.Item.{Item};
ghost use Rattle.px_real_cutting.specs.Items.{IsCut};

/// Tokens are cut in one way.
pub fn one_cutting()
    ensures { (ts : List Mark) (a b : Result (List Item) Site) → IsCut ts a → IsCut ts b → a ≡ b }
{}

/// All tokens are cut in some way.
pub fn some_cutting()
    ensures { (ts : List Mark) → (r : Result (List Item) Site) × IsCut ts r }
{}
