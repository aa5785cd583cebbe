ghost use Rattle.px_order.specs.Laws.{RuledOutHaveNoModel};

/// What the rule rules out, no valuation makes true.
pub fn ruled_out_have_no_model()
    ensures { RuledOutHaveNoModel }
{}
