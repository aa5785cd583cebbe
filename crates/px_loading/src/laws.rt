ghost use Rattle.px_loading.specs.Order.{LeftInOrder};

/// A law: what the program of files leaves out stands in the order of its places.
pub fn left_in_order()
    ensures { LeftInOrder }
{}
