ghost use Rattle.std.specs.Prelude.{◌≡◌, List, [], ◌∷◌, ◌++◌};
ghost use Rattle.std.specs.Borrow.{ftrue};

use std::marker::{Model, PhantomData};

/// Items in order. A clause reads them as `items`. It has no bytes, so that only clauses tie it to what is done: a type that
/// keeps one says beside it what it shows.
#[derive(Drop)]
pub struct History<T> {
    of: PhantomData<T>,
    pub ghost items: { List T },
}

impl<T> Model for History<T> {
    ghost also_owns = { λ _. ftrue };
}

impl<T> History<T> {
    /// Without an item.
    pub fn new() -> History<T>
        ensures { result.items ≡ [] }
    {
        History { of: PhantomData }
    }

    /// With one item more.
    pub fn and(&self, item: &T) -> History<T>
        ensures { result.items ≡ self.now.items ++ item.now ∷ [] }
    {
        History { of: PhantomData }
    }

    /// Gets these items more, in order.
    pub fn add(&mut self, items: &[T])
        ensures { self.new.items ≡ self.old.items ++ items.now }
    {
        for item in items {
            *self = self.and(item);
        }
    }
}
