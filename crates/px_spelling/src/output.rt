ghost use Rattle.std.specs.Prelude.{◌≡◌, ◌++◌};

/// A way to put bytes, one after another, to a target of its kind. It is given all bytes that are put, and what became of
/// them is asked of it in the end: so nothing that puts bytes stops where the target can't take them.
pub trait Output {
    ghost use Rattle.std.specs.Prelude.{List, ℕ};

    /// Where the bytes go.
    type Target;

    // all bytes that were put, in order
    ghost written: { Self → List ℕ };

    // from a target as it was, this one came by what was put
    ghost reaches: { Self.Target → Self → Self.Target → Type 0 };

    /// Puts these bytes after those before.
    fn put(&mut self, target: &mut Self::Target, bytes: &[u8])
        ensures written { written self.new ≡ written self.old ++ bytes.now }
        ensures reached { (from : Self.Target) → reaches from self.old target.old → reaches from self.new target.new };
}
