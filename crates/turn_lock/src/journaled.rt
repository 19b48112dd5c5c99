//! What a value behind the turn tells.

ghost use Rattle.std.specs.Prelude.{◌≡◌, ◌^◌, ◌<◌, List, ◌++◌, length};
ghost use Rattle.tl_model.specs.declared.journal.Entry.{Entry};

/// A value with a list of entries, which meets a test under a part of the value that never changes.
pub trait Journaled {
    /// What of the value never changes, as clauses see it.
    ghost Fixed: { Type 0 };

    ghost entries: { Self → List Entry };

    ghost fixed: { Self → Fixed };

    /// The test.
    ghost meets: { Fixed → List Entry → Type 0 };

    /// How many entries there are. The list always meets the test.
    fn len(&self) -> u64
        ensures length { result ≡ length (entries self.now) }
        ensures few { length (entries self.now) < 2 ^ 62 }
        ensures meets { meets (fixed self.now) (entries self.now) };

    /// Each beginning of a list that meets the test meets it too.
    ghost fronts_meet: { (part : Fixed) (front rest : List Entry) → meets part (front ++ rest) → meets part front };
}
