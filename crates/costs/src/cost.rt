// The one thing that everything above knows of costs.
ghost use Rattle.std.specs.Prelude.{◌≡◌};
ghost use Rattle.costs.specs.Structures.{Structure, Lawful, cheaper};

pub trait Cost: Copy {
    ghost structure: { Structure Self };

    // The cost that changes no other.
    fn neutral() -> Self
        ensures { result ≡ structure.neutral };

    fn combine(self, other: Self) -> Self
        ensures { result ≡ structure.combined self other };

    fn is_at_most(self, other: Self) -> bool
        ensures { result ≡ structure.at_most self other };

    // At most, and not equal.
    fn is_cheaper(self, other: Self) -> bool
        ensures { result ≡ cheaper structure self other }
    {
        !other.is_at_most(self)
    }

    ghost lawful: { Lawful structure };
}
