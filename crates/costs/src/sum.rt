// Costs that add up, and stop at the greatest number of 32 bits.
ghost use Rattle.costs.specs.Kinds.{sum};
ghost use Rattle.std.proofs.Common.{rules};

use crate::cost::Cost;

impl Cost for u32 {
    ghost structure = { sum };

    ghost lawful = { Prim.search rules };

    fn neutral() -> u32 {
        0
    }

    fn combine(self, other: u32) -> u32 {
        self.saturating_add(other)
    }

    fn is_at_most(self, other: u32) -> bool {
        self <= other
    }
}
