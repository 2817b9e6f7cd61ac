// Costs of which the greater counts.
ghost use Rattle.costs.specs.Kinds.{worst};
ghost use Rattle.std.proofs.Common.{rules};

use crate::cost::Cost;

impl Cost for u16 {
    ghost structure = { worst };

    ghost lawful = { Prim.search rules };

    fn neutral() -> u16 {
        0
    }

    fn combine(self, other: u16) -> u16 {
        self.max(other)
    }

    fn is_at_most(self, other: u16) -> bool {
        self <= other
    }
}
