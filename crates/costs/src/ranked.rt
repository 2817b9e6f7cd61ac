// Costs of two ranks: the first number decides, the second breaks ties.
ghost use Rattle.std.specs.Prelude.{◌≡◌};
ghost use Rattle.costs.specs.Kinds.{ranked, ranked_of};
ghost use Rattle.std.proofs.Common.{rules};

use crate::cost::Cost;
use crate::pair::Pair;

const FULL: u16 = u16::MAX;

impl Pair {
    // The ranked cost that two numbers make: a full first number fills the second.
    pub fn ranked(first: u16, second: u16) -> Pair
        ensures { result ≡ ranked_of first second }
    {
        if first == FULL {
            Pair {
                first,
                second: FULL,
            }
        } else {
            Pair { first, second }
        }
    }
}

impl Cost for Pair {
    ghost structure = { ranked };

    ghost lawful = { Prim.search rules };

    fn neutral() -> Pair {
        Pair {
            first: 0,
            second: 0,
        }
    }

    fn combine(self, other: Pair) -> Pair {
        Pair::ranked(
            self.first.saturating_add(other.first),
            self.second.saturating_add(other.second),
        )
    }

    fn is_at_most(self, other: Pair) -> bool {
        Pair::ranked(self.first, self.second) <= Pair::ranked(other.first, other.second)
    }
}
