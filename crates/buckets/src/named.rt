// Sets of variables: those that the functions of a mini-bucket name.
ghost use Rattle.std.specs.Prelude.{◌≡◌, ℕ, ◌<◌, true, false, ◌||◌, count_by, slice_index_or, slice_set};
ghost use Rattle.variables.specs.Lists.{has};
ghost use Rattle.variables.specs.Records.{scope_of, order_of};

use crate::plain::Named;
use variables::order::Order;
use variables::scope::Scope;

impl Named {
    pub(crate) fn none() -> Named
        ensures { (v : ℕ) → slice_index_or result.named v false ≡ false }
    {
        Named { named: [false; 32] }
    }

    // Whether a variable is named; none past the last slot is.
    pub(crate) fn has(&self, variable: u8) -> bool
        ensures { result ≡ slice_index_or self.now.named variable false }
    {
        self.named.get(variable as usize).copied().unwrap_or(false)
    }

    // The variables of a scope are named too.
    pub(crate) fn add(&mut self, scope: &Scope)
        ensures { (v : ℕ) → v < 32 → slice_index_or self.new.named v false ≡ (slice_index_or self.old.named v false || has (scope_of scope.now) v) }
    {
        let mut named = self.named;
        for v in scope.variables() {
            let slot = *v as usize;
            if slot < named.len() {
                named[slot] = true;
            }
        }
        *self = Named { named };
    }

    // One variable is not named any more.
    pub(crate) fn remove(&mut self, variable: u8)
        ensures { self.new.named ≡ slice_set self.old.named variable false }
    {
        let slot = variable as usize;
        if slot < self.named.len() {
            self.named[slot] = false;
        }
    }

    // How many variables of the order are named.
    pub(crate) fn count(&self, order: &Order) -> usize
        ensures { result ≡ count_by (λ v. slice_index_or self.now.named v false) (order_of order.now) }
    {
        order.variables().iter().filter(|v| self.has(**v)).count()
    }
}
