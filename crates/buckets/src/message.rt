// The scope of a message.
ghost use Rattle.std.specs.Prelude.{◌≡◌, ℕ, ◌<◌, true, false, not, length, ◌==◌, slice_index_or};
ghost use Rattle.variables.specs.Records.{sizes_of, order_of, scope_of};
ghost use Rattle.variables.specs.Rules.{proper};
ghost use Rattle.floors.specs.Settings.{kept};
ghost use Rattle.buckets.specs.Listed.{listed};
ghost use Rattle.buckets.specs.Joining.{names};

use crate::plain::{Named, Records};
use variables::order::Order;
use variables::scope::Scope;
use variables::sizes::Sizes;

impl Records {
    // The variables of the functions.
    pub(crate) fn named(&self) -> Named
        ensures { (v : ℕ) → v < 32 → slice_index_or result.named v false ≡ names (listed self.now) v }
    {
        let mut named = Named::none();
        for function in self.as_slice() {
            named.add(&function.scope());
        }
        named
    }
}

// The variables of a mini-bucket but the bucket's own, along the order.
pub(crate) fn others(order: &Order, sizes: &Sizes, members: &Records, variable: u8) -> Scope
    requires { proper (length (sizes_of sizes.now)) (kept (λ u. not (u == variable)) (kept (names (listed members.now)) (order_of order.now))) ≡ true }
    ensures { scope_of result ≡ kept (λ u. not (u == variable)) (kept (names (listed members.now)) (order_of order.now)) }
{
    let mut named = members.named();
    named.remove(variable);
    let mut scope = Scope::none();
    for u in order.variables() {
        if named.has(*u) {
            let _ = scope.push(*u, sizes);
        }
    }
    scope
}
