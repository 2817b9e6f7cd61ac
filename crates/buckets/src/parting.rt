// Mini-buckets, one after the other: each takes what it can from the functions that wait.
ghost use Rattle.std.specs.Prelude.{◌≡◌, ℕ, ◌<◌, false, [], slice_index_or};
ghost use Rattle.variables.specs.Records.{order_of, scope_of};
ghost use Rattle.buckets.specs.Listed.{listed};
ghost use Rattle.buckets.specs.Joining.{names, joins, taken, passed};

use crate::plain::{Named, Parted, Records};
use variables::order::Order;
use variables::scope::Scope;

// Whether a function of that scope opens the mini-bucket or leaves it within the width.
fn may_join(order: &Order, width: u8, members: &Records, named: &Named, scope: &Scope) -> bool
    requires { (v : ℕ) → v < 32 → slice_index_or named.now.named v false ≡ names (listed members.now) v }
    ensures { result ≡ joins (order_of order.now) width (listed members.now) (scope_of scope.now) }
{
    if members.len() == 0 {
        return true;
    }
    let mut both = *named;
    both.add(scope);
    both.count(order) <= width as usize
}

// The next mini-bucket.
pub(crate) fn part(waiting: &Records, order: &Order, width: u8) -> Parted
    ensures members { listed result.members ≡ taken (order_of order.now) width [] (listed waiting.now) }
    ensures rest { listed result.rest ≡ passed (order_of order.now) width [] (listed waiting.now) }
{
    let mut members = Records::none();
    let mut rest = Records::none();
    let mut named = Named::none();
    for function in waiting.as_slice() {
        let scope = function.scope();
        if may_join(order, width, &members, &named, &scope) {
            named.add(&scope);
            members.push(*function);
        } else {
            rest.push(*function);
        }
    }
    Parted { members, rest }
}
