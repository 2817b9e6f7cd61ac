// The variables as they are numbered.
ghost use Rattle.std.specs.Prelude.{◌≡◌, true, length, IfOk};
ghost use Rattle.problems.specs.Outlines.{outline};
ghost use Rattle.variables.specs.Rules.{is_order};
ghost use Rattle.orders.specs.Orders.{numbered};

use problems::shape::Shape;
use std::alloc::{AllocError, Global};

// 0, 1, 2 and so on.
pub fn natural(heap: Global, shape: &Shape) -> Result<Vec<u8>, AllocError>
    ensures { IfOk result (λ v. (v.items ≡ numbered (length (outline shape.now).sizes))
        × (is_order (length (outline shape.now).sizes) v.items ≡ true)) }
{
    let count = shape.sizes().len() as u8;
    (0..count).collect(heap)
}
