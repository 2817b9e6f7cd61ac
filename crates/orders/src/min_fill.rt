// Min-fill: eliminate what joins the fewest pairs, again and again; the order is the reverse.
ghost use Rattle.std.specs.Prelude.{◌≡◌, true, length, IfOk};
ghost use Rattle.problems.specs.Outlines.{outline};
ghost use Rattle.variables.specs.Rules.{is_order};
ghost use Rattle.orders.specs.Orders.{numbered, eliminated, min_fill};
ghost use Rattle.orders.specs.Cliques.{scopes};

use crate::elimination::Elimination;
use problems::shape::Shape;
use std::alloc::{AllocError, Global};

// The variables as they are eliminated.
// Not a chain: its closure would change the elimination, and of that a proof knows nothing afterwards.
fn eliminations(heap: Global, shape: &Shape) -> Result<Vec<u8>, AllocError>
    ensures { IfOk result (λ v. v.items ≡ eliminated (length (outline shape.now).sizes) (scopes (outline shape.now).functions)
        (numbered (length (outline shape.now).sizes))) }
{
    let mut elimination = Elimination::of(heap, shape)?;
    let mut gone = Vec::new(heap);
    for _ in 0..shape.sizes().len() {
        let v = elimination.eliminate()?;
        gone.push(v)?;
    }
    Ok(gone)
}

// The reverse of the elimination.
pub fn min_fill(heap: Global, shape: &Shape) -> Result<Vec<u8>, AllocError>
    ensures { IfOk result (λ v. (v.items ≡ min_fill (outline shape.now))
        × (is_order (length (outline shape.now).sizes) v.items ≡ true)) }
{
    let mut order = eliminations(heap, shape)?;
    order.reverse();
    Ok(order)
}
