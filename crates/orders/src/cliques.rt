// Cliques: groups of variables that are joined with one another.
ghost use Rattle.std.specs.Prelude.{◌≡◌, map, IfOk, vec_items};
ghost use Rattle.problems.specs.Outlines.{outline};
ghost use Rattle.variables.specs.Records.{scope_of};
ghost use Rattle.orders.specs.Cliques.{scopes};

use problems::functions::FunctionRecord;
use problems::shape::Shape;
use std::alloc::{AllocError, Global};

// The variables of a function.
fn scope(heap: Global, function: &FunctionRecord) -> Result<Vec<u8>, AllocError>
    ensures { IfOk result (λ us. us.items ≡ scope_of function.now.scope) }
{
    Vec::from_slice(heap, function.scope().variables())
}

// The scopes of a job's functions.
pub(crate) fn scopes(heap: Global, shape: &Shape) -> Result<Vec<Vec<u8>>, AllocError>
    ensures { IfOk result (λ cs. map vec_items cs.items ≡ scopes (outline shape.now).functions) }
{
    let mut all = Vec::new(heap);
    for function in shape.functions() {
        all.push(scope(heap, function)?)?;
    }
    Ok(all)
}
