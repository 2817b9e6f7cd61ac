// What a job is apart from its cells.
ghost use Rattle.std.specs.Prelude.{◌≡◌, ◌≤◌, true, length};
ghost use Rattle.variables.specs.Records.{sizes_of, order_of};
ghost use Rattle.problems.specs.Records.{placed, laid_from, all_proper};
ghost use Rattle.variables.specs.Rules.{no_order_or};

use crate::functions::Functions;
pub use crate::records::MOST_CELLS;
use variables::order::Order;
use variables::sizes::Sizes;

// The variables, the functions with their tables' places, the order if there is one yet, and the cells up to the tables' end.
#[derive(Clone, Copy)]
pub struct Shape {
    pub(crate) sizes: Sizes,
    pub(crate) order: Order,
    pub(crate) functions: Functions,
    pub(crate) used: usize,
    ghost laid: { laid_from (sizes_of sizes) 2 (placed functions) used ≡ true },
    ghost scoped: { all_proper (length (sizes_of sizes)) (placed functions) ≡ true },
    ghost ordered: { no_order_or (length (sizes_of sizes)) (order_of order) ≡ true },
    ghost low: { used ≤ 16384 },
}
