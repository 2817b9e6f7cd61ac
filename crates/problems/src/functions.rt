// Function records in the order of their numbers.
ghost use Rattle.std.specs.Prelude.{◌≡◌, []};
ghost use Rattle.problems.specs.Records.{placed};

pub use crate::records::{ENTERED, FunctionRecord};
use lists::ShortList;

// How many functions a job has at most.
pub const MOST_FUNCTIONS: usize = 64;

pub type Functions = ShortList<FunctionRecord, MOST_FUNCTIONS>;

// No functions yet; the blank stands in the slots until they are used.
// Not inlined: where the blank is known, every slot is written field by field, and close takes twice the time.
#[inline(never)]
pub(crate) fn no_functions(blank: FunctionRecord) -> Functions
    ensures { placed result ≡ [] }
{
    Functions::none(blank)
}
