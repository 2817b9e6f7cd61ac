// All buckets, from the last down: the messages counted, or made.
ghost use Rattle.std.specs.Prelude.{◌≡◌, ◌+◌, ◌&&◌, length, nat_le};
ghost use Rattle.std.specs.List.{list_all};
ghost use Rattle.variables.specs.Records.{sizes_of, order_of, scope_of};
ghost use Rattle.buckets.specs.Going.{Able, Spacious, Gone};
ghost use Rattle.buckets.specs.Listed.{listed};
ghost use Rattle.buckets.specs.Made.{scopes_made, all_cells};
ghost use Rattle.buckets.specs.Processed.{scopes_of};
ghost use Rattle.buckets.specs.Sources.{short};

use crate::bucket::{count_bucket, fill_bucket};
use crate::plain::{Made, Plan, Records};
use costs::Cost;
use problems::records::MessageRecord;

// How wide a mini-bucket is at most.
pub const MOST_WIDTH: u8 = 6;

// Whether no scope is longer than the width.
fn fits_width(records: &[MessageRecord], width: u8) -> bool
    ensures { result ≡ list_all (λ r. nat_le (length (scope_of r.scope)) width) records.now }
{
    records.iter().all(|record| record.scope().variables().len() <= width as usize)
}

// Whether the width is 1 to 6, and no scope is longer.
pub(crate) fn suits(width: u8, functions: &Records) -> bool
    ensures { result ≡ ((nat_le 1 width && nat_le width 6) && short width (scopes_of (listed functions.now))) }
{
    width >= 1 && width <= MOST_WIDTH && fits_width(functions.as_slice(), width)
}

// The cells of all messages.
pub(crate) fn count(plan: &Plan, functions: &Records) -> usize
    requires { Able (sizes_of plan.now.sizes) (order_of plan.now.order) plan.now.width (listed functions.now) }
    ensures { result ≡ all_cells (sizes_of plan.now.sizes) (scopes_made (order_of plan.now.order) plan.now.width (scopes_of (listed functions.now)) (length (order_of plan.now.order))) }
{
    let mut records = *functions;
    let mut cells = 0;
    // Not an iterator over the order: the bucket's number is what counts down here.
    for p in (0..plan.order.variables().len()).rev() {
        cells += count_bucket(plan, &mut records, p);
    }
    cells
}

// Makes all messages: writes their tables from `at` on.
pub(crate) fn make<C: Cost>(plan: &Plan, functions: &Records, area: &mut [C], at: usize) -> Made
    requires able { Able (sizes_of plan.now.sizes) (order_of plan.now.order) plan.now.width (listed functions.now) }
    requires spacious { Spacious (sizes_of plan.now.sizes) (order_of plan.now.order) plan.now.width (listed functions.now) at (length area.old) }
    ensures { Gone C.Cost.structure (sizes_of plan.now.sizes) (order_of plan.now.order) plan.now.width (listed functions.now) area.old at 0 (listed result.records) result.reach area.new
        (at + all_cells (sizes_of plan.now.sizes) (scopes_made (order_of plan.now.order) plan.now.width (scopes_of (listed functions.now)) (length (order_of plan.now.order)))) }
{
    let mut records = *functions;
    let mut reach = [0; 33];
    let mut end = at;
    let n = plan.order.variables().len();
    reach[n] = records.len();
    // Not an iterator over the order: the bucket's number is what counts down here.
    for p in (0..n).rev() {
        end = fill_bucket(plan, &mut records, p, area, end);
        reach[p] = records.len();
    }
    Made { records, reach }
}
