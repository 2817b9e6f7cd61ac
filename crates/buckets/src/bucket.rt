// One bucket at a time: its messages, counted or written.
ghost use Rattle.std.specs.Prelude.{◌≡◌, ℕ, ◌+◌, ◌≤◌, List, ◌++◌, map, length};
ghost use Rattle.variables.specs.Records.{sizes_of, order_of};
ghost use Rattle.buckets.specs.Listed.{listed};
ghost use Rattle.buckets.specs.Made.{scopes_from, all_cells};
ghost use Rattle.buckets.specs.Processed.{scopes_of, Ready, Roomy, Processed};

use crate::message::others;
use crate::parting::part;
use crate::plain::{Plan, Records};
use crate::table::write;
use costs::Cost;
use problems::records::MessageRecord;

// Files the messages of the bucket of the p-th variable from 0, as if their tables stood nowhere, and answers their cells.
pub(crate) fn count_bucket(plan: &Plan, records: &mut Records, p: usize) -> usize
    requires { Ready (sizes_of plan.now.sizes) (order_of plan.now.order) plan.now.width p (listed records.old) }
    ensures records { listed records.new ≡ listed records.old
        ++ map (λ (s : List ℕ). record { scope = s; origin = p + 1; start = 0 }) (scopes_from (order_of plan.now.order) plan.now.width (p + 1) (scopes_of (listed records.old))) }
    ensures cells { result ≡ all_cells (sizes_of plan.now.sizes) (scopes_from (order_of plan.now.order) plan.now.width (p + 1) (scopes_of (listed records.old))) }
    ensures few { result ≤ 402653184 }
{
    let number = (p + 1) as u8;
    let variable = plan.order.variables()[p];
    let mut waiting = records.lying(&plan.order, number);
    let mut cells = 0;
    while waiting.len() > 0 {
        let parted = part(&waiting, &plan.order, plan.width);
        let scope = others(&plan.order, &plan.sizes, &parted.members, variable);
        records.push(MessageRecord::message(scope, number, 0));
        cells += scope.table_cells(&plan.sizes);
        waiting = parted.rest;
    }
    cells
}

// Files the messages of the bucket of the p-th variable from 0 and writes their tables from `end` on; answers where they end.
// Not one function with the counting above and a closure for the step: it would lend records and area through the closure, and say both contracts again.
pub(crate) fn fill_bucket<C: Cost>(
    plan: &Plan,
    records: &mut Records,
    p: usize,
    area: &mut [C],
    end: usize,
) -> usize
    requires ready { Ready (sizes_of plan.now.sizes) (order_of plan.now.order) plan.now.width p (listed records.old) }
    requires roomy { Roomy (sizes_of plan.now.sizes) (order_of plan.now.order) plan.now.width p (listed records.old) end (length area.old) }
    ensures { Processed C.Cost.structure (sizes_of plan.now.sizes) (order_of plan.now.order) plan.now.width p (listed records.old) (listed records.new) area.old area.new end result }
{
    let number = (p + 1) as u8;
    let variable = plan.order.variables()[p];
    let mut waiting = records.lying(&plan.order, number);
    let mut at = end;
    while waiting.len() > 0 {
        let parted = part(&waiting, &plan.order, plan.width);
        let scope = others(&plan.order, &plan.sizes, &parted.members, variable);
        write(&parted.members, &plan.sizes, &scope, variable, area, at);
        records.push(MessageRecord::message(scope, number, at));
        at += scope.table_cells(&plan.sizes);
        waiting = parted.rest;
    }
    at
}
