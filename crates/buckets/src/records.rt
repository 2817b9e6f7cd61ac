// Records one after the other: functions that wait, that share a mini-bucket, or all there are.
ghost use Rattle.std.specs.Prelude.{◌≡◌, ◌<◌, ◌≤◌, [], ◌∷◌, ◌++◌, map, length};
ghost use Rattle.costs.specs.Structures.{total};
ghost use Rattle.problems.specs.Outlines.{outline};
ghost use Rattle.variables.specs.Assignments.{of};
ghost use Rattle.variables.specs.Records.{sizes_of, values_of, order_of};
ghost use Rattle.problems.specs.Records.{held, placed_of};
ghost use Rattle.floors.specs.Settings.{kept};
ghost use Rattle.buckets.specs.Listed.{listed, tabled};
ghost use Rattle.buckets.specs.Joining.{lies_at};

use crate::plain::Records;
use costs::Cost;
use floors::buckets::bucket;
use lists::ShortList;
use problems::costing::combined_cost;
use problems::records::MessageRecord;
use problems::shape::Shape;
use variables::order::Order;
use variables::scope::Scope;
use variables::setting::Setting;
use variables::sizes::Sizes;

impl Records {
    pub(crate) fn none() -> Records
        ensures { listed result ≡ [] }
    {
        Records {
            list: ShortList::none(MessageRecord::message(Scope::none(), 0, 0)),
        }
    }

    pub(crate) fn len(&self) -> usize
        ensures count { result ≡ length (listed self.now) }
        ensures few { result ≤ 384 }
    {
        self.list.len()
    }

    // The records in their order.
    pub(crate) fn as_slice(&self) -> &[MessageRecord]
        ensures records { map placed_of result.now ≡ listed self.now }
        ensures few { length result.now ≤ 384 }
    {
        self.list.as_slice()
    }

    // One record more.
    pub(crate) fn push(&mut self, function: MessageRecord)
        requires { length (listed self.old) < 384 }
        ensures { listed self.new ≡ listed self.old ++ tabled function ∷ [] }
    {
        let _ = self.list.push(function);
    }

    // The functions of a job.
    pub(crate) fn of(shape: &Shape) -> Records
        ensures { listed result ≡ (outline shape.now).functions }
    {
        let mut records = Records::none();
        for function in shape.functions() {
            records.push(MessageRecord::from(*function));
        }
        records
    }

    // Those that lie in a bucket.
    pub(crate) fn lying(&self, order: &Order, number: u8) -> Records
        ensures { listed result ≡ kept (lies_at (order_of order.now) number) (listed self.now) }
    {
        let mut lying = Records::none();
        for function in self.as_slice() {
            if bucket(order, &function.scope()) == number {
                lying.push(*function);
            }
        }
        lying
    }

    // What they cost together at a setting.
    pub(crate) fn cost<C: Cost>(&self, sizes: &Sizes, setting: &Setting, area: &[C]) -> C
        ensures { result ≡ total C.Cost.structure (map (held C.Cost.structure (sizes_of sizes.now) area.now (of (values_of setting.now))) (listed self.now)) }
    {
        combined_cost(self.as_slice(), sizes, setting, area)
    }
}
