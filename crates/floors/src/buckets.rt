// Where functions lie: the bucket of a function is the place of its latest variable along the order.
ghost use Rattle.std.specs.Prelude.{◌≡◌, ℕ, ◌<◌, map, length, slice_index};
ghost use Rattle.costs.specs.Structures.{total};
ghost use Rattle.variables.specs.Assignments.{of};
ghost use Rattle.variables.specs.Records.{order_of, scope_of, sizes_of, values_of};
ghost use Rattle.problems.specs.Records.{held, nth, placed_of};
ghost use Rattle.floors.specs.ByNumber.{place_from, bucket_of};
ghost use Rattle.floors.specs.Sources.{bucket_in, picked};

use crate::plain::Places;
use costs::Cost;
use problems::records::TableRecord;
use variables::order::Order;
use variables::scope::Scope;
use variables::setting::Setting;
use variables::sizes::Sizes;

// The place of a variable along the order, from 1; 0 for one that it does not name.
pub fn place(order: &Order, variable: u8) -> u8
    ensures { result ≡ place_from 1 (order_of order.now) variable }
{
    for (k, v) in order.variables().iter().enumerate() {
        if *v == variable {
            return (k + 1) as u8;
        }
    }
    0
}

// The bucket of a scope: the place of its latest variable, 0 where it is empty.
pub fn bucket(order: &Order, scope: &Scope) -> u8
    ensures { result ≡ bucket_of (order_of order.now) (scope_of scope.now) }
{
    let mut latest = 0u8;
    for v in scope.variables() {
        latest = latest.max(place(order, *v));
    }
    latest
}

impl<const N: usize> Places<N> {
    pub fn none() -> Places<N>
        ensures { (k : ℕ) → slice_index result.places k ≡ 0 }
    {
        Places { places: [0; N] }
    }

    // The buckets of records.
    pub fn of_records<const END: usize>(order: &Order, records: &[TableRecord<END>]) -> Places<N>
        ensures { (k : ℕ) → k < N → k < length records.now → slice_index result.places k ≡ bucket_in (order_of order.entry.now) (nth (map placed_of records.entry.now) k) }
    {
        let mut places = [0; N];
        for (k, record) in records.iter().enumerate() {
            if k < N {
                places[k] = bucket(order, &record.scope());
            }
        }
        Places { places }
    }

    // What the records whose noted place is at most `last` cost together at a setting.
    pub fn cost_up_to<C: Cost, const END: usize>(
        &self,
        last: usize,
        records: &[TableRecord<END>],
        sizes: &Sizes,
        setting: &Setting,
        area: &[C],
    ) -> C
        ensures { result ≡ total C.Cost.structure (map (held C.Cost.structure (sizes_of sizes.now) area.now (of (values_of setting.now)))
            (picked self.now.places last 0 (map placed_of records.now))) }
    {
        let mut sum = C::neutral();
        for (k, record) in records.iter().enumerate() {
            let place = self.places.get(k).copied().unwrap_or(0);
            if place as usize <= last {
                sum = sum.combine(record.cost(sizes, setting, area));
            }
        }
        sum
    }
}
