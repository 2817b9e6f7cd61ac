// Mini-bucket: the functions that lie in the prefix, combined with messages that stand for the others.
ghost use Rattle.std.specs.Prelude.{◌≡◌, ℕ, [], map, length, slice_index};
ghost use Rattle.std.specs.Option.{option_map};
ghost use Rattle.problems.specs.Records.{nth, placed_of};
ghost use Rattle.buckets.specs.Listed.{listed, tabled};
ghost use Rattle.buckets.specs.Made.{SameMessages};
ghost use Rattle.buckets.specs.Sources.{mini_bucket_rules, messages};
ghost use Rattle.buckets.specs.Sounds.{mini_bucket_sound};

pub use crate::plain::MiniBucket;
use crate::plain::{Made, Plan, Records};
use crate::processing::{count, make, suits};
use costs::Cost;
use floors::plain::Places;
use floors::source::FloorSource;
use problems::records::MessageRecord;
use problems::shape::Shape;
use variables::prefix::Prefix;

impl MiniBucket {
    // A source of that width, with nothing kept of a job yet.
    pub fn new(width: u8) -> MiniBucket
        ensures width { result.width ≡ width }
        ensures entered { result.entered ≡ 0 }
        ensures records { listed result.made.records ≡ [] }
        ensures reach { (p : ℕ) → slice_index result.made.reach p ≡ 0 }
        ensures buckets { (k : ℕ) → slice_index result.buckets.places k ≡ 0 }
    {
        MiniBucket {
            width,
            entered: 0,
            made: Made {
                records: Records::none(),
                reach: [0; 33],
            },
            buckets: Places::none(),
        }
    }

    // How many variables a mini-bucket has at most.
    pub fn width(&self) -> u8
        ensures { result ≡ self.now.width }
    {
        self.width
    }

    // The messages that are kept, in the order made.
    pub fn messages(&self) -> &[MessageRecord]
        ensures { map placed_of result.now ≡ messages self.now }
    {
        let records = self.made.records.as_slice();
        let entered = self.entered.min(records.len());
        &records[entered..]
    }

    // How many messages are kept.
    pub fn message_count(&self) -> usize
        ensures { result ≡ length (messages self.now) }
    {
        self.messages().len()
    }

    // A message by its number, in the order made.
    pub fn message(&self, number: usize) -> Option<MessageRecord>
        ensures { option_map tabled result ≡ nth (messages self.now) number }
    {
        self.messages().get(number).copied()
    }
}

// Buckets by number make the messages that eliminating one variable after the other makes.
pub fn same_messages<C>()
    ensures { SameMessages C }
{}

impl Plan {
    fn of(shape: &Shape, width: u8) -> Plan
        ensures sizes { result.sizes ≡ shape.now.sizes }
        ensures order { result.order ≡ shape.now.order }
        ensures width { result.width ≡ width }
    {
        Plan {
            sizes: shape.sizes(),
            order: shape.order(),
            width,
        }
    }
}

impl<C: Cost> FloorSource<C> for MiniBucket {
    ghost rules = { mini_bucket_rules C.Cost.structure };

    ghost sound = { mini_bucket_sound C.Cost.structure C.Cost.lawful };

    fn suits(&self, shape: &Shape) -> bool {
        suits(self.width, &Records::of(shape))
    }

    fn room(&self, shape: &Shape) -> usize {
        let functions = Records::of(shape);
        if suits(self.width, &functions) {
            count(&Plan::of(shape, self.width), &functions)
        } else {
            0
        }
    }

    fn fill(&mut self, shape: &Shape, area: &mut [C], at: usize) {
        let width = self.width;
        let plan = Plan::of(shape, width);
        let functions = Records::of(shape);
        let made = make(&plan, &functions, area, at);
        *self = MiniBucket {
            width,
            entered: functions.len(),
            made,
            buckets: Places::of_records(&plan.order, made.records.as_slice()),
        };
    }

    fn floor(&self, shape: &Shape, prefix: &Prefix, area: &[C], _at: usize) -> C {
        let len = prefix.len();
        let records = &self.made.records.as_slice()[..self.made.reach[len]];
        self.buckets
            .cost_up_to(len, records, shape.domains(), prefix.values(), area)
    }
}
