// The record of a table: a function's, in an area of the greatest length at most, or a message's, in one of any length.
ghost use Rattle.std.specs.Prelude.{◌≡◌, ◌≤◌};
ghost use Rattle.variables.specs.Records.{scope_of};
ghost use Rattle.problems.specs.Records.{placed_of};

pub use crate::plain::TableRecord;
use variables::scope::Scope;

// How many cells an area has at most.
pub const MOST_CELLS: usize = 16384;
// The origin of a function that was entered: after every bucket.
pub const ENTERED: u8 = 33;
// The last cell of all that can be counted.
pub const LAST_CELL: usize = usize::MAX;

pub type FunctionRecord = TableRecord<MOST_CELLS>;

pub type MessageRecord = TableRecord<LAST_CELL>;

impl<const END: usize> TableRecord<END> {
    fn new(scope: Scope, origin: u8, start: usize) -> TableRecord<END>
        requires { start ≤ END }
        ensures { placed_of result ≡ record { scope = scope_of scope; origin = origin; start = start } }
    {
        TableRecord {
            scope,
            origin,
            start,
        }
    }

    pub fn scope(&self) -> Scope
        ensures { result ≡ self.now.scope }
    {
        self.scope
    }

    // The bucket that a message came from; past every bucket for an entered function.
    pub fn origin(&self) -> u8
        ensures { result ≡ (placed_of self.now).origin }
    {
        self.origin
    }

    // The cell of the area at which the table starts.
    pub fn start(&self) -> usize
        ensures { result ≡ (placed_of self.now).start }
    {
        self.start
    }
}

impl TableRecord<MOST_CELLS> {
    // The record of an entered function, written whole.
    pub(crate) fn entered(scope: Scope, start: usize) -> FunctionRecord
        requires { start ≤ 16384 }
        ensures { placed_of result ≡ record { scope = scope_of scope; origin = 33; start = start } }
    {
        TableRecord::new(scope, ENTERED, start)
    }
}

impl TableRecord<LAST_CELL> {
    // The record of a message, written whole.
    pub fn message(scope: Scope, origin: u8, start: usize) -> MessageRecord
        ensures { placed_of result ≡ record { scope = scope_of scope; origin = origin; start = start } }
    {
        TableRecord::new(scope, origin, start)
    }
}

// A function's record among those of messages.
impl From<FunctionRecord> for MessageRecord {
    ghost from_gives = { λ f r. placed_of r ≡ placed_of f };

    fn from(function: FunctionRecord) -> MessageRecord {
        TableRecord::new(function.scope, function.origin, function.start)
    }
}
