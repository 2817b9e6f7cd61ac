// Where a search is.
ghost use Rattle.std.specs.Prelude.{◌≡◌, map};
ghost use Rattle.std.specs.Option.{option_map};
ghost use Rattle.variables.specs.declared.plain.Order.{Order as OrderRecord};
ghost use Rattle.variables.specs.Assignments.{of};
ghost use Rattle.problems.specs.Outlines.{outline};
ghost use Rattle.variables.specs.Records.{order_of, values_of};
ghost use Rattle.search.specs.Searches.{start, ended, size_at};
ghost use Rattle.search.specs.Places.{spot_of, Backs, Settles};

pub use crate::plain::Place;
use problems::shape::Shape;
use variables::prefix::Prefix;
use variables::setting::Setting;

impl Place {
    // The empty prefix, value 0 next, nothing found.
    pub fn start() -> Place
        ensures { (order : OrderRecord) → spot_of order result ≡ start }
    {
        Place {
            prefix: Prefix::empty(),
            next: 0,
            incumbent: None,
        }
    }

    // Whether the values of the first variable are used up.
    pub fn ended(&self, shape: &Shape) -> bool
        ensures { result ≡ ended (outline shape.now).sizes (outline shape.now).order (spot_of shape.now.order self.now) }
    {
        let given = self.prefix.len().min(shape.along().variables().len());
        given == 0 && self.next == size_at(shape, 0)
    }

    // The best full setting so far.
    pub fn incumbent(&self) -> Option<Setting>
        ensures { (order : OrderRecord) → option_map (λ s. map (of (values_of s)) (order_of order)) result ≡ (spot_of order self.now).incumbent }
    {
        self.incumbent
    }

    // The last value is given up for the one after it; where a variable's values are used up, back to the variable before it.
    pub(crate) fn back(&mut self, shape: &Shape)
        ensures { Backs shape.now.order shape.now.sizes self.old self.new }
    {
        if let Some(value) = self.prefix.pop(shape.along()) {
            self.next = settle(&mut self.prefix, value.saturating_add(1), shape);
        }
    }
}

// Backs up while the value to try next is past its domain; answers the value that is then next.
fn settle(prefix: &mut Prefix, first: u8, shape: &Shape) -> u8
    ensures { Settles shape.now.order shape.now.sizes prefix.old first prefix.new result }
{
    let mut next = first;
    while next == size_at(shape, prefix.len()) {
        let Some(value) = prefix.pop(shape.along()) else {
            break;
        };
        next = value.saturating_add(1);
    }
    next
}

// The domain size of the variable at a depth of the order.
fn size_at(shape: &Shape, depth: usize) -> u8
    ensures { result ≡ size_at (outline shape.now).sizes (outline shape.now).order depth }
{
    let variable = shape.along().variables().get(depth).copied();
    shape.domains().size(variable.unwrap_or(0))
}
