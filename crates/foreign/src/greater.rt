// Greater: a source made of two others, of whose floors the greater counts.
ghost use Rattle.std.specs.Prelude.{◌≡◌};
ghost use Rattle.foreign.specs.Sources.{greater_of, greater_rules};
ghost use Rattle.foreign.specs.Greaters.{greater_sound};

pub use crate::plain::Greater;
use costs::Cost;
use floors::source::FloorSource;
use problems::shape::Shape;
use variables::prefix::Prefix;

// The greater of two costs.
fn greater<C: Cost>(a: C, b: C) -> C
    ensures { result ≡ greater_of C.Cost.structure a b }
{
    if a.is_at_most(b) { b } else { a }
}

impl<C: Cost, A: FloorSource<C>, B: FloorSource<C>> FloorSource<C> for Greater<A, B> {
    ghost rules = { greater_rules C.Cost.structure A.FloorSource.rules B.FloorSource.rules };

    ghost sound = { greater_sound C.Cost.structure A.FloorSource.rules B.FloorSource.rules A.FloorSource.sound B.FloorSource.sound };

    fn suits(&self, shape: &Shape) -> bool {
        self.first.suits(shape) && self.second.suits(shape)
    }

    fn room(&self, shape: &Shape) -> usize {
        self.first
            .room(shape)
            .saturating_add(self.second.room(shape))
    }

    // The first writes its cells, and the second behind them.
    fn fill(&mut self, shape: &Shape, area: &mut [C], at: usize) {
        let behind = at + self.first.room(shape);
        self.first.fill(shape, area, at);
        self.second.fill(shape, area, behind);
    }

    fn floor(&self, shape: &Shape, prefix: &Prefix, area: &[C], at: usize) -> C {
        let behind = at.saturating_add(self.first.room(shape));
        let first = self.first.floor(shape, prefix, area, at);
        greater(first, self.second.floor(shape, prefix, area, behind))
    }
}
