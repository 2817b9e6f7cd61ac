// One visit: the next value is tried.
ghost use Rattle.std.specs.Prelude.{◌≡◌, ◌≤◌, true, false, length};
ghost use Rattle.problems.specs.Outlines.{outline};
ghost use Rattle.variables.specs.Records.{prefix_of};
ghost use Rattle.search.specs.Searches.{steady, ended};
ghost use Rattle.search.specs.Places.{spot_of, search_of, Visits, Promises, noted};

use crate::plain::Search;
use costs::Cost;
use floors::source::FloorSource;
use problems::shape::Shape;

impl<C: Cost> Search<C> {
    // Tries the next value.
    pub(crate) fn visit<S: FloorSource<C>>(
        &mut self,
        shape: &Shape,
        source: &S,
        area: &[C],
        at: usize,
    )
        ensures visits { Visits S.FloorSource.rules C.Cost.structure (outline shape.now) source.now area.now at
            (search_of shape.now.order self.old) (search_of shape.now.order self.new) }
        ensures stays { steady (outline shape.now).sizes (outline shape.now).order (spot_of shape.now.order self.old.place) ≡ true
            → ended (outline shape.now).sizes (outline shape.now).order (spot_of shape.now.order self.old.place) ≡ false
            → steady (outline shape.now).sizes (outline shape.now).order (spot_of shape.now.order self.new.place) ≡ true }
    {
        let next = self.place.next;
        if !self.place.prefix.push(shape.along(), next) {
            return;
        }
        if self.place.prefix.len() == shape.along().variables().len() {
            self.note(shape, area);
        } else if self.promises(shape, source, area, at) {
            self.place.next = 0;
            return;
        }
        self.place.back(shape);
    }

    // Whether the floor of the prefix is cheaper than the bar.
    fn promises<S: FloorSource<C>>(&self, shape: &Shape, source: &S, area: &[C], at: usize) -> bool
        ensures { self.now.place.prefix.len ≤ length (outline shape.now).order
            → Promises S.FloorSource.rules C.Cost.structure (outline shape.now) source.now area.now at
            (prefix_of shape.now.order self.now.place.prefix) self.now.bar result }
    {
        let floor = source.floor(shape, &self.place.prefix, area, at);
        floor.is_cheaper(self.bar)
    }

    // A full prefix that is cheaper than the bar is the incumbent from now on, and its cost the bar.
    fn note(&mut self, shape: &Shape, area: &[C])
        ensures { self.new ≡ noted C.Cost.structure (outline shape.now) area.now self.old }
    {
        let cost = shape.cost(self.place.prefix.values(), area);
        if cost.is_cheaper(self.bar) {
            self.place.incumbent = Some(self.place.prefix.setting());
            self.bar = cost;
        }
    }
}
