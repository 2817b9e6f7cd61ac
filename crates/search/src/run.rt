// A budget of visits.
ghost use Rattle.std.specs.Prelude.{◌≡◌, ◌≤◌, true};
ghost use Rattle.problems.specs.Outlines.{outline};
ghost use Rattle.search.specs.Searches.{steady};
ghost use Rattle.search.specs.Places.{spot_of, search_of, Runs};

pub use crate::plain::Search;
use costs::Cost;
use floors::source::FloorSource;
use problems::shape::Shape;

impl<C: Cost> Search<C> {
    // Makes the visits that the budget allows, fewer only if the search ends; answers how many.
    pub fn run<S: FloorSource<C>>(
        &mut self,
        shape: &Shape,
        source: &S,
        area: &[C],
        at: usize,
        budget: u32,
    ) -> u32
        ensures few { result ≤ budget }
        ensures runs { Runs S.FloorSource.rules C.Cost.structure (outline shape.now) source.now area.now at budget
            (search_of shape.now.order self.old) (search_of shape.now.order self.new) result }
        ensures stays { steady (outline shape.now).sizes (outline shape.now).order (spot_of shape.now.order self.old.place) ≡ true
            → steady (outline shape.now).sizes (outline shape.now).order (spot_of shape.now.order self.new.place) ≡ true }
    {
        for visits in 0..budget {
            if self.place.ended(shape) {
                return visits;
            }
            self.visit(shape, source, area, at);
        }
        budget
    }
}
