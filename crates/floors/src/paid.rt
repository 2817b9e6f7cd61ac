// Paid: the functions whose scope lies in the prefix, combined.
ghost use Rattle.std.specs.Prelude.{◌≡◌, ℕ, slice_index};
ghost use Rattle.floors.specs.Sources.{paid_rules};
ghost use Rattle.problems.specs.Outlines.{problem};
ghost use Rattle.floors.specs.Floors.{paid_floor};
ghost use Rattle.floors.specs.Shapes.{shaped};
ghost use Rattle.floors.specs.Climbs.{admissible};
ghost use Rattle.floors.specs.Admissions.{paid_climbs};

pub use crate::plain::Paid;
use crate::plain::Places;
use crate::source::FloorSource;
use costs::Cost;
use problems::shape::Shape;
use variables::prefix::Prefix;

impl Paid {
    // Nothing is noted of a job yet.
    pub fn new() -> Paid
        ensures { (k : ℕ) → slice_index result.buckets.places k ≡ 0 }
    {
        Paid {
            buckets: Places::none(),
        }
    }
}

impl<C: Cost> FloorSource<C> for Paid {
    ghost rules = { paid_rules C.Cost.structure };

    ghost sound = { record {
      admissible = λ s o area formed suits. let p = problem o area in admissible C.Cost.lawful p (shaped p formed) (paid_floor C.Cost.structure p) (paid_climbs C.Cost.lawful p);
      stays = λ s o area area' at long same cells filled. filled;
    } };

    fn suits(&self, _shape: &Shape) -> bool {
        true
    }

    fn room(&self, _shape: &Shape) -> usize {
        0
    }

    fn fill(&mut self, shape: &Shape, _area: &mut [C], _at: usize) {
        *self = Paid {
            buckets: Places::of_records(&shape.order(), shape.functions()),
        };
    }

    fn floor(&self, shape: &Shape, prefix: &Prefix, area: &[C], _at: usize) -> C {
        let values = prefix.values();
        self.buckets.cost_up_to(
            prefix.len(),
            shape.functions(),
            shape.domains(),
            values,
            area,
        )
    }
}
