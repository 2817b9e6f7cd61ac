// Neutral: the floor that promises nothing.
ghost use Rattle.foreign.specs.Sources.{neutral_rules};
ghost use Rattle.problems.specs.Outlines.{problem};
ghost use Rattle.problems.specs.Problems.{cost};

pub use crate::plain::Neutral;
use costs::Cost;
use floors::source::FloorSource;
use problems::shape::Shape;
use variables::prefix::Prefix;

impl<C: Cost> FloorSource<C> for Neutral {
    ghost rules = { neutral_rules C.Cost.structure };

    ghost sound = { record {
      admissible = λ s o area formed suits x t le full begins. C.Cost.lawful.least (cost C.Cost.structure (problem o area) t);
      stays = λ s o area area' at long same cells filled. filled;
    } };

    fn suits(&self, _shape: &Shape) -> bool {
        true
    }

    fn room(&self, _shape: &Shape) -> usize {
        0
    }

    fn fill(&mut self, _shape: &Shape, _area: &mut [C], _at: usize) {}

    fn floor(&self, _shape: &Shape, _prefix: &Prefix, _area: &[C], _at: usize) -> C {
        C::neutral()
    }
}
