// First choice: for each function its least cost that agrees with the prefix, combined.
ghost use Rattle.std.specs.Prelude.{◌≡◌, ℕ, [], ◌∷◌, ◌++◌, slice_index};
ghost use Rattle.problems.specs.Outlines.{outline, problem};
ghost use Rattle.variables.specs.Assignments.{of};
ghost use Rattle.variables.specs.Records.{sizes_of, values_of};
ghost use Rattle.problems.specs.Records.{placed_of, nth, held};
ghost use Rattle.floors.specs.Leasts.{least_of};
ghost use Rattle.floors.specs.Floors.{cheapest, first_choice_floor};
ghost use Rattle.floors.specs.Sources.{first_choice_rules, given_of, least_held, listed};
ghost use Rattle.floors.specs.Shapes.{shaped};
ghost use Rattle.floors.specs.Climbs.{admissible};
ghost use Rattle.floors.specs.Admissions.{first_choice_climbs};

pub use crate::plain::FirstChoice;
use crate::plain::{Given, Places};
use crate::source::FloorSource;
use costs::Cost;
use problems::functions::FunctionRecord;
use problems::shape::Shape;
use variables::prefix::Prefix;
use variables::setting::Setting;
use variables::sizes::Sizes;

impl FirstChoice {
    // Nothing is noted of a job yet.
    pub fn new() -> FirstChoice
        ensures { (v : ℕ) → slice_index result.places.places v ≡ 0 }
    {
        FirstChoice {
            places: Places::none(),
        }
    }
}

impl Given {
    // The least cost of a function over the values of those of the variables that are not given.
    fn least<C: Cost>(
        &self,
        function: &FunctionRecord,
        variables: &[u8],
        sizes: &Sizes,
        setting: Setting,
        area: &[C],
    ) -> C
        ensures { result ≡ cheapest C.Cost.structure (sizes_of sizes.now) (given_of self.now) variables.now
            (λ a. held C.Cost.structure (sizes_of sizes.now) area.now a (placed_of function.now)) (of (values_of setting)) }
    {
        let [variable, rest @ ..] = variables else {
            return function.cost(sizes, &setting, area);
        };
        if self.has(*variable) {
            return self.least(function, rest, sizes, setting, area);
        }
        let mut least = None;
        for value in 0..sizes.size(*variable) {
            let mut choice = setting;
            choice.give(*variable, value);
            let cost = self.least(function, rest, sizes, choice, area);
            least = Some(lesser(least, cost));
        }
        least.unwrap_or(C::neutral())
    }
}

// The least cost of a function that agrees with the variables given.
fn choice<C: Cost>(
    function: &FunctionRecord,
    given: &Given,
    sizes: &Sizes,
    setting: Setting,
    area: &[C],
) -> C
    ensures { result ≡ least_held C.Cost.structure (sizes_of sizes.now) area.now (given_of given.now) (of (values_of setting)) (placed_of function.now) }
{
    let scope = function.scope();
    given.least(function, scope.variables(), sizes, setting, area)
}

// The lesser of a cost and the least before it, if there is one.
fn lesser<C: Cost>(least: Option<C>, cost: C) -> C
    ensures { result ≡ least_of C.Cost.structure (listed least ++ cost ∷ []) }
{
    match least {
        Some(least) => { if least.is_at_most(cost) { least } else { cost } }
        None => cost,
    }
}

impl<C: Cost> FloorSource<C> for FirstChoice {
    ghost rules = { first_choice_rules C.Cost.structure };

    ghost sound = { record {
      admissible = λ s o area formed suits.
          let p = problem o area in
          admissible C.Cost.lawful p (shaped p formed) (first_choice_floor C.Cost.structure p) (first_choice_climbs C.Cost.lawful p (shaped p formed));
      stays = λ s o area area' at long same cells filled. filled;
    } };

    fn suits(&self, _shape: &Shape) -> bool {
        true
    }

    fn room(&self, _shape: &Shape) -> usize {
        0
    }

    fn fill(&mut self, shape: &Shape, _area: &mut [C], _at: usize) {
        *self = FirstChoice {
            places: Places::of_variables(&shape.order()),
        };
    }

    fn floor(&self, shape: &Shape, prefix: &Prefix, area: &[C], _at: usize) -> C {
        let given = Given {
            places: self.places,
            len: prefix.len(),
        };
        let mut sum = C::neutral();
        for function in shape.functions() {
            sum = sum.combine(choice(function, &given, shape.domains(), prefix.setting(), area));
        }
        sum
    }
}
