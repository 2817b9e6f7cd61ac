// A function more: its scope, and one cost for every tuple.
ghost use Rattle.std.specs.Prelude.{◌≡◌, length};
ghost use Rattle.variables.specs.Refusals.{Answers, first_of};
ghost use Rattle.jobs.specs.Calls.{enter_rows, Entered};
ghost use Rattle.jobs.specs.Standings.{standing};

use crate::job::{Job, Plain};
use crate::stage::{Call, Stage};
use costs::Cost;
use variables::refusal::Refusal;

impl<C: Cost, S> Job<C, S> {
    // Writes the cost into every cell of the new table, and answers the function's number.
    pub fn enter(&mut self, scope: &[u8], cost: C, area: &mut [C]) -> Result<usize, Refusal>
        ensures { Answers (first_of (enter_rows (standing self.old) scope.now (length area.old))) result
            (Entered self.old self.new area.old area.new scope.now cost)
            ((self.new ≡ self.old) × (area.new ≡ area.old)) }
    {
        let plain = self.plain;
        plain.takes(Call::Enter, area.len())?;
        let mut shape = plain.shape;
        let number = shape.enter(scope, area.len())?;
        let start = plain.shape.used();
        let end = shape.used();
        // Not a fill: it asks for a clone that cannot fail, which the trait Cost does not promise.
        area[start..end].fill_with(|| cost);
        self.plain = Plain::fresh(Stage::Draft, shape, plain.noted);
        Ok(number)
    }
}
