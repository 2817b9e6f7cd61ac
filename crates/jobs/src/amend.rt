// One cost of a function changed.
ghost use Rattle.std.specs.Prelude.{◌≡◌, length};
ghost use Rattle.variables.specs.Refusals.{Answers, first_of};
ghost use Rattle.jobs.specs.Calls.{amend_rows, Amended};
ghost use Rattle.jobs.specs.Standings.{standing};

use crate::job::Job;
use crate::stage::Call;
use costs::Cost;
use variables::refusal::Refusal;

impl<C: Cost, S> Job<C, S> {
    // Writes the cost into the cell of the function's tuple.
    pub fn amend(
        &mut self,
        function: usize,
        tuple: &[u8],
        cost: C,
        area: &mut [C],
    ) -> Result<(), Refusal>
        ensures { Answers (first_of (amend_rows (standing self.old) function tuple.now (length area.old))) result
            (λ _. Amended self.old self.new area.old area.new function tuple.now cost)
            ((self.new ≡ self.old) × (area.new ≡ area.old)) }
    {
        let plain = self.plain;
        plain.takes(Call::Amend, area.len())?;
        let at = plain.shape.cell(function, tuple)?;
        area[at] = cost;
        Ok(())
    }
}
