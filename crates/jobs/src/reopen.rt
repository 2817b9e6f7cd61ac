// Back to draft.
ghost use Rattle.std.specs.Prelude.{◌≡◌};
ghost use Rattle.variables.specs.Refusals.{Answers, first_of};
ghost use Rattle.jobs.specs.Planning.{reopen_rows, Reopened};
ghost use Rattle.jobs.specs.Standings.{standing};

use crate::job::{Job, Plain};
use crate::stage::{Call, Stage};
use costs::Cost;
use variables::refusal::Refusal;

impl<C: Cost, S> Job<C, S> {
    // The functions are kept, and the cells behind their tables are free.
    pub fn reopen(&mut self) -> Result<(), Refusal>
        ensures { Answers (first_of (reopen_rows (standing self.old))) result
            (λ _. Reopened self.old self.new)
            (self.new ≡ self.old) }
    {
        let plain = self.plain;
        plain.stage.takes(Call::Reopen)?;
        self.plain = Plain::fresh(Stage::Draft, plain.shape, plain.noted);
        Ok(())
    }
}
