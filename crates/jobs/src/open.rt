// A job is made Closed, and opened with its variables' domain sizes.
ghost use Rattle.std.specs.Prelude.{◌≡◌, length};
ghost use Rattle.problems.specs.Outlines.{outline};
ghost use Rattle.variables.specs.Refusals.{Answers, first_of};
ghost use Rattle.jobs.specs.Calls.{open_rows, Opened};
ghost use Rattle.jobs.specs.Standings.{standing, closed, Stands};

use crate::job::{Job, Plain};
use crate::stage::{Call, Stage};
use costs::Cost;
use problems::shape::{MOST_CELLS, Shape};
use std::marker::PhantomData;
use variables::refusal::Refusal;

impl<C: Cost, S> Job<C, S> {
    // A new job, Closed.
    pub fn new(source: S) -> Job<C, S>
        ensures { Stands result closed source }
    {
        Job {
            plain: Plain::closed(),
            source,
            costs: PhantomData,
        }
    }

    // Takes the variables' domain sizes, and notes the area's length.
    pub fn open(&mut self, sizes: &[u8], area: &[C]) -> Result<(), Refusal>
        ensures { Answers (first_of (open_rows (standing self.old) sizes.now (length area.now))) result
            (λ _. Opened self.old self.new sizes.now (length area.now))
            (self.new ≡ self.old) }
    {
        let stage = self.plain.stage;
        stage.takes(Call::Open)?;
        let shape = Shape::of(sizes)?;
        let noted = area.len();
        if noted < 2 || noted > MOST_CELLS {
            return Err(Refusal::Area);
        }
        self.plain = Plain::fresh(Stage::Draft, shape, noted);
        Ok(())
    }

    pub fn stage(&self) -> Stage
        ensures { result ≡ (standing self.now).stage }
    {
        self.plain.stage
    }

    // What the job is apart from its cells.
    pub fn shape(&self) -> Shape
        ensures { outline result ≡ (standing self.now).outline }
    {
        self.plain.shape
    }
}
