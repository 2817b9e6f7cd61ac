// From draft to running: an order, a limit, and the source's cells.
ghost use Rattle.std.specs.Prelude.{◌≡◌, ◌≤◌, length};
ghost use Rattle.problems.specs.Outlines.{outline};
ghost use Rattle.variables.specs.Refusals.{Answers, first_of};
ghost use Rattle.jobs.specs.Planning.{source_rows, prepare_rows, Prepared};
ghost use Rattle.jobs.specs.Standings.{standing};

use crate::cells::{BAR, LIMIT};
use crate::job::{Job, Plain};
use crate::stage::{Call, Stage};
use costs::Cost;
use floors::source::FloorSource;
use problems::shape::Shape;
use variables::refusal::Refusal;

// The source has to take the job, and its cells to be there behind the tables.
fn takes_source<C: Cost, S: FloorSource<C>>(
    source: &S,
    shape: &Shape,
    cells: usize,
) -> Result<(), Refusal>
    requires inside { (outline shape.now).used ≤ cells }
    ensures { Answers (first_of (source_rows S.FloorSource.rules source.now (outline shape.now) cells)) result (λ _. Unit {0}) (Unit {0}) }
{
    if !source.suits(shape) {
        return Err(Refusal::Source);
    }
    let free = cells - shape.used();
    if source.room(shape) > free {
        return Err(Refusal::Room);
    }
    Ok(())
}

impl<C: Cost, S: FloorSource<C>> Job<C, S> {
    // Puts the limit into cells 0 and 1, has the source fill its cells behind the tables, and starts the search.
    pub fn prepare(&mut self, order: &[u8], limit: C, area: &mut [C]) -> Result<(), Refusal>
        ensures { Answers (first_of (prepare_rows S.FloorSource.rules (standing self.old) self.old.source order.now (length area.old))) result
            (λ _. Prepared S.FloorSource.rules self.old self.new area.old area.new order.now limit)
            ((self.new ≡ self.old) × (area.new ≡ area.old)) }
    {
        let plain = self.plain;
        plain.takes(Call::Prepare, area.len())?;
        let mut shape = plain.shape;
        shape.arrange(order)?;
        takes_source(&self.source, &shape, area.len())?;
        area[LIMIT] = limit;
        area[BAR] = limit;
        self.source.fill(&shape, area, shape.used());
        self.plain = Plain::fresh(Stage::Running, shape, plain.noted);
        Ok(())
    }
}
