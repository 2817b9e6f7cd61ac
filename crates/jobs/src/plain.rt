// How the calls make the job's record, and what each of them asks of it first.
ghost use Rattle.std.specs.Prelude.{◌≡◌, ◌≤◌, true, false};
ghost use Rattle.problems.specs.Outlines.{outline};
ghost use Rattle.search.specs.Searches.{start};
ghost use Rattle.variables.specs.Refusals.{Answers, first_of};
ghost use Rattle.jobs.specs.Calls.{call_rows};
ghost use Rattle.jobs.specs.Invariants.{sound};
ghost use Rattle.jobs.specs.Stages.{opens};
ghost use Rattle.jobs.specs.Standings.{standing_of, fresh, closed};

use crate::job::Plain;
use crate::stage::{Call, Stage};
use problems::shape::Shape;
use search::place::Place;
use variables::refusal::Refusal;

impl Plain {
    // A job at the start of a stage: the search has made no visit.
    pub(crate) fn fresh(stage: Stage, shape: Shape, noted: usize) -> Plain
        requires kept { sound stage (outline shape) noted start ≡ true }
        requires few { noted ≤ 16384 }
        ensures { standing_of result ≡ fresh stage (outline shape) noted }
    {
        Plain {
            stage,
            shape,
            noted,
            place: Place::start(),
            visits: 0,
        }
    }

    pub(crate) fn closed() -> Plain
        ensures { standing_of result ≡ closed }
    {
        Plain::fresh(Stage::Closed, Shape::none(), 0)
    }

    // The stage has to take the call, and the area that it brings to be as long as the one that was noted.
    pub(crate) fn takes(&self, call: Call, cells: usize) -> Result<(), Refusal>
        requires later { opens call ≡ false }
        ensures { Answers (first_of (call_rows (standing_of self.now) call cells)) result
            (λ _. (2 ≤ (outline self.now.shape).used) × ((outline self.now.shape).used ≤ cells))
            (Unit {0}) }
    {
        self.stage.takes(call)?;
        if cells != self.noted {
            return Err(Refusal::AreaLength);
        }
        Ok(())
    }
}
