// A budget of visits.
ghost use Rattle.std.specs.Prelude.{◌≡◌, true, length};
ghost use Rattle.problems.specs.Outlines.{outline};
ghost use Rattle.variables.specs.Refusals.{Answers, first_of};
ghost use Rattle.search.specs.Searches.{steady};
ghost use Rattle.search.specs.Places.{spot_of};
ghost use Rattle.jobs.specs.declared.stage.Call.TheVariants.{Step as StepCall};
ghost use Rattle.jobs.specs.Stages.{takes};
ghost use Rattle.jobs.specs.Planning.{step_rows, budget_rows, Steps};
ghost use Rattle.jobs.specs.Standings.{standing, standing_of, stage_at, moved};

use crate::answer::Stepped;
use crate::cells::BAR;
use crate::job::{Job, Plain};
use crate::stage::{Call, Stage};
use costs::Cost;
use floors::source::FloorSource;
use problems::shape::Shape;
use search::place::Place;
use search::run::Search;
use variables::refusal::Refusal;

// How many visits a step makes at most.
const MOST_VISITS: u32 = 10000;

fn takes_budget(budget: u32) -> Result<(), Refusal>
    ensures { Answers (first_of (budget_rows budget)) result (λ _. Unit {0}) (Unit {0}) }
{
    if budget == 0 || budget > MOST_VISITS {
        return Err(Refusal::Budget);
    }
    Ok(())
}

// A search runs until it has ended.
fn stage_at(place: &Place, shape: &Shape) -> Stage
    ensures { result ≡ stage_at (outline shape.now) (spot_of shape.now.order place.now) }
{
    if place.ended(shape) {
        Stage::Ended
    } else {
        Stage::Running
    }
}

impl Plain {
    // The job after some visits, at the place where they led.
    fn after(&self, place: Place, visits: u32) -> Plain
        requires begun { takes self.now.stage StepCall ≡ true }
        requires still { steady (outline self.now.shape).sizes (outline self.now.shape).order (spot_of self.now.shape.order place) ≡ true }
        ensures there { standing_of result ≡ moved (standing_of self.now) (spot_of self.now.shape.order place) visits }
        ensures shape { result.shape ≡ self.now.shape }
    {
        Plain {
            stage: stage_at(&place, &self.shape),
            shape: self.shape,
            noted: self.noted,
            place,
            visits: self.visits.saturating_add(visits),
        }
    }
}

impl<C: Cost, S: FloorSource<C>> Job<C, S> {
    // Makes the visits that the budget allows, fewer only if the search ends.
    pub fn step(&mut self, budget: u32, area: &mut [C]) -> Result<Stepped, Refusal>
        ensures { Answers (first_of (step_rows (standing self.old) budget (length area.old))) result
            (Steps S.FloorSource.rules C.Cost.structure self.old self.new area.old area.new budget)
            ((self.new ≡ self.old) × (area.new ≡ area.old)) }
    {
        let plain = self.plain;
        plain.takes(Call::Step, area.len())?;
        takes_budget(budget)?;
        if plain.stage == Stage::Ended {
            return Ok(Stepped {
                visits: 0,
                stage: Stage::Ended,
            });
        }
        let mut search = Search {
            place: plain.place,
            bar: area[BAR],
        };
        let visits = search.run(&plain.shape, &self.source, area, plain.shape.used(), budget);
        area[BAR] = search.bar;
        let after = plain.after(search.place, visits);
        self.plain = after;
        Ok(Stepped {
            visits,
            stage: after.stage,
        })
    }
}
