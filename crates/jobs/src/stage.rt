// The stages of a job, and which call each of them takes.
ghost use Rattle.variables.specs.Refusals.{Answers, first_of};
ghost use Rattle.jobs.specs.Stages.{stage_rows};

use variables::refusal::Refusal;

#[derive(Clone, Copy, PartialEq, Eq, Debug)]
pub enum Stage {
    Closed,
    Draft,
    Running,
    Ended,
}

// The calls that a stage may refuse; close is taken in every stage.
#[derive(Clone, Copy)]
pub enum Call {
    Open,
    Load,
    Enter,
    Amend,
    Prepare,
    Step,
    Report,
    Reopen,
}

impl Stage {
    // Whether this stage takes the call.
    pub fn takes(self, call: Call) -> Result<(), Refusal>
        ensures { Answers (first_of (stage_rows self call)) result (λ _. Unit {0}) (Unit {0}) }
    {
        match (self, call) {
            (Stage::Closed, Call::Open | Call::Load) => Ok(()),
            (Stage::Draft, Call::Enter | Call::Amend | Call::Prepare) => Ok(()),
            (Stage::Running | Stage::Ended, Call::Step | Call::Report | Call::Reopen) => Ok(()),
            _ => Err(Refusal::Stage),
        }
    }
}
