// What step and report answer.
use crate::stage::Stage;

// The visits that a step made, and the stage after it.
#[derive(Clone, Copy, PartialEq, Eq, Debug)]
pub struct Stepped {
    pub visits: u32,
    pub stage: Stage,
}

// What is known of the job's settings.
#[derive(Clone, Copy, PartialEq, Eq, Debug)]
pub enum Verdict {
    // The setting is a cheapest one below the limit.
    Best,
    // The setting is the best that was found up to now.
    SoFar,
    // No full setting is below the limit.
    NoneBelow,
    // None was found up to now.
    NothingYet,
}

// A verdict with the cost that settings have to be cheaper than, a bottom that none undercuts, and the visits since prepare.
#[derive(Clone, Copy)]
pub struct Report<C> {
    pub verdict: Verdict,
    pub cost: C,
    pub bottom: C,
    pub visits: u32,
}
