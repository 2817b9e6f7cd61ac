// What the main promise comes to; the function only carries the theorem.
ghost use Rattle.replay.specs.Examples.{PromiseIsMeant};

// A report of open, prepare and step on one area says best of the best setting, and none where there is none.
pub fn promise_is_meant<C>()
    ensures { PromiseIsMeant C }
{}
