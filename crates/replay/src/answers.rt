// What a call of a job returned, as an answer.
ghost use Rattle.std.specs.Prelude.{◌≡◌};
ghost use Rattle.replay.specs.Shows.{done, numbered, moved};

use crate::calls::Answer;
use jobs::answer::Stepped;
use variables::refusal::Refusal;

impl<C> From<Result<(), Refusal>> for Answer<C> {
    ghost from_gives = { λ res r. done r (λ x. x ≡ res) };

    fn from(res: Result<(), Refusal>) -> Answer<C> {
        match res {
            Ok(()) => Answer::Done,
            Err(refusal) => Answer::Refused(refusal),
        }
    }
}

impl<C> From<Result<usize, Refusal>> for Answer<C> {
    ghost from_gives = { λ res r. numbered r (λ x. x ≡ res) };

    fn from(res: Result<usize, Refusal>) -> Answer<C> {
        match res {
            Ok(number) => Answer::Entered(number),
            Err(refusal) => Answer::Refused(refusal),
        }
    }
}

impl<C> From<Result<Stepped, Refusal>> for Answer<C> {
    ghost from_gives = { λ res r. moved r (λ x. x ≡ res) };

    fn from(res: Result<Stepped, Refusal>) -> Answer<C> {
        match res {
            Ok(stepped) => Answer::Stepped(stepped),
            Err(refusal) => Answer::Refused(refusal),
        }
    }
}
