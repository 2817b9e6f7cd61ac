// What the tests share.
use variables::refusal::Refusal;

// The number of a refusal, 0 for a call that passed.
pub(crate) fn number<T: Drop>(answer: Result<T, Refusal>) -> u8 {
    match answer {
        Ok(_) => 0,
        Err(why) => why.number(),
    }
}
