// The worked example, for costs of any kind and any source of floors.
use costs::{Cost, Pair};
use floors::source::FloorSource;
use jobs::job::Job;
use std::test::Fail;
use variables::refusal::Refusal;

pub(crate) const NUMBERS: [[u32; 4]; 3] = [[2, 4, 0, 5], [0, 4, 5, 1], [3, 0, 6, 2]];

pub(crate) const SMALL: [[u16; 4]; 3] = [[2, 4, 0, 5], [0, 4, 5, 1], [3, 0, 6, 2]];

const PAIRS: [[u8; 2]; 4] = [[0, 0], [0, 1], [1, 0], [1, 1]];

pub(crate) const ORDER: [u8; 3] = [0, 1, 2];

// A ranked cost of half the number and of 9,000 times the number.
pub(crate) fn pair(n: u16) -> Pair {
    Pair {
        first: n / 2,
        second: n.saturating_mul(9000),
    }
}

pub(crate) fn pairs() -> [[Pair; 4]; 3] {
    [
        [pair(2), pair(4), pair(0), pair(5)],
        [pair(0), pair(4), pair(5), pair(1)],
        [pair(3), pair(0), pair(6), pair(2)],
    ]
}

// One function more, with these costs of its four tuples.
// Not shared with examples: only a public library crate could hold it, which is no plainer than these few lines; so too PAIRS and number.
fn put<C: Cost, S>(
    job: &mut Job<C, S>,
    scope: &[u8],
    table: [C; 4],
    area: &mut [C],
) -> Result<(), Fail> {
    let number = job.enter(scope, C::neutral(), area)?;
    for (pair, cost) in PAIRS.iter().zip(&table) {
        job.amend(number, pair, *cost, area)?;
    }
    Ok(())
}

// The job in draft.
pub(crate) fn drafted<C: Cost, S: FloorSource<C> + Drop>(
    source: S,
    tables: [[C; 4]; 3],
    area: &mut [C],
) -> Result<Job<C, S>, Fail> {
    let mut job = Job::new(source);
    job.open(&[2, 2, 2], area)?;
    put(&mut job, &[0, 1], tables[0], area)?;
    put(&mut job, &[1, 2], tables[1], area)?;
    put(&mut job, &[0, 2], tables[2], area)?;
    Ok(job)
}

// The number of a refusal, 0 for a call that passed.
pub(crate) fn number<T: Drop>(answer: Result<T, Refusal>) -> u8 {
    match answer {
        Ok(_) => 0,
        Err(why) => why.number(),
    }
}
