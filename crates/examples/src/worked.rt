// Three variables of two values, with a function for each two of them.
use costs::Cost;
use jobs::job::{Job, NoFloors};
use std::process::Abort;
use std::test::Fail;
use variables::setting::Setting;

const TEXT: &[u8] = b"three 3 2 3 100
2 2 2
2 0 1 0 4
0 0 2
0 1 4
1 0 0
1 1 5
2 1 2 0 4
0 0 0
0 1 4
1 0 5
1 1 1
2 0 2 0 4
0 0 3
0 1 0
1 0 6
1 1 2
";

const PAIRS: [[u8; 2]; 4] = [[0, 0], [0, 1], [1, 0], [1, 1]];

// One function more, with these costs of its four tuples.
fn put<C: Cost>(
    job: &mut Job<C, NoFloors>,
    scope: &[u8],
    table: [C; 4],
    area: &mut [C],
) -> Result<(), Fail> {
    let number = job.enter(scope, C::neutral(), area)?;
    for (pair, cost) in PAIRS.iter().zip(&table) {
        job.amend(number, pair, *cost, area)?;
    }
    Ok(())
}

// The job, entered call by call.
fn built<C: Cost>(tables: [[C; 4]; 3], area: &mut [C]) -> Result<Job<C, NoFloors>, Fail> {
    let mut job = Job::new(NoFloors);
    job.open(&[2, 2, 2], area)?;
    put(&mut job, &[0, 1], tables[0], area)?;
    put(&mut job, &[1, 2], tables[1], area)?;
    put(&mut job, &[0, 2], tables[2], area)?;
    Ok(job)
}

// What a full setting costs.
fn price<C: Cost>(job: &Job<C, NoFloors>, values: &[u8], area: &[C]) -> Result<C, Fail> {
    let shape = job.shape();
    let setting = Setting::full(values, &shape.sizes())?;
    Ok(shape.cost(&setting, area))
}

// The costs of three settings.
fn prices(rt: &impl Abort, job: &Job<u32, NoFloors>, area: &[u32]) -> Result<(), Fail> {
    assert_eq!(rt; price(job, &[0, 0, 0], area)?, 5);
    assert_eq!(rt; price(job, &[0, 1, 1], area)?, 5);
    assert_eq!(rt; price(job, &[0, 0, 1], area)?, 6);
    Ok(())
}

#[test]
fn entered_and_loaded_are_the_same(rt: HostRuntime) -> Result<(), Fail> {
    let mut area = [8; 15];
    let job = built([[2, 4, 0, 5], [0, 4, 5, 1], [3, 0, 6, 2]], &mut area)?;
    assert_eq!(rt; area, [8, 8, 2, 4, 0, 5, 0, 4, 5, 1, 3, 0, 6, 2, 8]);
    prices(&rt, &job, &area)?;
    let mut other = [8; 15];
    let mut loaded: Job<u32, NoFloors> = Job::new(NoFloors);
    assert_eq!(rt; loaded.load(TEXT, &mut other)?, 100);
    assert_eq!(rt; other, area);
    prices(&rt, &loaded, &other)
}

#[test]
fn the_worst_counts(rt: HostRuntime) -> Result<(), Fail> {
    let mut area: [u16; 14] = [0; 14];
    let job = built([[2, 4, 0, 5], [0, 4, 5, 1], [3, 0, 6, 2]], &mut area)?;
    assert_eq!(rt; price(&job, &[0, 0, 0], &area)?, 3);
    assert_eq!(rt; price(&job, &[0, 0, 1], &area)?, 4);
    Ok(())
}
