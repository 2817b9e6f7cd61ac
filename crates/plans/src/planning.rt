// Searches of the worked example to their end.
use crate::three::{NUMBERS, ORDER, SMALL, drafted};
use buckets::mini_bucket::MiniBucket;
use costs::Cost;
use floors::first_choice::FirstChoice;
use floors::paid::Paid;
use floors::source::FloorSource;
use jobs::answer::{Report, Verdict};
use jobs::stage::Stage;
use std::process::Abort;
use std::test::Fail;

// Planned to the end by steps of so many visits; the report, and the setting that it wrote.
fn planned<C: Cost, S: FloorSource<C> + Drop>(
    rt: &impl Abort,
    source: S,
    tables: [[C; 4]; 3],
    limit: C,
    budget: u32,
    area: &mut [C],
) -> Result<(Report<C>, [u8; 3]), Fail> {
    let mut job = drafted(source, tables, area)?;
    job.prepare(&ORDER, limit, area)?;
    for _ in 0..14 {
        job.step(budget, area)?;
    }
    assert_eq!(rt; job.stage(), Stage::Ended);
    let mut setting = [9; 3];
    let report = job.report(&mut setting, area)?;
    Ok((report, setting))
}

// By sums: the setting 0, 0, 0 is best at 5, after so many visits.
fn first_wins(rt: &impl Abort, planned: (Report<u32>, [u8; 3]), bottom: u32, visits: u32) {
    let (report, setting) = planned;
    assert_eq!(rt; report.verdict, Verdict::Best);
    assert_eq!(rt; report.cost, 5);
    assert_eq!(rt; report.bottom, bottom);
    assert_eq!(rt; report.visits, visits);
    assert_eq!(rt; setting, [0, 0, 0]);
}

#[test]
fn the_first_setting_wins(rt: HostRuntime) -> Result<(), Fail> {
    let mut area = [0; 21];
    first_wins(
        &rt,
        planned(&rt, Paid::new(), NUMBERS, 100, 10000, &mut area)?,
        0,
        12,
    );
    first_wins(
        &rt,
        planned(&rt, FirstChoice::new(), NUMBERS, 100, 10000, &mut area)?,
        0,
        10,
    );
    first_wins(
        &rt,
        planned(&rt, MiniBucket::new(2), NUMBERS, 100, 10000, &mut area)?,
        2,
        10,
    );
    first_wins(
        &rt,
        planned(&rt, MiniBucket::new(3), NUMBERS, 100, 10000, &mut area)?,
        5,
        6,
    );
    Ok(())
}

#[test]
fn single_visits_lead_to_the_same(rt: HostRuntime) -> Result<(), Fail> {
    let mut area = [0; 21];
    first_wins(
        &rt,
        planned(&rt, Paid::new(), NUMBERS, 100, 1, &mut area)?,
        0,
        12,
    );
    first_wins(
        &rt,
        planned(&rt, MiniBucket::new(2), NUMBERS, 100, 1, &mut area)?,
        2,
        10,
    );
    first_wins(
        &rt,
        planned(&rt, MiniBucket::new(3), NUMBERS, 100, 1, &mut area)?,
        5,
        6,
    );
    Ok(())
}

#[test]
fn none_is_below_the_limit(rt: HostRuntime) -> Result<(), Fail> {
    let mut area = [0; 21];
    let (report, setting) = planned(&rt, MiniBucket::new(3), NUMBERS, 5, 10000, &mut area)?;
    assert_eq!(rt; report.verdict, Verdict::NoneBelow);
    assert_eq!(rt; report.cost, 5);
    assert_eq!(rt; report.visits, 2);
    assert_eq!(rt; setting, [9, 9, 9]);
    Ok(())
}

#[test]
fn the_worst_decides(rt: HostRuntime) -> Result<(), Fail> {
    let mut area = [0; 21];
    let (report, setting) = planned(&rt, Paid::new(), SMALL, 100, 10000, &mut area)?;
    assert_eq!(rt; report.verdict, Verdict::Best);
    assert_eq!(rt; report.cost, 3);
    assert_eq!(rt; report.visits, 10);
    assert_eq!(rt; setting, [0, 0, 0]);
    Ok(())
}
