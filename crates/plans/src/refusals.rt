// What prepare, step, report and reopen refuse, at its edges.
use crate::three::{NUMBERS, ORDER, drafted, number};
use buckets::mini_bucket::MiniBucket;
use floors::paid::Paid;
use jobs::answer::Verdict;
use jobs::job::Job;
use std::test::Fail;

// The number that prepare is refused with by a mini-bucket source.
fn prepared(width: u8, area: &mut [u32]) -> Result<u8, Fail> {
    let mut job = drafted(MiniBucket::new(width), NUMBERS, area)?;
    Ok(number(job.prepare(&ORDER, 100, area)))
}

#[test]
fn a_source_wants_room(rt: HostRuntime) -> Result<(), Fail> {
    let mut area = [0; 21];
    let mut short = [0; 20];
    assert_eq!(rt; prepared(2, &mut area)?, 0);
    assert_eq!(rt; prepared(3, &mut area)?, 0);
    assert_eq!(rt; prepared(2, &mut short)?, 8);
    assert_eq!(rt; prepared(3, &mut short)?, 8);
    Ok(())
}

#[test]
fn a_source_has_a_width(rt: HostRuntime) -> Result<(), Fail> {
    let mut area = [0; 21];
    assert_eq!(rt; prepared(0, &mut area)?, 12);
    assert_eq!(rt; prepared(1, &mut area)?, 12);
    assert_eq!(rt; prepared(6, &mut area)?, 0);
    assert_eq!(rt; prepared(7, &mut area)?, 12);
    Ok(())
}

#[test]
fn an_order_names_each_variable_once(rt: HostRuntime) -> Result<(), Fail> {
    let mut area = [0; 14];
    let mut job = drafted(Paid::new(), NUMBERS, &mut area)?;
    assert_eq!(rt; number(job.prepare(&[0, 1], 100, &mut area)), 11);
    assert_eq!(rt; number(job.prepare(&[0, 1, 1], 100, &mut area)), 11);
    assert_eq!(rt; number(job.prepare(&[0, 1, 3], 100, &mut area)), 11);
    assert_eq!(rt; area[0], 0);
    assert_eq!(rt; number(job.step(1, &mut area)), 4);
    assert_eq!(rt; number(job.prepare(&[2, 0, 1], 100, &mut area)), 0);
    assert_eq!(rt; number(job.prepare(&[2, 0, 1], 100, &mut area)), 4);
    assert_eq!(rt; area[0], 100);
    assert_eq!(rt; area[1], 100);
    Ok(())
}

// Budgets are 1 to 10,000 visits, and a buffer has a place for each variable.
#[test]
fn budgets_and_buffers_have_edges(rt: HostRuntime) -> Result<(), Fail> {
    let mut area = [0; 14];
    let mut job = drafted(Paid::new(), NUMBERS, &mut area)?;
    job.prepare(&ORDER, 100, &mut area)?;
    assert_eq!(rt; number(job.step(0, &mut area)), 13);
    assert_eq!(rt; number(job.step(10001, &mut area)), 13);
    assert_eq!(rt; number(job.step(5, &mut [0; 13])), 5);
    assert_eq!(rt; number(job.report(&mut [7; 2], &area)), 14);
    assert_eq!(rt; number(job.report(&mut [7; 4], &area)), 14);
    assert_eq!(rt;
        job.report(&mut [7; 3], &area)?.verdict,
        Verdict::NothingYet
    );
    assert_eq!(rt; job.step(1, &mut area)?.visits, 1);
    assert_eq!(rt; job.step(10000, &mut area)?.visits, 11);
    assert_eq!(rt; job.step(10000, &mut area)?.visits, 0);
    assert_eq!(rt; job.report(&mut [7; 3], &area)?.verdict, Verdict::Best);
    Ok(())
}

// After reopen the job is a draft again, with its functions, and can be amended and planned again.
#[test]
fn a_reopened_job_is_a_draft(rt: HostRuntime) -> Result<(), Fail> {
    let mut area = [0; 21];
    let mut job = drafted(MiniBucket::new(2), NUMBERS, &mut area)?;
    assert_eq!(rt; number(job.reopen()), 4);
    job.prepare(&ORDER, 100, &mut area)?;
    assert_eq!(rt; number(job.enter(&[], 1, &mut area)), 4);
    job.reopen()?;
    assert_eq!(rt; number(job.step(1, &mut area)), 4);
    assert_eq!(rt; job.enter(&[], 0, &mut area)?, 3);
    job.amend(2, &[0, 0], 0, &mut area)?;
    assert_eq!(rt; number(job.prepare(&ORDER, 100, &mut area)), 8);
    job.close();
    assert_eq!(rt; number(job.enter(&[], 0, &mut area)), 4);
    Ok(())
}
