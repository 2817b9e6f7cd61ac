// The edges of enter.
use crate::support::number;
use jobs::job::{Job, NoFloors};
use jobs::stage::Stage;
use std::process::Abort;
use std::test::Fail;

// The number that enter gives to a scope in a job of six variables of two values.
// The job noted an area of so many cells, and is lent one of so many.
fn entered(rt: &impl Abort, scope: &[u8], noted: usize, lent: usize) -> Result<u8, Fail> {
    let mut area = [7; 40];
    assert!(rt; noted <= 40 && lent <= 40);
    let mut job: Job<u32, NoFloors> = Job::new(NoFloors);
    job.open(&[2; 6], &area[0..noted])?;
    let answer = number(job.enter(scope, 5, &mut area[0..lent]));
    assert_eq!(rt; job.stage(), Stage::Draft);
    if answer == 0 {
        assert_eq!(rt; job.shape().function_count(), 1);
    } else {
        assert_eq!(rt; job.shape().function_count(), 0);
        assert_eq!(rt; job.shape().used(), 2);
        assert_eq!(rt; area, [7; 40]);
    }
    Ok(answer)
}

#[test]
fn scopes_have_their_limits(rt: HostRuntime) -> Result<(), Fail> {
    let rows: [(&[u8], u8); 9] = [
        (&[], 0),
        (&[0, 1, 2, 3, 4], 0),
        (&[0, 1, 2, 3, 4, 5], 6),
        (&[5], 0),
        (&[6], 6),
        (&[0, 1, 6], 6),
        (&[1, 0], 0),
        (&[1, 1], 6),
        (&[1, 0, 1], 6),
    ];
    for (scope, answer) in rows {
        assert_eq!(rt; entered(&rt, scope, 40, 40)?, answer, "{scope:?}");
    }
    Ok(())
}

#[test]
fn areas_have_their_limits(rt: HostRuntime) -> Result<(), Fail> {
    let scope = &[4, 3, 2, 1, 0];
    let rows = [
        (34, 34, 0),
        (33, 33, 8),
        (35, 34, 5),
        (35, 36, 5),
        (35, 35, 0),
    ];
    for (noted, lent, answer) in rows {
        assert_eq!(rt; entered(&rt, scope, noted, lent)?, answer);
    }
    // the first row of the table counts
    assert_eq!(rt; entered(&rt, &[6], 35, 36)?, 5);
    assert_eq!(rt; entered(&rt, &[0, 1, 2, 3, 4, 5], 33, 33)?, 6);
    Ok(())
}

#[test]
fn tables_lie_one_behind_the_other(rt: HostRuntime) -> Result<(), Fail> {
    let mut area = [7; 9];
    let mut job: Job<u32, NoFloors> = Job::new(NoFloors);
    job.open(&[2, 3], &area)?;
    assert_eq!(rt; job.enter(&[1], 4, &mut area)?, 0);
    assert_eq!(rt; number(job.enter(&[0, 1], 5, &mut area)), 8);
    assert_eq!(rt; job.enter(&[0], 6, &mut area)?, 1);
    assert_eq!(rt; number(job.enter(&[1], 5, &mut area)), 8);
    assert_eq!(rt; job.enter(&[0], 8, &mut area)?, 2);
    assert_eq!(rt; number(job.enter(&[], 5, &mut area)), 8);
    assert_eq!(rt; area, [7, 7, 4, 4, 4, 6, 6, 8, 8]);
    assert_eq!(rt; job.shape().function_count(), 3);
    Ok(())
}

// Enters 64 functions of no variables, and then one too many.
fn crowded(rt: &impl Abort, area: &mut [u32]) -> Result<(), Fail> {
    let mut job: Job<u32, NoFloors> = Job::new(NoFloors);
    job.open(&[2], area)?;
    for k in 0..64 {
        assert_eq!(rt; job.enter(&[], 5, area)?, k);
    }
    assert_eq!(rt; number(job.enter(&[], 6, area)), 7);
    // a scope that is refused comes first
    assert_eq!(rt; number(job.enter(&[1], 6, area)), 6);
    assert_eq!(rt; job.stage(), Stage::Draft);
    assert_eq!(rt; job.shape().function_count(), 64);
    assert_eq!(rt; job.shape().used(), 66);
    Ok(())
}

#[test]
fn the_65th_function_is_refused(rt: HostRuntime) -> Result<(), Fail> {
    // with no room left, and with some
    let mut full = [7; 66];
    crowded(&rt, &mut full)?;
    let mut roomy = [7; 68];
    crowded(&rt, &mut roomy)?;
    let mut expected = [7; 68];
    expected[2..66].fill(5);
    assert_eq!(rt; &full[..], &expected[..66]);
    assert_eq!(rt; roomy, expected);
    Ok(())
}

#[test]
fn the_largest_tables_need_the_largest_area(rt: HostRuntime) -> Result<(), Fail> {
    let mut area = [7; 16_384];
    let mut job: Job<u32, NoFloors> = Job::new(NoFloors);
    job.open(&[16; 5], &area)?;
    assert_eq!(rt; number(job.enter(&[0, 1, 2, 3, 4], 5, &mut area)), 8);
    assert_eq!(rt; job.enter(&[0, 1, 2], 5, &mut area)?, 0);
    assert_eq!(rt; job.enter(&[1, 2, 3], 5, &mut area)?, 1);
    assert_eq!(rt; job.enter(&[2, 3, 4], 5, &mut area)?, 2);
    assert_eq!(rt; number(job.enter(&[0, 1, 2], 5, &mut area)), 8);
    assert_eq!(rt; job.shape().used(), 2 + 3 * 4_096);
    assert_eq!(rt; area[12_289], 5);
    assert_eq!(rt; area[12_290], 7);
    Ok(())
}
