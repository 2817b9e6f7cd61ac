// The edges of open, and of the stages.
use crate::support::number;
use jobs::job::{Job, NoFloors};
use jobs::stage::Stage;
use std::process::Abort;
use std::test::Fail;

// The number that open gives to so many variables of one size in an area of so many cells,
// and the stage that it leaves.
fn opened(rt: &impl Abort, variables: usize, size: u8, cells: usize) -> (u8, Stage) {
    let sizes = [size; 33];
    let area = [0; 16_385];
    assert!(rt; variables <= 33 && cells <= 16_385);
    let mut job: Job<u32, NoFloors> = Job::new(NoFloors);
    let answer = number(job.open(&sizes[0..variables], &area[0..cells]));
    (answer, job.stage())
}

#[test]
fn what_is_just_within_is_opened(rt: HostRuntime) {
    let rows = [
        (1, 1, 2),
        (32, 1, 2),
        (1, 16, 2),
        (1, 1, 16_384),
        (32, 16, 16_384),
    ];
    for (variables, size, cells) in rows {
        assert_eq!(rt; opened(&rt, variables, size, cells), (0, Stage::Draft));
    }
}

#[test]
fn what_is_just_beyond_is_refused(rt: HostRuntime) {
    let rows = [
        (0, 1, 2, 1),
        (33, 1, 2, 1),
        (1, 0, 2, 2),
        (1, 17, 2, 2),
        (1, 1, 1, 3),
        (1, 1, 16_385, 3),
        // the first row of the table counts
        (33, 0, 1, 1),
        (33, 0, 2, 1),
        (32, 0, 1, 2),
    ];
    for (variables, size, cells, answer) in rows {
        assert_eq!(rt;
            opened(&rt, variables, size, cells),
            (answer, Stage::Closed)
        );
    }
}

#[test]
fn one_bad_size_is_enough(rt: HostRuntime) {
    let area = [0; 2];
    let mut job: Job<u32, NoFloors> = Job::new(NoFloors);
    assert_eq!(rt; number(job.open(&[2, 16, 17], &area)), 2);
    assert_eq!(rt; number(job.open(&[0, 16, 2], &area)), 2);
    assert_eq!(rt; number(job.open(&[2, 16, 1], &area)), 0);
}

#[test]
fn a_closed_job_takes_no_functions(rt: HostRuntime) {
    let mut area = [7; 8];
    let mut job: Job<u32, NoFloors> = Job::new(NoFloors);
    assert_eq!(rt; number(job.enter(&[0], 5, &mut area)), 4);
    assert_eq!(rt; number(job.amend(0, &[0], 5, &mut area)), 4);
    assert_eq!(rt; job.stage(), Stage::Closed);
    assert_eq!(rt; area, [7; 8]);
}

#[test]
fn a_draft_is_not_opened_again(rt: HostRuntime) -> Result<(), Fail> {
    let mut area = [7; 8];
    let mut job: Job<u32, NoFloors> = Job::new(NoFloors);
    job.open(&[2], &area)?;
    job.enter(&[0], 5, &mut area)?;
    // the stage comes before every other row
    assert_eq!(rt; number(job.open(&[3, 3], &area)), 4);
    assert_eq!(rt; number(job.open(&[], &area)), 4);
    assert_eq!(rt; job.stage(), Stage::Draft);
    assert_eq!(rt; job.shape().function_count(), 1);
    assert_eq!(rt; job.shape().sizes().len(), 1);
    Ok(())
}

#[test]
fn a_job_is_closed_from_either_stage(rt: HostRuntime) -> Result<(), Fail> {
    let mut area = [7; 8];
    let mut job: Job<u32, NoFloors> = Job::new(NoFloors);
    job.close();
    assert_eq!(rt; job.stage(), Stage::Closed);
    job.open(&[2], &area)?;
    job.enter(&[0], 5, &mut area)?;
    job.close();
    assert_eq!(rt; job.stage(), Stage::Closed);
    assert_eq!(rt; job.shape().function_count(), 0);
    assert_eq!(rt; number(job.enter(&[0], 6, &mut area)), 4);
    job.open(&[3, 3], &area[0..7])?;
    assert_eq!(rt; job.stage(), Stage::Draft);
    assert_eq!(rt; job.shape().function_count(), 0);
    assert_eq!(rt; job.shape().used(), 2);
    assert_eq!(rt; area, [7, 7, 5, 5, 7, 7, 7, 7]);
    assert_eq!(rt; number(job.enter(&[1], 6, &mut area)), 5);
    assert_eq!(rt; job.enter(&[1], 6, &mut area[0..7])?, 0);
    Ok(())
}
