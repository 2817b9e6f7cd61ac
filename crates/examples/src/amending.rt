// The edges of amend.
use crate::support::number;
use jobs::job::{Job, NoFloors};
use jobs::stage::Stage;
use std::process::Abort;
use std::test::Fail;

// The number that amend gives, and the cell that it changed.
// The job has two functions: one of no variables, and one of two, of 2 and 3 values.
fn amended(
    rt: &impl Abort,
    function: usize,
    tuple: &[u8],
    lent: usize,
) -> Result<(u8, Option<usize>), Fail> {
    let mut area = [7; 12];
    assert!(rt; lent <= 12);
    let mut job: Job<u32, NoFloors> = Job::new(NoFloors);
    job.open(&[2, 4, 3], &area[0..11])?;
    job.enter(&[], 4, &mut area[0..11])?;
    job.enter(&[0, 2], 5, &mut area[0..11])?;
    let before = area;
    let answer = number(job.amend(function, tuple, 6, &mut area[0..lent]));
    assert_eq!(rt; job.stage(), Stage::Draft);
    assert_eq!(rt; job.shape().function_count(), 2);
    assert_eq!(rt; job.shape().used(), 9);
    let mut changed = None;
    for (k, (now, was)) in area.into_iter().zip(before).enumerate() {
        if now != was {
            assert_eq!(rt; changed, None);
            assert_eq!(rt; now, 6);
            changed = Some(k);
        }
    }
    Ok((answer, changed))
}

#[test]
fn what_is_just_within_is_amended(rt: HostRuntime) -> Result<(), Fail> {
    assert_eq!(rt; amended(&rt, 0, &[], 11)?, (0, Some(2)));
    assert_eq!(rt; amended(&rt, 1, &[0, 0], 11)?, (0, Some(3)));
    assert_eq!(rt; amended(&rt, 1, &[0, 2], 11)?, (0, Some(5)));
    assert_eq!(rt; amended(&rt, 1, &[1, 0], 11)?, (0, Some(6)));
    assert_eq!(rt; amended(&rt, 1, &[1, 2], 11)?, (0, Some(8)));
    Ok(())
}

#[test]
fn what_is_just_beyond_changes_nothing(rt: HostRuntime) -> Result<(), Fail> {
    let rows: [(usize, &[u8], usize, u8); 10] = [
        (1, &[1, 2], 10, 5),
        (1, &[1, 2], 12, 5),
        (2, &[1, 2], 11, 9),
        (1, &[1], 11, 10),
        (1, &[1, 2, 0], 11, 10),
        (0, &[0], 11, 10),
        (1, &[2, 2], 11, 10),
        (1, &[1, 3], 11, 10),
        // the first row of the table counts
        (2, &[1, 2], 12, 5),
        (2, &[1, 3], 11, 9),
    ];
    for (function, tuple, lent, answer) in rows {
        assert_eq!(rt; amended(&rt, function, tuple, lent)?, (answer, None));
    }
    Ok(())
}
