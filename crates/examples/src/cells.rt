// The cell that a tuple has.
use jobs::job::{Job, NoFloors};
use std::test::Fail;

// Sizes 2, 3 and 4: the tuple (1, 2, 3) has cell 23 of a table that lies from cell 2 on.
#[test]
fn the_last_tuple_has_the_last_cell(rt: HostRuntime) -> Result<(), Fail> {
    let mut area = [7; 28];
    let mut job: Job<u32, NoFloors> = Job::new(NoFloors);
    job.open(&[2, 3, 4], &area)?;
    assert_eq!(rt; job.enter(&[0, 1, 2], 5, &mut area)?, 0);
    job.amend(0, &[1, 2, 3], 9, &mut area)?;
    let mut expected = [7; 28];
    expected[2..2 + 24].fill(5);
    expected[2 + 23] = 9;
    assert_eq!(rt; area, expected);
    Ok(())
}
