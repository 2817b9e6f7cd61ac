// The edges of load, through a job.
use jobs::job::{Job, NoFloors};
use jobs::stage::Stage;
use std::alloc::{AllocError, Global};
use std::process::Abort;
use std::test::Fail;

// What a load gives: the upper bound, or the fault's number, the number that it carries, and its offset.
type Answer = Result<u32, (u8, Option<u8>, usize)>;

// Loads a text into a job that is Closed, and checks the stage that it leaves.
fn loaded(rt: &impl Abort, text: &[u8], area: &mut [u32]) -> Result<Answer, Fail> {
    let mut job: Job<u32, NoFloors> = Job::new(NoFloors);
    match job.load(text, area) {
        Ok(upper) => {
            assert_eq!(rt; job.stage(), Stage::Draft);
            Ok(Ok(upper))
        }
        Err(fault) => {
            assert_eq!(rt; job.stage(), Stage::Closed);
            assert_eq!(rt; job.shape().function_count(), 0);
            Ok(Err((fault.flaw.number(), fault.flaw.carried(), fault.at)))
        }
    }
}

#[test]
fn texts_have_their_limit(rt: HostRuntime) -> Result<(), Fail> {
    let mut text = [b' '; 65_536];
    text[0..11].copy_from_slice(b"t 1 1 0 9 1");
    assert_eq!(rt; loaded(&rt, &text, &mut [7; 2])?, Err((15, None, 0)));
    assert_eq!(rt; loaded(&rt, &text[0..65_535], &mut [7; 2])?, Ok(9));
    // a text that is too long comes before the area
    assert_eq!(rt; loaded(&rt, &text, &mut [7; 1])?, Err((15, None, 0)));
    Ok(())
}

#[test]
fn areas_have_their_limits(rt: HostRuntime) -> Result<(), Fail> {
    let text = b"t 1 1 0 9 1";
    assert_eq!(rt; loaded(&rt, text, &mut [7; 1])?, Err((3, None, 0)));
    assert_eq!(rt; loaded(&rt, text, &mut [7; 2])?, Ok(9));
    assert_eq!(rt; loaded(&rt, text, &mut [7; 16_384])?, Ok(9));
    assert_eq!(rt; loaded(&rt, text, &mut [7; 16_385])?, Err((3, None, 0)));
    // the area comes before every word
    assert_eq!(rt; loaded(&rt, b"", &mut [7; 1])?, Err((3, None, 0)));
    Ok(())
}

#[test]
fn five_variables_are_loaded(rt: HostRuntime) -> Result<(), Fail> {
    let mut area = [7; 35];
    let text = b"t 5 2 1 9 2 2 2 2 2 5 4 3 2 1 0 6 1 0 1 1 1 1 8";
    assert_eq!(rt; loaded(&rt, text, &mut area)?, Ok(9));
    let mut expected = [7; 35];
    expected[2..2 + 32].fill(6);
    expected[2 + 15] = 8;
    assert_eq!(rt; area, expected);
    Ok(())
}

// A text that states a number of functions, and has as many with one cell each.
fn many(heap: Global, heading: &[u8], count: usize) -> Result<Vec<u8>, AllocError> {
    let mut text = Vec::new(heap);
    text.extend_from_slice(heading)?;
    for _k in 0..count {
        text.extend_from_slice(b" 0 5 0")?;
    }
    Ok(text)
}

#[test]
fn at_most_64_functions_are_loaded(rt: HostRuntime) -> Result<(), Fail> {
    let mut area = [7; 68];
    let most = many(rt.alloc(), b"t 1 1 64 9 1", 64)?;
    let more = many(rt.alloc(), b"t 1 1 65 9 1", 65)?;
    assert_eq!(rt;
        loaded(&rt, more.as_slice(), &mut area)?,
        Err((19, Some(7), 6))
    );
    assert_eq!(rt; area, [7; 68]);
    assert_eq!(rt; loaded(&rt, most.as_slice(), &mut area)?, Ok(9));
    assert_eq!(rt; (area[1], area[2], area[65], area[66]), (7, 5, 5, 7));
    Ok(())
}

// The first function of these texts is whole, so that its table would have been written.
#[test]
fn a_refused_text_changes_nothing(rt: HostRuntime) -> Result<(), Fail> {
    let rows: [(&[u8], Option<u8>, u8, usize); 5] = [
        (b"t 1 2 2 9 2 1 0 5 1 1 6 1 0 5 1 2 6", Some(10), 19, 32),
        (b"t 1 2 3 9 2 1 0 5 0 1 0 5 0 1 0 5 0", Some(8), 19, 32),
        (b"t 1 2 2 9 2 1 0 5 1 1 6 1 0 5 1 1", None, 16, 33),
        (b"t 1 2 1 9 2 1 0 5 1 1 6 x", None, 20, 24),
        (b"t 1 2 2 9 2 1 0 5 1 1 6 1 0 -5 0", None, 17, 28),
    ];
    for (text, carried, number, at) in rows {
        let mut area = [7; 6];
        assert_eq!(rt; loaded(&rt, text, &mut area)?, Err((number, carried, at)));
        assert_eq!(rt; area, [7; 6]);
    }
    Ok(())
}

#[test]
fn a_draft_loads_nothing_and_goes_on(rt: HostRuntime) -> Result<(), Fail> {
    let mut area = [7; 9];
    let mut job: Job<u32, NoFloors> = Job::new(NoFloors);
    assert_eq!(rt; job.load(b"t 2 2 1 9 2 1 1 0 5 1 1 6", &mut area)?, 9);
    assert_eq!(rt; job.stage(), Stage::Draft);
    assert_eq!(rt; area, [7, 7, 5, 6, 7, 7, 7, 7, 7]);
    match job.load(b"t 1 2 1 8 2 1 0 9 0", &mut area) {
        Ok(_) => return Err(Fail::new("a draft is loaded")),
        Err(fault) => assert_eq!(rt;
            (fault.flaw.number(), fault.flaw.carried(), fault.at),
            (4, None, 0)
        ),
    }
    assert_eq!(rt; job.stage(), Stage::Draft);
    assert_eq!(rt; job.shape().sizes().len(), 2);
    assert_eq!(rt; job.shape().function_count(), 1);
    assert_eq!(rt; job.enter(&[1, 0], 4, &mut area)?, 1);
    job.amend(0, &[0], 3, &mut area)?;
    assert_eq!(rt; area, [7, 7, 3, 6, 4, 4, 7, 7, 7]);
    Ok(())
}
