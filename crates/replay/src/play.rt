// The calls of one job, from new and Closed on.
ghost use Rattle.replay.specs.Chain.{Link, Run};
ghost use Rattle.replay.specs.Promise.{Promise};
ghost use Rattle.std.specs.Prelude.{IfOk};

use crate::calls::{Answer, Call, Shown};
use costs::Cost;
use floors::source::FloorSource;
use jobs::job::Job;
use std::alloc::{AllocError, Global};

// Carries out one call, with the parts of the cells and bytes that it brings.
fn perform<C: Cost, S: FloorSource<C>>(
    job: &mut Job<C, S>,
    cells: &mut [C],
    bytes: &mut [u8],
    call: &Call<C>,
) -> Answer<C>
    ensures { Link C.Cost.structure S.FloorSource.rules
        (record { job = job.entry.now; cells = cells.old; bytes = bytes.old })
        call.now result
        (record { job = job.exit.now; cells = cells.new; bytes = bytes.new }) }
{
    let count = cells.len();
    match call {
        Call::Open { sizes, area } => job.open(sizes, &cells[area.range(count)]).into(),
        Call::Enter { scope, cost, area } => job
            .enter(scope, *cost, &mut cells[area.range(count)])
            .into(),
        Call::Amend {
            function,
            tuple,
            cost,
            area,
        } => job
            .amend(*function, tuple, *cost, &mut cells[area.range(count)])
            .into(),
        Call::Prepare { order, limit, area } => job
            .prepare(order, *limit, &mut cells[area.range(count)])
            .into(),
        Call::Step { budget, area } => job.step(*budget, &mut cells[area.range(count)]).into(),
        Call::Report { buffer, area } => {
            let place = buffer.range(bytes.len());
            let shown = &mut bytes[place];
            match job.report(shown, &cells[area.range(count)]) {
                Ok(report) => Answer::Reported(report, Shown::of(shown)),
                Err(refusal) => Answer::Refused(refusal),
            }
        }
        Call::Reopen => job.reopen().into(),
        Call::Close => {
            job.close();
            Answer::Done
        }
    }
}

// Makes a job new and Closed, and carries out the calls; there is one answer for each.
pub fn replay<C: Cost, S: FloorSource<C> + Drop>(
    heap: Global,
    source: S,
    cells: &mut [C],
    bytes: &mut [u8],
    calls: &[Call<C>],
) -> Result<Vec<Answer<C>>, AllocError>
    ensures ran { IfOk result (λ v. Run C.Cost.structure S.FloorSource.rules source cells.old cells.new bytes.old bytes.new calls.now v.items) }
    ensures truthful { IfOk result (λ v. Promise C.Cost.structure calls.now v.items) }
{
    let mut job = Job::new(source);
    let mut answers = Vec::with_capacity(heap, calls.len())?;
    for call in calls {
        let answer = perform(&mut job, cells, bytes, call);
        answers.push(answer)?;
    }
    Ok(answers)
}
