// The calls that a script's lines ask for.
use crate::lending::lent;
use costs::Cost;
use jobs::job::{Job, NoFloors};
use replay::calls::{Call, Part};
use scripts::script::Request;
use std::alloc::{AllocError, Global};

// What the last accepted open brought: its area, and how many variables. Before there was one, area 0 and none.
#[derive(Clone, Copy)]
struct Opened {
    area: Part,
    variables: usize,
}

impl Opened {
    fn none(parts: &[Part]) -> Opened {
        Opened {
            area: parts.first().copied().unwrap_or(Part { start: 0, len: 0 }),
            variables: 0,
        }
    }

    // An area by its number; where none is named, that of the last accepted open.
    fn part(self, area: Option<usize>, parts: &[Part]) -> Part {
        area.and_then(|k| parts.get(k))
            .copied()
            .unwrap_or(self.area)
    }

    // The call that a line asks for, with what the line leaves out.
    fn call<C>(self, request: Request<C>, parts: &[Part]) -> Call<C> {
        match request {
            Request::Open { sizes, area } => Call::Open {
                sizes,
                area: self.part(area, parts),
            },
            Request::Enter { scope, cost, area } => Call::Enter {
                scope,
                cost,
                area: self.part(area, parts),
            },
            Request::Amend {
                function,
                tuple,
                cost,
                area,
            } => Call::Amend {
                function: function as usize,
                tuple,
                cost,
                area: self.part(area, parts),
            },
            Request::Prepare { order, limit, area } => Call::Prepare {
                order,
                limit,
                area: self.part(area, parts),
            },
            Request::Step { budget, area } => Call::Step {
                budget,
                area: self.part(area, parts),
            },
            Request::Report { buffer, area } => Call::Report {
                buffer: self.buffer(buffer),
                area: self.part(area, parts),
            },
            Request::Reopen => Call::Reopen,
            Request::Close => Call::Close,
        }
    }

    // A buffer of that length, or of one place for each variable.
    fn buffer(self, length: Option<u8>) -> Part {
        Part {
            start: 0,
            len: length.map_or(self.variables, |length| usize::from(length)),
        }
    }

    // What is known after a call. Only open and close lead from Closed and to it, so a job that makes these two alone tells which opens are accepted.
    fn after<C: Cost>(self, job: &mut Job<C, NoFloors>, call: &Call<C>, cells: &[C]) -> Opened {
        match call {
            Call::Open { sizes, area } => match job.open(sizes.as_slice(), lent(cells, *area)) {
                Ok(()) => Opened {
                    area: *area,
                    variables: sizes.len(),
                },
                Err(_) => self,
            },
            Call::Close => {
                job.close();
                self
            }
            _ => self,
        }
    }
}

// The calls of a script, one for each of its lines.
pub(crate) fn calls_of<C: Cost + Drop>(
    heap: Global,
    requests: Vec<Request<C>>,
    parts: &[Part],
    cells: &[C],
) -> Result<Vec<Call<C>>, AllocError> {
    let mut job = Job::new(NoFloors);
    let mut opened = Opened::none(parts);
    let mut calls = Vec::new(heap);
    for request in requests {
        let call = opened.call(request, parts);
        opened = opened.after(&mut job, &call, cells);
        calls.push(call)?;
    }
    Ok(calls)
}
