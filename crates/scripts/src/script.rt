// A script, read to its end.
ghost use Rattle.std.specs.Prelude.{◌≡◌, ◌<◌, ◌+◌, ◌-◌, ◌^◌};

use crate::calls::call;
use crate::flaw::{Flaw, Mistake};
use crate::heading::{areas_line, kind_line, source_line};
use crate::lines::line_at;
use crate::written::Written;
use std::alloc::Global;

// The cost structure that a script names.
#[derive(Clone, Copy, PartialEq, Eq, Debug)]
pub enum Kind {
    Sum,
    Worst,
    Ranked,
}

// The source of floors that a script names.
#[derive(Clone, Copy, PartialEq, Eq, Debug)]
pub enum SourceName {
    Paid,
    FirstChoice,
    // Of this width.
    MiniBucket(u8),
}

// The lent areas by their lengths, and what every cell holds at first.
#[derive(Drop)]
pub struct Areas<C> {
    pub lengths: Vec<u16>,
    pub content: C,
}

// A call as a line names it. An area goes by its number; what is left out is None.
#[derive(Drop)]
pub enum Request<C> {
    Open {
        sizes: Vec<u8>,
        area: Option<usize>,
    },
    Enter {
        scope: Vec<u8>,
        cost: C,
        area: Option<usize>,
    },
    Amend {
        function: u32,
        tuple: Vec<u8>,
        cost: C,
        area: Option<usize>,
    },
    Prepare {
        order: Vec<u8>,
        limit: C,
        area: Option<usize>,
    },
    Step {
        budget: u32,
        area: Option<usize>,
    },
    Report {
        buffer: Option<u8>,
        area: Option<usize>,
    },
    Reopen,
    Close,
}

#[derive(Drop)]
pub struct Script<C> {
    pub source: SourceName,
    pub areas: Areas<C>,
    pub requests: Vec<Request<C>>,
}

// A heading line that is missing, behind that many lines.
fn missing(lines: usize, flaw: Flaw) -> Mistake
    ensures { (lines < 2 ^ 64 - 1 → result.line ≡ lines + 1) × (result.flaw ≡ flaw) }
{
    Mistake {
        line: lines.saturating_add(1),
        flaw,
    }
}

// The cost structure, which the first line names.
pub fn kind_of(text: &[u8]) -> Result<Kind, Mistake> {
    let mut line = text
        .split(|byte| *byte == b'\n')
        .enumerate()
        .find_map(line_at)
        .ok_or(missing(0, Flaw::Costs))?;
    kind_line(&mut line).map_err(|flaw| line.mistake(flaw))
}

// The whole script, once its cost structure is known.
pub fn script_of<C: Written>(heap: Global, text: &[u8]) -> Result<Script<C>, Mistake> {
    let mut lines = text
        .split(|byte| *byte == b'\n')
        .enumerate()
        .filter_map(line_at);
    let first = lines.next().ok_or(missing(0, Flaw::Costs))?;
    let mut second = lines.next().ok_or(missing(first.number, Flaw::Source))?;
    let source = source_line(&mut second).map_err(|flaw| second.mistake(flaw))?;
    let mut third = lines.next().ok_or(missing(second.number, Flaw::Areas))?;
    let areas = areas_line::<C>(heap, &mut third).map_err(|flaw| third.mistake(flaw))?;
    let mut requests = Vec::new(heap);
    for mut line in lines {
        let request = call(heap, &mut line, areas.lengths.len());
        requests
            .push(request.map_err(|flaw| line.mistake(flaw))?)
            .map_err(|_| line.mistake(Flaw::Memory))?;
    }
    Ok(Script {
        source,
        areas,
        requests,
    })
}
