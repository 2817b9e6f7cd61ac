// The lines of calls.
use crate::flaw::Flaw;
use crate::heading::cost;
use crate::lines::Line;
use crate::numbers::{end, listed, number, wanted, word};
use crate::script::Request;
use crate::written::Written;
use std::alloc::Global;
use words::reader::Reader;

// The number of an area that was declared.
fn area_number(words: &mut Reader, areas: usize) -> Result<usize, Flaw> {
    let number = number::<u32>(wanted(words)?)? as usize;
    if number < areas {
        Ok(number)
    } else {
        Err(Flaw::Unknown)
    }
}

// The line's end, with `in AREA` before it or without: `next` is the first word of that.
fn area_from(next: Option<&[u8]>, words: &mut Reader, areas: usize) -> Result<Option<usize>, Flaw> {
    match next {
        None => Ok(None),
        Some(b"in") => {
            let area = area_number(words, areas)?;
            end(words)?;
            Ok(Some(area))
        }
        Some(_) => Err(Flaw::Word),
    }
}

// The line's end, with `in AREA` before it or without.
fn area(words: &mut Reader, areas: usize) -> Result<Option<usize>, Flaw> {
    area_from(word(words), words, areas)
}

// open SIZE... [in AREA]
fn open<C: Written>(heap: Global, words: &mut Reader, areas: usize) -> Result<Request<C>, Flaw> {
    let sizes = listed(heap, words)?;
    let area = area_from(sizes.behind, words, areas)?;
    Ok(Request::Open {
        sizes: sizes.numbers,
        area,
    })
}

// enter [VARIABLE...] cost COST [in AREA]
fn enter<C: Written>(heap: Global, words: &mut Reader, areas: usize) -> Result<Request<C>, Flaw> {
    Ok(Request::Enter {
        scope: listed(heap, words)?.before(b"cost")?,
        cost: cost(words)?,
        area: area(words, areas)?,
    })
}

// amend FUNCTION [at VALUE...] cost COST [in AREA]
fn amend<C: Written>(heap: Global, words: &mut Reader, areas: usize) -> Result<Request<C>, Flaw> {
    let function = number(wanted(words)?)?;
    let tuple = match word(words) {
        Some(b"at") => tuple(heap, words)?,
        Some(b"cost") => Vec::new(heap),
        _ => return Err(Flaw::Word),
    };
    Ok(Request::Amend {
        function,
        tuple,
        cost: cost(words)?,
        area: area(words, areas)?,
    })
}

// VALUE... cost, at least one value
fn tuple(heap: Global, words: &mut Reader) -> Result<Vec<u8>, Flaw> {
    let values = listed(heap, words)?.before(b"cost")?;
    if values.is_empty() {
        return Err(Flaw::Word);
    }
    Ok(values)
}

// prepare VARIABLE... limit COST [in AREA]
fn prepare<C: Written>(heap: Global, words: &mut Reader, areas: usize) -> Result<Request<C>, Flaw> {
    Ok(Request::Prepare {
        order: listed(heap, words)?.before(b"limit")?,
        limit: cost(words)?,
        area: area(words, areas)?,
    })
}

// step BUDGET [in AREA]
fn step<C: Written>(words: &mut Reader, areas: usize) -> Result<Request<C>, Flaw> {
    Ok(Request::Step {
        budget: number(wanted(words)?)?,
        area: area(words, areas)?,
    })
}

// report [buffer LENGTH] [in AREA]
fn report<C: Written>(words: &mut Reader, areas: usize) -> Result<Request<C>, Flaw> {
    match word(words) {
        Some(b"buffer") => Ok(Request::Report {
            buffer: Some(number(wanted(words)?)?),
            area: area(words, areas)?,
        }),
        next => Ok(Request::Report {
            buffer: None,
            area: area_from(next, words, areas)?,
        }),
    }
}

// A call: its name, and what it brings.
// Not a table of functions: some calls need no heap, and two bring nothing.
pub(crate) fn call<C: Written>(
    heap: Global,
    line: &mut Line,
    areas: usize,
) -> Result<Request<C>, Flaw> {
    match line.name {
        b"open" => open(heap, &mut line.rest, areas),
        b"enter" => enter(heap, &mut line.rest, areas),
        b"amend" => amend(heap, &mut line.rest, areas),
        b"prepare" => prepare(heap, &mut line.rest, areas),
        b"step" => step(&mut line.rest, areas),
        b"report" => report(&mut line.rest, areas),
        b"reopen" => end(&mut line.rest).map(|()| Request::Reopen),
        b"close" => end(&mut line.rest).map(|()| Request::Close),
        _ => Err(Flaw::Call),
    }
}
