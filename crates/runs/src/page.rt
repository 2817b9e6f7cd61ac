// A whole script, carried out and printed.
use crate::calls::calls_of;
use crate::lending::{cells_of, filled, parts_of};
use crate::lines::answer_line;
use buckets::mini_bucket::MiniBucket;
use costs::Pair;
use floors::first_choice::FirstChoice;
use floors::paid::Paid;
use floors::source::FloorSource;
use replay::calls::{Answer, Call};
use replay::replay;
use scripts::flaw::Mistake;
use scripts::script::{Kind, SourceName, kind_of, script_of};
use scripts::written::Written;
use std::alloc::{AllocError, Global};

// Why there is no page.
#[derive(Debug, Drop)]
pub enum Trouble {
    Memory,
    // A line of the script is wrong, and no call was made.
    Wrong(Mistake),
}

impl From<AllocError> for Trouble {
    fn from(_e: AllocError) -> Trouble {
        Trouble::Memory
    }
}

impl From<Mistake> for Trouble {
    fn from(mistake: Mistake) -> Trouble {
        Trouble::Wrong(mistake)
    }
}

// The answers of the calls by one source.
// Not inlined: the search by each source is compiled apart, and a mini-bucket's runs about a tenth faster so.
#[inline(never)]
fn answered<C: Written, S: FloorSource<C> + Drop>(
    heap: Global,
    source: S,
    cells: &mut [C],
    calls: &[Call<C>],
) -> Result<Vec<Answer<C>>, AllocError> {
    let mut bytes = [0u8; 255];
    replay(heap, source, cells, &mut bytes, calls)
}

// The answers of the calls, by the source that the script names.
fn answers<C: Written>(
    heap: Global,
    source: SourceName,
    cells: &mut [C],
    calls: &[Call<C>],
) -> Result<Vec<Answer<C>>, AllocError> {
    match source {
        SourceName::Paid => answered(heap, Paid::new(), cells, calls),
        SourceName::FirstChoice => answered(heap, FirstChoice::new(), cells, calls),
        SourceName::MiniBucket(width) => answered(heap, MiniBucket::new(width), cells, calls),
    }
}

// A line for each answer.
fn lines<C: Written>(
    heap: Global,
    calls: &[Call<C>],
    answers: &[Answer<C>],
) -> Result<Vec<u8>, AllocError> {
    let mut page = Vec::new(heap);
    for (call, answer) in calls.iter().zip(answers.iter()) {
        let line = answer_line(heap, call, answer)?;
        page.extend_from_slice(line.as_bytes())?;
    }
    Ok(page)
}

// The page of a script whose costs are of one kind.
fn page_of<C: Written + Drop>(heap: Global, text: &[u8]) -> Result<Vec<u8>, Trouble> {
    let script = script_of::<C>(heap, text)?;
    let lengths = script.areas.lengths.as_slice();
    let parts = parts_of(heap, lengths)?;
    let mut cells = filled(heap, script.areas.content, cells_of(lengths))?;
    let calls = calls_of(heap, script.requests, parts.as_slice(), cells.as_slice())?;
    let answers = answers(heap, script.source, cells.as_mut_slice(), calls.as_slice())?;
    let page = lines(heap, calls.as_slice(), answers.as_slice())?;
    Ok(page)
}

// The page of a script: a line for each of its calls.
pub fn run_page(heap: Global, text: &[u8]) -> Result<Vec<u8>, Trouble> {
    match kind_of(text)? {
        Kind::Sum => page_of::<u32>(heap, text),
        Kind::Worst => page_of::<u16>(heap, text),
        Kind::Ranked => page_of::<Pair>(heap, text),
    }
}
